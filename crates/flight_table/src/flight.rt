//! The table.
ghost use Rattle.std.specs.Prelude.{◌≡◌, ℕ, ◌<◌, ◌≤◌, ◌^◌, false, [], Some, None, IfOk, IfSome, IsFalse, IsSome, IsSomeAnd, IsTrue, is_some, length, option_map};
ghost use Rattle.std.specs.List.{AllByRecursion};
ghost use Rattle.flight_table.specs.LiveRequests.{finished, flight_for, awaits_write, is_settled, next_piece, with_answered, with_sent, with_write};
ghost use Rattle.flight_table.specs.Laws.{IsSound};
ghost use Rattle.flight_table.specs.Order.{IsSmallestDone, IsSmallestReady, holder_of, holders, holds_id, id_for, is_ready, next_ready};
ghost use Rattle.flight_table.specs.Tables.{change_key, change_number, flight_of, has_number, has_room, in_flight, is_busy, is_done_of, key_where, oldest_done, request_at, request_named, table_of, with_entry, with_request, without_key, without_number};
ghost use Rattle.flight_table.specs.Work.{unsent, work};

use crate::TableLimits;
use crate::live::Live;
use crate::live_request::{LiveRequest, Step};
use crate::slots::Key;
use burst_plan::{Piece, Plan};
use std::alloc::{AllocError, Global};
use std::marker::Model;
use tl_messages::Request;

/// The table of live requests. All room is taken by `new`; no other call takes memory.
pub struct Flight {
    pub(crate) accepted: u64,
    pub(crate) live: Live,
}

impl Model for Flight {
    ghost use Rattle.flight_table.specs.Inside.{keyed_of};
    ghost use Rattle.flight_table.specs.Laws.{IsSound};
    ghost use Rattle.flight_table.specs.Tables.{KeyedTable};

    ghost Value = { KeyedTable };

    ghost view = { λ f. keyed_of f.accepted f.live };

    ghost invariant = { λ f. IsSound (keyed_of f.accepted f.live) };
}

// Written out, so that what lets go of one calls this, and proves nothing of its parts.
impl Drop for Flight {
    fn drop(self) {
        let Flight {
            accepted: _,
            live: _,
        } = self;
    }
}

impl Flight {
    /// A table of `clients` clients, 1 to 8, of `quota` live requests each, 1 to 8, with `ids` IDs, 1 to 16, and of a
    /// request at most `depth` bursts unanswered, 1 to 4. Nothing was accepted.
    ///
    /// The one error is that memory was refused.
    pub fn new(
        alloc: Global,
        clients: u8,
        quota: u8,
        ids: u8,
        depth: u8,
    ) -> Result<Self, AllocError>
        requires some_clients { 1 ≤ clients }
        requires most_clients { clients ≤ 8 }
        requires some_quota { 1 ≤ quota }
        requires most_quota { quota ≤ 8 }
        requires some_ids { 1 ≤ ids }
        requires most_ids { ids ≤ 16 }
        requires some_depth { 1 ≤ depth }
        requires most_depth { depth ≤ 4 }
        ensures { IfOk result (λ flight. flight
            ≡ record { limits = record { clients = clients; quota = quota; ids = ids; depth = depth }; accepted = 0; entries = [] }) }
    {
        let limits = TableLimits {
            clients,
            quota,
            ids,
            depth,
        };
        let live = Live::new(alloc, limits)?;
        Ok(Flight { accepted: 0, live })
    }

    /// Whether a client has fewer live requests than it may have.
    pub fn room(&self, client: u8) -> bool
        ensures answer { result ≡ has_room (table_of self.now) client }
        ensures laws { IsSound self.now }
    {
        self.live.count_of(client) < usize::from(self.live.limits.quota)
    }

    /// Whether a live request of a client has this source.
    pub fn busy(&self, client: u8, source: u8) -> bool
        ensures { result ≡ is_busy (table_of self.now) client source }
    {
        self.live.has_source(client, source)
    }

    /// Accepts a client's request, and answers its number: 0, 1, 2, .. in the order of acceptance. The range is that of the
    /// plan, in AXI addresses. A request without a plan sends nothing and is done at once, and so is an Intent.
    ///
    /// The client is one of the table's and has room, its source is free, and fewer than 2^48 requests were accepted.
    pub fn accept(&mut self, client: u8, request: &Request, plan: Option<Plan>) -> u64
        requires client { client < self.old.limits.clients }
        requires room { IsTrue (has_room (table_of self.old) client) }
        requires source { IsFalse (is_busy (table_of self.old) client request.now.source) }
        requires number { self.old.accepted < 2 ^ 48 }
        ensures number { result ≡ self.old.accepted }
        ensures table { table_of self.new ≡ with_request (flight_for result client request.now plan) (table_of self.old) }

        // The other requests keep their keys, and the new one has its own.
        ensures state { (key : ℕ) × (request_at key self.old ≡ None)
            × (self.new ≡ with_entry (record { key = key; request = flight_for result client request.now plan }) self.old) }
        ensures laws { IsSound self.new }
    {
        self.accept_keyed(client, request, plan).0
    }

    /// Accepts a client's request as `accept` does, and answers its number and its key.
    pub fn accept_keyed(&mut self, client: u8, request: &Request, plan: Option<Plan>) -> (u64, Key)
        requires client { client < self.old.limits.clients }
        requires room { IsTrue (has_room (table_of self.old) client) }
        requires source { IsFalse (is_busy (table_of self.old) client request.now.source) }
        requires number { self.old.accepted < 2 ^ 48 }
        ensures number { result.0 ≡ self.old.accepted }
        ensures table { table_of self.new ≡ with_request (flight_for self.old.accepted client request.now plan) (table_of self.old) }

        // The other requests keep their keys, and the new one has its own.
        ensures fresh { request_at result.1 self.old ≡ None }
        ensures state { self.new ≡ with_entry (record { key = result.1; request = flight_for self.old.accepted client request.now plan }) self.old }
        ensures laws { IsSound self.new }
    {
        let number = self.accepted;
        let key = self
            .live
            .add(LiveRequest::accepted(number, client, request, plan));
        self.accepted = number + 1;
        (number, key)
    }

    /// How many requests were accepted since the start; the next one has this number.
    pub fn accepted(&self) -> u64
        ensures { result ≡ self.now.accepted }
    {
        self.accepted
    }

    /// The key of the live request that may send its next burst and has the smallest number; none where none may.
    pub fn next_ready(&self) -> Option<Key>
        ensures key { result ≡ key_where (is_ready (table_of self.now)) self.now }
        ensures request { request_named result self.now ≡ next_ready (table_of self.now) }

        // That request may send, and no other that may has a smaller number.
        ensures smallest { IfSome (request_named result self.now) (IsSmallestReady (table_of self.now)) }
        ensures ready { IfSome result (λ key. IsSomeAnd (request_at key self.now) (λ request. IsTrue (is_ready (table_of self.now) request))) }
        ensures none { result ≡ None → AllByRecursion (λ request. is_ready (table_of self.now) request ≡ false) (table_of self.now).live }
        ensures laws { IsSound self.now }
    {
        self.live.first_ready()
    }

    /// The piece of a request's next burst. The request may send it.
    pub fn next_piece(&self, key: Key) -> Piece
        requires { IsSomeAnd (request_at key self.now) (λ request. IsTrue (is_ready (table_of self.now) request)) }
        ensures { IfSome (request_at key self.now) (λ request. next_piece request ≡ Some result) }
    {
        self.live.get(key).next().unwrap()
    }

    /// Whether a request's next burst is a write. The request may send it.
    pub fn next_is_write(&self, key: Key) -> bool
        requires { IsSomeAnd (request_at key self.now) (λ request. IsTrue (is_ready (table_of self.now) request)) }
        ensures { IfSome (request_at key self.now) (λ request. request.writing ≡ result) }
    {
        self.live.get(key).writing
    }

    /// A request's next burst is sent, under the ID that is answered: its own, or with its first burst the smallest that
    /// is free, which it keeps until it is done. The request may send.
    pub fn sent(&mut self, key: Key) -> u8
        requires { IsSomeAnd (request_at key self.old) (λ request. IsTrue (is_ready (table_of self.old) request)) }
        ensures id { IfSome (request_at key self.old) (λ request. id_for self.old.limits (table_of self.old).live request ≡ Some result) }
        ensures state { self.new ≡ change_key key (with_sent result) self.old }
        ensures table { IfSome (request_at key self.old) (λ request. table_of self.new ≡ change_number request.number (with_sent result) (table_of self.old)) }
        ensures laws { IsSound self.new }
    {
        let id = self.live.id_for(self.live.get(key)).unwrap();
        self.live.take(key, Step::Sent(id));
        id
    }

    /// A burst of a request was answered whole. One of its bursts is sent and unanswered.
    pub fn answered(&mut self, key: Key)
        requires { IsSomeAnd (request_at key self.old) (λ request. request.answered < request.sent) }
        ensures state { self.new ≡ change_key key with_answered self.old }
        ensures table { IfSome (request_at key self.old) (λ request. table_of self.new ≡ change_number request.number with_answered (table_of self.old)) }
        ensures laws { IsSound self.new }
    {
        self.live.take(key, Step::Answered);
    }

    /// Plans the write of an atomic that isn't done, whose read was answered and whose write isn't planned.
    pub fn plan_write(&mut self, key: Key)
        requires { IsSomeAnd (request_at key self.old) (λ request. IsTrue (awaits_write request)) }
        ensures state { self.new ≡ change_key key with_write self.old }
        ensures table { IfSome (request_at key self.old) (λ request. table_of self.new ≡ change_number request.number with_write (table_of self.old)) }
        ensures laws { IsSound self.new }
    {
        self.live.take(key, Step::Writes);
    }

    /// A request is done from here on, and its ID is free again. Nothing of it that is planned is unsent or unanswered.
    pub fn finished(&mut self, key: Key)
        requires { IsSomeAnd (request_at key self.old) (λ request. IsTrue (is_settled request)) }
        ensures state { self.new ≡ change_key key finished self.old }
        ensures table { IfSome (request_at key self.old) (λ request. table_of self.new ≡ change_number request.number finished (table_of self.old)) }
        ensures laws { IsSound self.new }
    {
        self.live.finish(key);
    }

    /// Whether nothing of a live request that is planned is unsent or unanswered: it may finish.
    pub fn is_settled(&self, key: Key) -> bool
        requires { IsSome (request_at key self.now) }
        ensures { IfSome (request_at key self.now) (λ request. result ≡ is_settled request) }
    {
        self.live.get(key).is_settled()
    }

    /// Whether a live request is an atomic that isn't done, whose read was answered and whose write isn't planned:
    /// `plan_write` is due.
    pub fn awaits_write(&self, key: Key) -> bool
        requires { IsSome (request_at key self.now) }
        ensures { IfSome (request_at key self.now) (λ request. result ≡ awaits_write request) }
    {
        self.live.get(key).awaits_write()
    }

    /// The key of the live request that holds an ID; none where nobody holds it.
    pub fn of_id(&self, id: u8) -> Option<Key>
        ensures key { result ≡ key_where (holds_id id) self.now }
        ensures request { request_named result self.now ≡ holder_of (table_of self.now) id }
        ensures named { IfSome result (λ key. IsSomeAnd (request_at key self.now) (λ request. IsTrue (holds_id id request))) }
        ensures laws { IsSound self.now }
    {
        self.live.of_id(id)
    }

    /// The key of the live request with this number; none where it isn't live.
    pub fn key_of(&self, number: u64) -> Option<Key>
        ensures key { result ≡ key_where (has_number number) self.now }
        ensures request { request_named result self.now ≡ flight_of (table_of self.now) number }
        ensures named { IfSome result (λ key. IsSomeAnd (request_at key self.now) (λ request. request.number ≡ number)) }
        ensures laws { IsSound self.now }
    {
        self.live.of_number(number)
    }

    /// The key of a client's done request of the smallest number; none where none of its live requests is done.
    pub fn oldest_done(&self, client: u8) -> Option<Key>
        ensures key { result ≡ key_where (is_done_of client) self.now }
        ensures request { request_named result self.now ≡ oldest_done (table_of self.now) client }

        // That request is done and the client's, and no other such request has a smaller number.
        ensures smallest { IfSome (request_named result self.now) (IsSmallestDone (table_of self.now) client) }
        ensures named { IfSome result (λ key. IsSomeAnd (request_at key self.now) (λ request. IsTrue request.done)) }
        ensures laws { IsSound self.now }
    {
        self.live.oldest_done(client)
    }

    /// Whether a live request of a client is done.
    pub fn first_done(&self, client: u8) -> bool
        ensures { result ≡ is_some (oldest_done (table_of self.now) client) }
    {
        self.live.oldest_done(client).is_some()
    }

    /// Takes a done request out, and answers its number. Its source is free again.
    pub fn release(&mut self, key: Key) -> u64
        requires { IsSomeAnd (request_at key self.old) (λ request. IsTrue request.done) }
        ensures number { option_map (λ request. request.number) (request_at key self.old) ≡ Some result }
        ensures state { self.new ≡ without_key key self.old }
        ensures table { table_of self.new ≡ without_number result (table_of self.old) }
        ensures laws { IsSound self.new }
    {
        let number = self.live.get(key).number;
        self.live.remove(key);
        number
    }

    /// The plan of a live request, which is none where it sends nothing.
    pub fn plan(&self, key: Key) -> Option<Plan>
        requires { IsSome (request_at key self.now) }
        ensures { option_map (λ request. request.plan) (request_at key self.now) ≡ Some result }
    {
        self.live.get(key).plan
    }

    /// The number of a live request.
    pub fn number(&self, key: Key) -> u64
        requires { IsSome (request_at key self.now) }
        ensures { option_map (λ request. request.number) (request_at key self.now) ≡ Some result }
    {
        self.live.get(key).number
    }

    /// The client of a live request.
    pub fn client(&self, key: Key) -> u8
        requires { IsSome (request_at key self.now) }
        ensures { option_map (λ request. request.client) (request_at key self.now) ≡ Some result }
    {
        self.live.get(key).client
    }

    /// How many requests are accepted and not done.
    pub fn in_flight(&self) -> u16
        ensures count { result ≡ in_flight (table_of self.now) }
        ensures laws { IsSound self.now }
    {
        self.live.count_undone() as u16
    }

    /// The work that is left, as though no beat of an unanswered burst was performed or answered.
    pub fn work(&self) -> u64
        ensures { result ≡ work (table_of self.now) }
    {
        self.live.work()
    }

    /// The work of the bursts that aren't sent: to send each, to perform its beats, to answer it. A fresh atomic counts its
    /// write from the start.
    pub fn unsent_work(&self) -> u64
        ensures work { result ≡ unsent (table_of self.now) }
        ensures most { result ≤ 2 ^ 33 }
    {
        self.live.unsent_work()
    }

    /// How many requests hold back a live one.
    pub fn held_by(&self, key: Key) -> u8
        requires { IsSome (request_at key self.now) }
        ensures { IfSome (request_at key self.now) (λ request. result ≡ length (holders (table_of self.now).live request)) }
    {
        self.live.count_holders(key)
    }
}

//! The live requests, with what is kept of them by their places in the order of acceptance and by their slots, so that no question walks over them.
ghost use Rattle.std.specs.Prelude.{◌≡◌, ◌==◌, ◌<◌, ◌≤◌, ◌^◌, [], ◌∷◌, ◌++◌, Some, None, false, true, IfOk, IfSome, IsFalse, IsSome, IsSomeAnd, IsTrue, length, filter, position, sum_by};
ghost use Rattle.std.specs.List.{AllByRecursion, list_any};
ghost use Rattle.std.specs.Option.{option_or};
ghost use Rattle.bus_words.specs.Places.{change_first, without_first};
ghost use Rattle.flight_table.specs.Inside.{HasOneHolder, MayName, with_entries};
ghost use Rattle.flight_table.specs.LiveRequests.{finished, pieces_planned};
ghost use Rattle.flight_table.specs.Progress.{MayStep, ends, stepped};
ghost use Rattle.flight_table.specs.declared.live_request.Step.TheVariants.{Done};
ghost use Rattle.flight_table.specs.Order.{free_id, holds_back, holds_id, is_held, may_send};
ghost use Rattle.flight_table.specs.Tables.{change_entry, has_key, has_number, has_source, is_done_of, is_of, is_undone, key_in, request_in, requests_of};
ghost use Rattle.flight_table.specs.Laws.{HaveOwnKeys};
ghost use Rattle.flight_table.specs.Work.{unsent_work, work_of};

use crate::TableLimits;
use crate::clients::{Clients, OwnRequest};
use crate::ids::Ids;
use crate::live_request::{LiveRequest, Step};
use crate::marks::Marks;
use crate::rows::Rows;
use crate::slots::{Key, ROOM, Slots};
use crate::spans::{Span, join, lower_counts};
use crate::sums::Sums;
use std::alloc::{AllocError, Global};
use std::marker::Model;

/// The live requests by rising number. By its place in this order is kept of each: whether a burst of it is open, that is,
/// planned, unsent and within the depth; whether it holds an ID besides; and whether nobody holds it back. By slot is kept of
/// each how many hold it back, what tells whom it conflicts with, and the set of those that it holds back, as bits at their
/// slots; by AXI page, which lie in it; and by client, which live requests it has.
///
/// The ranges, the largest part of it, lie in a block of their own, so that a table moves cheaply from call to call while it is made.
#[derive(Drop)]
pub(crate) struct Live {
    pub(crate) limits: TableLimits,
    slots: Slots,
    clients: Clients,
    ids: Ids,
    sums: Sums,
    able: Marks,
    named: Marks,
    unheld: Marks,
    holders: [u8; 64],
    held: [u64; 64],
    spans: Vec<Span>,
    rows: Rows,
}

impl Model for Live {
    ghost use Rattle.std.specs.Prelude.{◌≡◌};
    ghost use Rattle.flight_table.specs.Clients.{AreOwned};
    ghost use Rattle.flight_table.specs.Inside.{IsKept, LiveEntries, holders_of_ids};
    ghost use Rattle.flight_table.specs.Conflicts.{AreInSlots};
    ghost use Rattle.flight_table.specs.Sums.{IsSummed};
    ghost use Rattle.flight_table.specs.Tables.{requests_of};

    ghost Value = { LiveEntries };

    ghost view = { λ l. record { limits = l.limits; entries = l.slots } };

    ghost invariant = { λ l. IsKept l.limits.depth (requests_of l.slots) l.able l.named l.unheld × AreInSlots l.slots l.holders l.held l.spans.items l.rows × (l.ids ≡ holders_of_ids l.limits.ids l.slots) × IsSummed (requests_of l.slots) l.sums × AreOwned 8 l.slots l.clients };
}

impl Live {
    /// No live requests, with room for 64.
    pub(crate) fn new(alloc: Global, limits: TableLimits) -> Result<Self, AllocError>
        requires { limits.ids ≤ 16 }
        ensures { IfOk result (λ live. live ≡ record { limits = limits; entries = [] }) }
    {
        let slots = Slots::new(alloc)?;
        let clients = Clients::new(alloc)?;
        let ids = Ids::new(alloc, limits.ids)?;
        let rows = Rows::new(alloc)?;
        let none = Span {
            start: 0,
            end: 0,
            get: true,
        };
        let spans = vec![in alloc; none; 64]?;
        Ok(Live {
            limits,
            slots,
            clients,
            ids,
            sums: Sums::new(),
            able: Marks::new(),
            named: Marks::new(),
            unheld: Marks::new(),
            holders: [0; 64],
            held: [0; 64],
            spans,
            rows,
        })
    }

    /// Adds the latest request, and answers its key.
    pub(crate) fn add(&mut self, request: LiveRequest) -> Key
        requires room { length self.old.entries < 64 }
        requires client { request.client < 8 }
        requires quota { length (filter (is_of request.client) (requests_of self.old.entries)) < 8 }
        requires no_id { request.id ≡ None }
        requires sends { request.done ≡ true → request.plan ≡ None }
        requires latest { AllByRecursion (λ earlier. earlier.number < request.number) (requests_of self.old.entries) }
        ensures table { self.new ≡ with_entries (self.old.entries ++ record { key = result; request = request } ∷ []) self.old }
        ensures fresh { request_in result self.old.entries ≡ None }
        ensures keys { HaveOwnKeys self.new.entries }
    {
        let able = request.is_open(self.limits.depth);
        let page = request.page();
        let span = request.span();
        let row = self.rows.row(page);
        self.able.push(able);
        self.named.push(request.is_named(able));
        self.sums = self.sums.with(&request);
        let key = self.slots.add(request);
        let slot = key.slot();
        let holders = join(self.spans.as_slice(), &span, row, &mut self.held, slot);
        self.rows.add(page, slot);
        self.unheld.push(holders == 0);
        self.holders[slot] = holders;
        self.held[slot] = 0;
        self.spans[slot] = span;
        let own = OwnRequest {
            key,
            source: request.source,
            done: request.done,
        };
        self.clients.add(request.client, own);
        key
    }

    /// The request of a key, where it lies.
    pub(crate) fn get(&self, key: Key) -> &LiveRequest
        requires { IsSome (request_in key self.now.entries) }
        ensures request { request_in key self.now.entries ≡ Some result.now }
        ensures keys { HaveOwnKeys self.now.entries }
    {
        self.slots.get(key)
    }

    /// The request of a key takes a step by which it isn't done. It is inline as the step is.
    #[inline(always)]
    pub(crate) fn take(&mut self, key: Key, step: Step)
        requires step { IsSomeAnd (request_in key self.old.entries) (MayStep step) }
        requires goes_on { IsFalse (ends step) }
        requires id { IsSomeAnd (request_in key self.old.entries) (λ old. MayName self.old.limits.ids (requests_of self.old.entries) old.id (stepped step old).id) }
        ensures table { self.new ≡ with_entries (change_first (has_key key) (change_entry (stepped step)) self.old.entries) self.old }
        ensures keys { HaveOwnKeys self.new.entries }
    {
        let place = self.slots.place_of(key);
        let old = self.slots.get(key);
        let id = old.id;
        let worth = old.worth(step);
        self.slots.take(key, step);
        let request = self.slots.get(key);
        let able = request.is_open(self.limits.depth);
        self.able.put(place, able);
        self.named.put(place, request.is_named(able));
        self.ids.rename(key, id, request.id);
        self.sums = self.sums.less(worth);
    }

    /// The request of a key is done from here on, holds back none, and holds no ID.
    pub(crate) fn finish(&mut self, key: Key)
        requires step { IsSomeAnd (request_in key self.old.entries) (MayStep Done) }
        requires free { IsSomeAnd (request_in key self.old.entries) (λ old. old.done ≡ false → 1 ≤ length (pieces_planned old.plan) → is_held (requests_of self.old.entries) old ≡ false) }
        requires id { IsSomeAnd (request_in key self.old.entries) (λ old. IfSome old.id (HasOneHolder self.old.limits.ids (requests_of self.old.entries))) }
        ensures table { self.new ≡ with_entries (change_first (has_key key) (change_entry finished) self.old.entries) self.old }
        ensures keys { HaveOwnKeys self.new.entries }
    {
        let place = self.slots.place_of(key);
        let request = self.slots.get(key);
        let client = request.client;
        let id = request.id;
        let worth = request.worth(Step::Done);
        let slot = key.slot();
        self.rows.remove(request.open_page(), slot);
        let held = Marks::of(self.held[slot], ROOM);
        lower_counts(&self.slots, held, &mut self.holders, &mut self.unheld);
        self.held[key.slot()] = 0;
        self.slots.take(key, Step::Done);
        self.able.put(place, false);
        self.named.put(place, false);
        self.ids.rename(key, id, None);
        self.sums = self.sums.less(worth);
        self.clients.finish(client, key);
    }

    /// Takes the request of a key out, which is done.
    pub(crate) fn remove(&mut self, key: Key)
        requires done { IsSomeAnd (request_in key self.old.entries) (λ request. IsTrue request.done) }
        requires no_id { IsSomeAnd (request_in key self.old.entries) (λ request. request.id ≡ None) }
        ensures table { self.new ≡ with_entries (without_first (has_key key) self.old.entries) self.old }
        ensures keys { HaveOwnKeys self.new.entries }
    {
        let place = self.slots.place_of(key);
        let client = self.slots.get(key).client;
        self.able.remove(place);
        self.named.remove(place);
        self.unheld.remove(place);
        self.slots.remove(key);
        self.clients.remove(client, key);
    }

    /// How many live requests a client has.
    pub(crate) fn count_of(&self, client: u8) -> usize
        ensures { result ≡ length (filter (is_of client) (requests_of self.now.entries)) }
    {
        self.clients.count(client)
    }

    /// How many live requests aren't done.
    pub(crate) fn count_undone(&self) -> u64
        ensures count { result ≡ length (filter is_undone (requests_of self.now.entries)) }
        ensures bound { result ≤ 64 }
    {
        self.sums.undone
    }

    /// How many live requests hold back that of a key.
    pub(crate) fn count_holders(&self, key: Key) -> u8
        requires { IsSome (request_in key self.now.entries) }
        ensures { IfSome (request_in key self.now.entries) (λ request. result ≡ length (filter (holds_back request) (requests_of self.now.entries))) }
    {
        self.holders[key.slot()]
    }

    /// Whether a live request of a client has this source.
    pub(crate) fn has_source(&self, client: u8, source: u8) -> bool
        ensures { result ≡ list_any (has_source client source) (requests_of self.now.entries) }
    {
        self.clients.has_source(client, source)
    }

    /// The ID of a request's next burst: its own, or the smallest that nobody holds.
    pub(crate) fn id_for(&self, request: &LiveRequest) -> Option<u8>
        ensures { result ≡ option_or request.now.id (free_id self.now.limits.ids (requests_of self.now.entries)) }
    {
        match request.id {
            Some(id) => Some(id),
            None => self.ids.first_free(),
        }
    }

    /// The key of the request with this number.
    pub(crate) fn of_number(&self, number: u64) -> Option<Key>
        ensures key { result ≡ key_in (has_number number) self.now.entries }
        ensures keys { HaveOwnKeys self.now.entries }
    {
        self.slots.of_number(number)
    }

    /// The key of the request that holds this ID.
    pub(crate) fn of_id(&self, id: u8) -> Option<Key>
        ensures key { id < self.now.limits.ids → result ≡ key_in (holds_id id) self.now.entries }
        ensures beyond { self.now.limits.ids ≤ id → result ≡ None }
    {
        self.ids.holder(id)
    }

    /// The key of a client's first request that is done.
    pub(crate) fn oldest_done(&self, client: u8) -> Option<Key>
        ensures { result ≡ key_in (is_done_of client) self.now.entries }
    {
        self.clients.first_done(client)
    }

    /// The place of the first request that may send its next burst.
    fn place_ready(&self) -> Option<usize>
        ensures { result ≡ position (may_send self.now.limits (requests_of self.now.entries)) (requests_of self.now.entries) }
    {
        if self.ids.has_free() {
            return self.able.first_common(&self.unheld);
        }
        self.named.first_common(&self.unheld)
    }

    /// The key of the first request that may send its next burst.
    pub(crate) fn first_ready(&self) -> Option<Key>
        ensures key { result ≡ key_in (may_send self.now.limits (requests_of self.now.entries)) self.now.entries }
        ensures keys { HaveOwnKeys self.now.entries }
    {
        self.slots.key_at(self.place_ready())
    }

    /// The work of all requests that aren't done.
    pub(crate) fn work(&self) -> u64
        ensures { result ≡ sum_by work_of (requests_of self.now.entries) }
    {
        self.sums.work
    }

    /// The work of the unsent bursts of all requests.
    pub(crate) fn unsent_work(&self) -> u64
        ensures work { result ≡ sum_by unsent_work (requests_of self.now.entries) }
        ensures most { result ≤ 2 ^ 33 }
    {
        self.sums.unsent
    }
}

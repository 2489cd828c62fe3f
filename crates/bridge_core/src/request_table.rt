//! The live requests of the bridge.
ghost use Rattle.std.specs.Prelude.{◌≡◌, ◌+◌, ◌<◌, ◌≤◌, ◌^◌, ◌%◌, true, false, find, IfOk, IfSome, IsSome, IsSomeAnd, IsTrue, None, Some, is_some, option_map};
ghost use Rattle.std.specs.List.{AllByRecursion};
ghost use Rattle.std.specs.Vec.{vec_capacity, vec_len};
ghost use Rattle.tl_messages.specs.Requests.{request_of};
ghost use Rattle.tl_checker.specs.Ports.{opening_port};
ghost use Rattle.burst_plan.specs.PageMap.{IsPageMap};
ghost use Rattle.flight_table.specs.Tables.{change_key, has_room, is_busy, request_at, table_of, without_key};
ghost use Rattle.flight_table.specs.Order.{holds_id};
ghost use Rattle.flight_table.specs.Laws.{IsSound};
ghost use Rattle.responses.specs.Gathered.{gathered, outline_of};
ghost use Rattle.responses.specs.RightReplies.{ShowsReply};
ghost use Rattle.responses.specs.Shown.{shown};
ghost use Rattle.axi_beats.specs.Transfers.{IsBusWidth};
ghost use Rattle.bridge_core.specs.Bridge.{opening_requests};
ghost use Rattle.config.specs.Configs.{is_valid, port_of};
ghost use Rattle.bridge_core.specs.Inside.{AwaitsAnswer, AwaitsBeat, IsFirstAt, IsUndone, answered_flight, settled_flight};
ghost use Rattle.bridge_core.specs.Laws.{IsSoundRequestTable};
ghost use Rattle.bridge_core.specs.HeldRequests.{oldest_done, flight_table_of, holder, may_send, outline_in, range_of, reply_beats, with_read, with_request, with_response, with_sent_burst, without_done};
ghost use Rattle.bridge_core.specs.Sending.{next_sending};

use crate::Config;
use crate::bursts::set_read;
use crate::held::Held;
use axi_beats::{BBeat, BurstBox, RBeat, Resp};
use burst_plan::{PageMap, Plan};
use flight_table::{Flight, Key};
use std::alloc::{AllocError, Global};
use std::marker::Model;
use tl_checker::Port;
use tl_messages::{ReplyBox, Request};

/// How many requests can be live at once.
const ROOM: usize = 64;

/// The live requests: their places in the order of bursts, and in the slot of each one's key what it asks and was told. The
/// slots of the other keys are room for more.
#[derive(Drop)]
pub(crate) struct RequestTable {
    config: Config,
    map: PageMap,
    flight: Flight,
    held: Vec<Held>,
}

impl Model for RequestTable {
    ghost use Rattle.bridge_core.specs.Inside.{IsKept, kept_table, shown_table};
    ghost use Rattle.bridge_core.specs.Laws.{IsSoundRequestTable};
    ghost use Rattle.bridge_core.specs.HeldRequests.{RequestTable};

    ghost Value = { RequestTable };

    ghost view = { λ t. shown_table (kept_table t.config t.map t.flight t.held.items) };

    ghost invariant = { λ t. IsSoundRequestTable (shown_table (kept_table t.config t.map t.flight t.held.items)) × IsKept (kept_table t.config t.map t.flight t.held.items) };
}

impl RequestTable {
    /// No live requests, none accepted, with the room for 64.
    pub(crate) fn new(alloc: Global, config: Config, map: PageMap) -> Result<Self, AllocError>
        requires config { is_valid config ≡ true }
        ensures { IfOk result (λ table. table ≡ opening_requests config map) }
    {
        let flight = Flight::new(
            alloc,
            config.clients,
            config.quota,
            config.ids,
            config.depth,
        )?;
        let held = room_for_all(alloc, config.axi_bytes)?;
        Ok(RequestTable {
            config,
            map,
            flight,
            held,
        })
    }

    /// The limits.
    pub(crate) fn config(&self) -> &Config
        ensures { result.now ≡ self.now.config }
    {
        &self.config
    }

    /// The places of the live requests in the order of bursts.
    pub(crate) fn flight(&self) -> &Flight
        ensures table { table_of result.now ≡ flight_table_of self.now }
        ensures laws { IsSoundRequestTable self.now }
    {
        &self.flight
    }

    /// Accepts the request that stands whole on a client's port, and answers its number. No byte of it is copied.
    pub(crate) fn accept(&mut self, port: &mut Port) -> u64
        requires whole { IsSome port.old.whole }
        requires client { port.old.limits.client < self.old.config.clients }
        requires limits { port.old.limits ≡ port_of self.old.config port.old.limits.client }
        requires room { has_room (flight_table_of self.old) port.old.limits.client ≡ true }
        requires source { IfSome port.old.whole (λ message. is_busy (flight_table_of self.old) port.old.limits.client message.source ≡ false) }
        requires number { self.old.accepted < 2 ^ 48 }
        ensures number { result ≡ self.old.accepted }
        ensures table { IfSome port.old.whole (λ message. self.new ≡ with_request message self.old) }
        ensures port { port.new ≡ opening_port port.old.limits }
        ensures laws { IsSoundRequestTable self.new }
    {
        let request = port.whole().unwrap();
        let range = range_of(&self.config, &self.map, request);
        let (number, key) = self.flight.accept_keyed(request.client(), request, range);
        self.held[key.slot()].begin(port, range.is_none());
        number
    }

    /// Puts the next burst of the ready request of the smallest number into a box from stock; none, and nothing changed,
    /// where no request is ready.
    pub(crate) fn send(&mut self, stock: &mut Vec<BurstBox>) -> Option<BurstBox>
        requires { IsSome (find (may_send self.old) self.old.live) → 0 < vec_len stock.old }
        ensures burst { result ≡ option_map (λ sending. Some sending.burst) (next_sending self.old) }
        ensures table { IfSome (next_sending self.old) (λ sending. self.new ≡ with_sent_burst sending.request.flight.number sending.id self.old) }
        ensures stock { IsSome result → vec_len stock.old ≡ vec_len stock.new + 1 }
        ensures capacity { vec_capacity stock.old ≤ vec_capacity stock.new }
        ensures kept { result ≡ None → (self.new ≡ self.old) × (stock.new ≡ stock.old) }
        ensures laws { IsSoundRequestTable self.new }
    {
        let key = self.flight.next_ready()?;
        let slot = key.slot();
        let mut burst = stock.pop().unwrap();
        let piece = self.flight.next_piece(key);
        let is_write = self.flight.next_is_write(key);
        let plan = self.flight.plan(key).unwrap();
        let id = self.flight.sent(key);
        if is_write {
            self.held[slot].fill(&mut burst, id, &plan, piece);
        } else {
            set_read(&mut burst, id, piece);
        }
        Some(burst)
    }

    /// Takes the response to the first unanswered write of the request that holds its ID.
    pub(crate) fn on_b(&mut self, beat: &BBeat)
        requires { IsSomeAnd (holder beat.now.id self.old.live) (AwaitsAnswer true) }
        ensures table { self.new ≡ with_response beat.now.id beat.now.resp self.old }
        ensures laws { IsSoundRequestTable self.new }
    {
        let key = serving(&self.flight, beat.id);
        let held = &mut self.held[key.slot()];
        held.on_b(beat.resp);
        let found = held.old_value().is_some();
        answer(&mut self.flight, key, found);
    }

    /// Takes the next beat of the first unanswered read of the request that holds its ID.
    pub(crate) fn on_r(&mut self, beat: &RBeat)
        requires { IsSomeAnd (holder beat.now.id self.old.live) (AwaitsBeat self.old.config.axi_bytes beat.now) }
        ensures table { self.new ≡ with_read beat.now self.old }
        ensures laws { IsSoundRequestTable self.new }
    {
        let key = serving(&self.flight, beat.id);
        let held = &mut self.held[key.slot()];
        held.on_r(beat);
        if beat.last {
            let found = held.old_value().is_some();
            answer(&mut self.flight, key, found);
        }
    }

    /// Takes out the first live request of a client that is done: its reply's beats are put into a box, and its number is
    /// answered.
    pub(crate) fn take(&mut self, client: u8, reply: &mut ReplyBox) -> Option<u64>
        ensures number { result ≡ option_map (λ request. request.flight.number) (oldest_done self.old.live client) }
        ensures shown { IfSome (oldest_done self.old.live client) (λ request. reply.new ≡ reply_beats request) }
        ensures right { IfSome (oldest_done self.old.live client) (λ request. ShowsReply (request_of request.message) (gathered (outline_in request) request.gathering) reply.new) }
        ensures table { IsSome result → self.new ≡ without_done client self.old }
        ensures kept { result ≡ None → (self.new ≡ self.old) × (reply.new ≡ reply.old) }
        ensures laws { IsSoundRequestTable self.new }
    {
        let key = self.flight.oldest_done(client)?;
        let held = &self.held[key.slot()];
        Some(hand_out(&mut self.flight, held, key, reply))
    }
}

/// The room for 64 live requests.
fn room_for_all(alloc: Global, bus_bytes: u8) -> Result<Vec<Held>, AllocError>
    requires { IsBusWidth bus_bytes }
    ensures { IfOk result (λ held. (vec_len held ≡ 64) × AllByRecursion (λ h. h.bus_bytes ≡ bus_bytes) held.items) }
{
    let mut held = Vec::with_capacity(alloc, ROOM)?;
    for _ in 0..ROOM {
        held.push_reserved(Held::new(alloc, bus_bytes)?);
    }
    Ok(held)
}

/// The range on the AXI side of a request that its port took, with the way it is cut into bursts; none where it is corrupt
/// or its region doesn't permit it.
fn range_of(config: &Config, map: &PageMap, request: &Request) -> Option<Plan>
    requires config { is_valid config.now ≡ true }
    requires aligned { request.now.address % 2 ^ request.now.size ≡ 0 }
    ensures range { result ≡ range_of config.now map.now (request_of request.now) }
    ensures map { IsPageMap map.now }
{
    let address = map.translate(request.operation(), request.address());
    if request.corrupt() {
        return None;
    }
    let address = address?;
    Some(Plan::new_of(address, request.size(), config.max_len, config.axi_bytes))
}

/// Where all that is planned was answered, an atomic that found its old value plans its write, and every other request is
/// done.
fn settle(flight: &mut Flight, key: Key, found: bool)
    requires live { IsSomeAnd (request_at key flight.old) (IsUndone found) }
    requires laws { IsSound flight.old }
    ensures laws { IsSound flight.new }
    ensures state { flight.new ≡ change_key key (settled_flight found) flight.old }
{
    if !flight.is_settled(key) {
        return;
    }
    if flight.awaits_write(key) && found {
        flight.plan_write(key);
        return;
    }
    flight.finished(key);
}

/// Counts a whole answer to the burst of a request that was sent first of those that are unanswered.
fn answer(flight: &mut Flight, key: Key, found: bool)
    requires live { IsSomeAnd (request_at key flight.old) (IsUndone found) }
    requires unanswered { IsSomeAnd (request_at key flight.old) (λ request. request.answered < request.sent) }
    ensures state { flight.new ≡ change_key key (answered_flight found) flight.old }
    ensures laws { IsSound flight.new }
{
    flight.answered(key);
    settle(flight, key, found);
}

/// Takes a request that is done out: its reply's beats are put into a box, and its number is answered. It is apart, so that where
/// none is done nothing of it stands in the way.
#[inline(never)]
fn hand_out(flight: &mut Flight, held: &Held, key: Key, reply: &mut ReplyBox) -> u64
    requires { IsSomeAnd (request_at key flight.old) (λ request. IsTrue request.done) }
    ensures number { option_map (λ request. request.number) (request_at key flight.old) ≡ Some result }
    ensures shown { reply.new ≡ shown (request_of held.now.message) (gathered (outline_of (request_of held.now.message)) held.now.gathering) }
    ensures right { ShowsReply (request_of held.now.message) (gathered (outline_of (request_of held.now.message)) held.now.gathering) reply.new }
    ensures state { flight.new ≡ without_key key flight.old }
    ensures laws { IsSound flight.new }
{
    held.reply_into(reply);
    flight.release(key)
}

/// The key of the live request that holds an ID.
fn serving(flight: &Flight, id: u8) -> Key
    requires { IsSome (find (λ entry. holds_id id entry.request) flight.now.entries) }
    ensures { IsFirstAt (holds_id id) flight.now result }
{
    flight.of_id(id).unwrap()
}

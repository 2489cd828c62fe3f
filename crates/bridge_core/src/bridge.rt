//! The bridge.
ghost use Rattle.std.specs.Prelude.{◌≡◌, ◌↔◌, ◌+◌, ◌-◌, ◌*◌, ◌^◌, ◌<◌, ◌≤◌, true, false, None, Some, Ok, Err, IfOk, IfSome, IsErr, IsOk, IsSome, MatchOption, is_some, option_map};
ghost use Rattle.std.specs.Vec.{vec_capacity, vec_len};
ghost use Rattle.axi_beats.specs.Bursts.{IsLegal};
ghost use Rattle.responses.specs.Gathered.{gathered};
ghost use Rattle.responses.specs.RightReplies.{ShowsReply};
ghost use Rattle.tl_messages.specs.Requests.{request_of};
ghost use Rattle.bridge_core.specs.Inside.{held_back, no_place};

use crate::ports::{accept, judge, opening_ports, take_told};
use crate::request_table::RequestTable;
use crate::{BridgeFault, Config, Offered, Taken};
use axi_beats::{BBeat, BurstBox, RBeat};
use axi_checker::{AxiRule, Monitor};
use burst_plan::PageMap;
use std::alloc::{AllocError, Global};
use std::marker::Model;
use tl_checker::{Port, Progress, TlRule};
use tl_messages::{ABeat, ReplyBox};

/// A bridge from TileLink clients to one AXI4 memory port (TileLink 1.8; AXI4; this project's profile). Its clients'
/// beats come in by `offer`, bursts for the memory go out by `pump_box`, the memory's answers come in by `on_b` and
/// `on_r`, and replies go out by `take`. All room is taken by `new`; no other call takes memory.
pub struct Bridge {
    ports: Vec<Port>,
    requests: RequestTable,
    monitor: Monitor,
    stock: Vec<BurstBox>,
}

impl Model for Bridge {
    ghost use Rattle.std.specs.Prelude.{◌≡◌, ◌≤◌};
    ghost use Rattle.std.specs.Vec.{vec_capacity, vec_len};
    ghost use Rattle.bridge_core.specs.Bridge.{StockedBridge, boxes_of};
    ghost use Rattle.config.specs.Configs.{axi_port_of};
    ghost use Rattle.bridge_core.specs.Inside.{ArePorts, bridge_kept};
    ghost use Rattle.bridge_core.specs.Laws.{IsSoundBridge};

    ghost Value = { StockedBridge };

    ghost view = { λ b. bridge_kept b.ports.items b.requests b.monitor.open_bursts (vec_len b.stock) };

    ghost invariant = { λ b. IsSoundBridge (bridge_kept b.ports.items b.requests b.monitor.open_bursts (vec_len b.stock)).state
        × ArePorts b.requests.config b.ports.items
        × (b.monitor.port ≡ axi_port_of b.requests.config)
        × (vec_len b.stock ≤ boxes_of b.requests.config)
        × (boxes_of b.requests.config ≤ vec_capacity b.stock) };
}

// Written out, so that what lets go of one calls this, and proves nothing of its parts.
impl Drop for Bridge {
    fn drop(self) {
        let Bridge {
            ports: _,
            requests: _,
            monitor: _,
            stock: _,
        } = self;
    }
}

impl Bridge {
    ghost use Rattle.axi_checker.specs.Rules.{burst_fault};
    ghost use Rattle.flight_table.specs.Order.{IsSmallestDone, next_ready};
    ghost use Rattle.flight_table.specs.Work as flight_work;
    ghost use Rattle.bridge_core.specs.Bridge.{after_b_beat, after_pump, after_r_beat, after_take, b_fault, boxes_of, burst_to_send, in_flight, offered, opening_bridge, r_fault, refuses_beat, reply_taken, taken, work_left};
    ghost use Rattle.config.specs.Configs.{axi_port_of, is_valid};
    ghost use Rattle.bridge_core.specs.Laws.{IsSoundBridge};
    ghost use Rattle.bridge_core.specs.HeldRequests.{oldest_done, flight_table_of, outline_in, reply_beats};
    ghost use Rattle.bridge_core.specs.Sending.{SendsSmallest, next_sending};

    /// A bridge with these limits and this page map, on which no beat has come, with a box for each burst that may be
    /// outstanding on a side of the memory's port.
    ///
    /// Limits that aren't in their ranges are refused as `BadConfig`; else the one error is that memory was refused.
    pub fn new(alloc: Global, config: Config, map: PageMap) -> Result<Self, BridgeFault>
        ensures bad { is_valid config ≡ false → result ≡ Err BridgeFault.BadConfig }
        ensures ok { IfOk result (λ bridge. bridge ≡ opening_bridge config map) }
        ensures valid { IsOk result → is_valid config ≡ true }
        ensures err { is_valid config ≡ true → IsErr result → result ≡ Err BridgeFault.NoMemory }
        ensures laws { IfOk result (λ bridge. IsSoundBridge bridge.state) }
    {
        if !config.is_valid() {
            return Err(BridgeFault::BadConfig);
        }
        match Bridge::opening(alloc, config, map) {
            Ok(bridge) => Ok(bridge),
            Err(_) => Err(BridgeFault::NoMemory),
        }
    }

    fn opening(alloc: Global, config: Config, map: PageMap) -> Result<Self, AllocError>
        requires { is_valid config ≡ true }
        ensures state { IfOk result (λ bridge. bridge ≡ opening_bridge config map) }
        ensures laws { IfOk result (λ bridge. IsSoundBridge bridge.state) }
    {
        let ports = opening_ports(alloc, &config)?;
        let monitor = Monitor::new(alloc, config.ids, config.depth, config.axi_bytes)?;
        let stock = full_stock(alloc, usize::from(config.ids) * usize::from(config.depth))?;
        let requests = RequestTable::new(alloc, config, map)?;
        Ok(Bridge {
            ports,
            requests,
            monitor,
            stock,
        })
    }

    /// Offers a client's beat. It is refused, tested in this order, where there is no such client, where it breaks a rule on the
    /// client's port, where it would complete a request while the client has as many live requests as it may have, and where it
    /// would complete a request after 2^48 were accepted. A refused beat changes nothing. Else the request that it completes is
    /// accepted, or more beats are to come.
    pub fn offer(&mut self, client: u8, beat: &ABeat) -> Offered
        ensures answer { result ≡ (offered self.old.state client beat.now).1 }
        ensures state { self.new ≡ record self.old { state = (offered self.old.state client beat.now).0 } }
        ensures kept { refuses_beat result ≡ true → self.new ≡ self.old }
        ensures laws { IsSoundBridge self.new.state }
    {
        if client >= self.requests.config().clients {
            return Offered::NoClient;
        }
        let busy = self.requests.flight().busy(client, beat.source);
        let told = judge(&self.ports, client, beat, busy);
        if let Some(answer) = held_back(&self.requests, client, told) {
            return answer;
        }
        take_told(&mut self.ports, client, beat, busy, told);
        let progress = match told {
            Err(rule) => return Offered::Refused(rule),
            Ok(progress) => progress,
        };
        match progress {
            Progress::More => Offered::More,
            Progress::Whole => {
                Offered::Accepted(accept(&mut self.ports, &mut self.requests, client))
            }
        }
    }

    /// Whether a request is ready to send its next burst.
    pub fn can_pump(&self) -> bool
        ensures burst { result ≡ is_some (burst_to_send self.now.state) }
        ensures ready { result ≡ is_some (next_ready (flight_table_of self.now.state.requests)) }
    {
        self.requests.flight().next_ready().is_some()
    }

    /// The next burst of the ready request of the smallest number, in a box from stock; none, and nothing changed, where
    /// no request is ready. A box stands in stock, or no request is ready.
    pub fn pump_box(&mut self) -> Option<BurstBox>
        requires { IsSome (burst_to_send self.old.state) → 0 < self.old.stock }
        ensures burst { result ≡ option_map Some (burst_to_send self.old.state) }
        ensures sent { IsSome result → self.new ≡ record { state = after_pump self.old.state; stock = self.old.stock - 1 } }
        ensures kept { result ≡ None → self.new ≡ self.old }

        // No burst goes exactly where no request is ready.
        ensures idle { (result ≡ None) ↔ (next_ready (flight_table_of self.old.state.requests) ≡ None) }

        // Of those that are ready it is the one of the smallest number that sends.
        ensures smallest { IfSome (next_sending self.old.state.requests)
            (λ sending. (result ≡ Some (Some sending.burst)) × SendsSmallest self.old.state.requests self.new.state.requests sending) }

        // It is legal, and breaks no rule on the memory's port.
        ensures legal { IfSome (burst_to_send self.old.state) (IsLegal self.old.state.requests.config.axi_bytes) }
        ensures unbroken { IfSome (burst_to_send self.old.state) (λ burst. burst_fault (axi_port_of self.old.state.requests.config) self.old.state.open_bursts burst ≡ None) }
        ensures laws { IsSoundBridge self.new.state }
    {
        let Some(burst) = self.requests.send(&mut self.stock) else {
            return None;
        };
        self.monitor.take_burst(&burst);
        Some(burst)
    }

    /// Puts a box back into stock; not all boxes stand there.
    pub fn give_back(&mut self, burst: BurstBox)
        requires { self.old.stock < boxes_of self.old.state.requests.config }
        ensures { self.new ≡ record self.old { stock = self.old.stock + 1 } }
    {
        self.stock.push_reserved(burst);
    }

    /// How many boxes stand in stock.
    pub fn stock(&self) -> u8
        ensures { result ≡ self.now.stock }
    {
        self.stock.len() as u8
    }

    /// Takes a B of the memory (AXI4, A3.4.4): it answers the oldest unanswered write of the live request that holds its
    /// ID. One that breaks a rule on the memory's port is refused with the first such rule, and changes nothing.
    pub fn on_b(&mut self, beat: &BBeat) -> Result<(), AxiRule>
        ensures answer { MatchOption (b_fault self.old.state beat.now) (result ≡ Ok tt) (λ rule. result ≡ Err rule) }
        ensures taken { IsOk result → self.new ≡ record self.old { state = after_b_beat self.old.state beat.now } }
        ensures kept { IsErr result → self.new ≡ self.old }
        ensures laws { IsSoundBridge self.new.state }
    {
        self.monitor.b(beat)?;
        self.requests.on_b(beat);
        Ok(())
    }

    /// Takes an R of the memory (AXI4, A3.4.4): it is the next beat of the oldest unanswered read of the live request that
    /// holds its ID. One that breaks a rule on the memory's port is refused with the first such rule, and changes nothing.
    pub fn on_r(&mut self, beat: &RBeat) -> Result<(), AxiRule>
        ensures answer { MatchOption (r_fault self.old.state beat.now) (result ≡ Ok tt) (λ rule. result ≡ Err rule) }
        ensures taken { IsOk result → self.new ≡ record self.old { state = after_r_beat self.old.state beat.now } }
        ensures kept { IsErr result → self.new ≡ self.old }
        ensures laws { IsSoundBridge self.new.state }
    {
        self.monitor.r(beat)?;
        self.requests.on_r(beat);
        Ok(())
    }

    /// Takes the reply of the smallest of a client's live numbers that are done: its beats replace what the box held, and
    /// its source is free again. Where there is no such client or none is done, nothing changes, nor does the box.
    pub fn take(&mut self, client: u8, reply: &mut ReplyBox) -> Taken
        ensures answer { result ≡ taken self.old.state client }

        // The number that is answered is that of a done request of the client, and no other such request has a smaller one.
        ensures smallest { IfSome (reply_taken self.old.state client)
            (λ request. (result ≡ Taken.Reply request.flight.number) × IsSmallestDone (flight_table_of self.old.state.requests) client request.flight) }
        ensures shown { IfSome (reply_taken self.old.state client) (λ request. reply.new ≡ reply_beats request) }
        ensures right { IfSome (reply_taken self.old.state client) (λ request. ShowsReply (request_of request.message) (gathered (outline_in request) request.gathering) reply.new) }
        ensures left { IsSome (reply_taken self.old.state client) → self.new ≡ record self.old { state = after_take self.old.state client } }
        ensures kept { reply_taken self.old.state client ≡ None → (self.new ≡ self.old) × (reply.new ≡ reply.old) }
        ensures laws { IsSoundBridge self.new.state }
    {
        if client >= self.requests.config().clients {
            return Taken::NoClient;
        }
        let Some(number) = self.requests.take(client, reply) else {
            return Taken::Nothing;
        };
        Taken::Reply(number)
    }

    /// Whether a live request of a client is done.
    pub fn first_done(&self, client: u8) -> bool
        ensures { result ≡ is_some (oldest_done self.now.state.requests.live client) }
    {
        self.requests.flight().first_done(client)
    }

    /// How many requests are accepted and not done.
    pub fn in_flight(&self) -> u16
        ensures { result ≡ in_flight self.now.state }
    {
        self.requests.flight().in_flight()
    }

    /// The work that is left, where each beat of an outstanding burst counts as unperformed until its R, or its burst's B,
    /// has come: bursts to send, beats to perform, answers to come. A fresh atomic counts its write from the start.
    pub fn work_left(&self) -> u64
        ensures { result ≡ work_left self.now.state }
    {
        self.requests.flight().work() - 2 * self.monitor.answered_reads()
    }

    /// The work of the bursts that aren't sent yet: to send each, to perform its beats, to answer it. A fresh atomic counts
    /// its write from the start.
    pub fn unsent_work(&self) -> u64
        ensures work { result ≡ flight_work.unsent (flight_table_of self.now.state.requests) }
        ensures most { result ≤ 2 ^ 33 }
    {
        self.requests.flight().unsent_work()
    }
}

/// Why a request of a client can't be accepted now, if it can't.
fn no_place(requests: &RequestTable, client: u8) -> Option<Offered>
    ensures { result ≡ no_place requests.now client }
{
    if !requests.flight().room(client) {
        return Some(Offered::NotReady);
    }
    if requests.flight().accepted() >= 1 << 48 {
        return Some(Offered::Exhausted);
    }
    None
}

/// Why a beat has to wait of which this was told: it breaks no rule, and would complete a request that can't be accepted now.
fn held_back(requests: &RequestTable, client: u8, told: Result<Progress, TlRule>) -> Option<Offered>
    ensures { result ≡ held_back requests.now client told }
{
    match told {
        Ok(Progress::Whole) => no_place(requests, client),
        _ => None,
    }
}

/// So many empty boxes, with the room for as many.
fn full_stock(alloc: Global, count: usize) -> Result<Vec<BurstBox>, AllocError>
    ensures { IfOk result (λ stock. (vec_len stock ≡ count) × (count ≤ vec_capacity stock)) }
{
    let mut stock = Vec::with_capacity(alloc, count)?;
    for _ in 0..count {
        stock.push(BurstBox::new(alloc)?)?;
    }
    Ok(stock)
}

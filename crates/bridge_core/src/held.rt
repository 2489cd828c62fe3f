//! What a live request asks, and what its answers have told so far.
ghost use Rattle.std.specs.Prelude.{◌≡◌, ◌<◌, IfOk, IfSome, IsSome};
ghost use Rattle.axi_beats.specs.Transfers.{IsBusWidth};
ghost use Rattle.tl_messages.specs.Requests.{request_of};
ghost use Rattle.tl_checker.specs.Ports.{opening_port};
ghost use Rattle.responses.specs.Gathered.{gathered, gathering_of, old_value, outline_of, reads_of};
ghost use Rattle.burst_plan.specs.PlannedBursts.{write_of};
ghost use Rattle.bridge_core.specs.Inside.{CanFill, beat_held, bytes_held, responded};
ghost use Rattle.responses.specs.RightReplies.{ShowsReply};
ghost use Rattle.responses.specs.Shown.{shown};

use crate::bursts::{set_number, set_put};
use axi_beats::{BurstBox, RBeat, Resp};
use burst_plan::{Piece, Plan};
use data_unit::atomic_number;
use responses::Gather;
use std::alloc::{AllocError, Global};
use std::marker::Model;
use tl_checker::Port;
use tl_messages::{Operation, ReplyBox, Request};

/// A live request's message, and what was gathered for its reply.
#[derive(Drop)]
pub(crate) struct Held {
    request: Request,
    gather: Gather,
}

impl Model for Held {
    ghost use Rattle.std.specs.Prelude.{◌≡◌};
    ghost use Rattle.tl_messages.specs.Requests.{request_of};
    ghost use Rattle.responses.specs.Gathered.{outline_of};
    ghost use Rattle.bridge_core.specs.Inside.{HeldRequest};

    ghost Value = { HeldRequest };

    ghost view = { λ h. record { message = h.request; bus_bytes = h.gather.bus_bytes; gathering = h.gather.gathering } };

    ghost invariant = { λ h. h.gather.outline ≡ outline_of (request_of h.request) };
}

impl Held {
    /// Nothing of interest, with the room for any request.
    pub(crate) fn new(alloc: Global, bus_bytes: u8) -> Result<Self, AllocError>
        requires { IsBusWidth bus_bytes }
        ensures { IfOk result (λ held. held.bus_bytes ≡ bus_bytes) }
    {
        let request = Request::new(alloc)?;
        let mut gather = Gather::new(alloc, bus_bytes)?;
        gather.start(&request, true);
        Ok(Held { request, gather })
    }

    /// Begins with the request that stands whole on a port, of which no answer has come; it is denied from the start where
    /// it sends no bursts because no answer could make it right. No byte of it is copied.
    pub(crate) fn begin(&mut self, port: &mut Port, denied: bool)
        requires { IsSome port.old.whole }
        ensures held { IfSome port.old.whole (λ message. self.new ≡ record {
          message = message;
          bus_bytes = self.old.bus_bytes;
          gathering = gathering_of (outline_of (request_of message)) denied;
        }) }
        ensures port { port.new ≡ opening_port port.old.limits }
    {
        port.take_whole(&mut self.request);
        self.gather.start(&self.request, denied);
    }

    /// Takes the response to one of its writes.
    pub(crate) fn on_b(&mut self, resp: Resp)
        ensures { self.new ≡ responded resp self.old }
    {
        self.gather.on_b(resp);
    }

    /// Takes the next beat of its read: its place is the number of those that came before.
    pub(crate) fn on_r(&mut self, beat: &RBeat)
        requires { self.old.gathering.came < reads_of self.old.bus_bytes (outline_of (request_of self.old.message)) }
        ensures { self.new ≡ beat_held beat.now self.old }
    {
        let place = self.gather.reads_that_came();
        self.gather.on_r(beat, place);
    }

    /// An atomic's old value, once its read was answered; none where that failed.
    pub(crate) fn old_value(&self) -> Option<u64>
        ensures value { result ≡ old_value (outline_of (request_of self.now.message)) self.now.gathering }
    {
        self.gather.old_value()
    }

    /// Puts a piece of its plan into a box, as a write of what it gives, or of an atomic's result.
    pub(crate) fn fill(&self, burst: &mut BurstBox, id: u8, plan: &Plan, piece: Piece)
        requires { CanFill self.now plan.now piece }
        ensures { burst.new ≡ Some (write_of plan.now.bus_bytes id (bytes_held self.now) plan.now.address piece) }
    {
        match self.request.operation() {
            Operation::Atomic(op) => {
                let old = self.old_value().unwrap_or(0);
                let number = atomic_number(op, &self.request, old);
                set_number(burst, id, plan, piece, number);
            }
            _ => set_put(burst, id, plan, piece, &self.request),
        }
    }

    /// Puts the reply's beats into a box.
    pub(crate) fn reply_into(&self, reply: &mut ReplyBox)
        ensures shown { reply.new ≡ shown (request_of self.now.message) (gathered (outline_of (request_of self.now.message)) self.now.gathering) }
        ensures right { ShowsReply (request_of self.now.message) (gathered (outline_of (request_of self.now.message)) self.now.gathering) reply.new }
    {
        self.gather.reply_into(reply);
    }
}

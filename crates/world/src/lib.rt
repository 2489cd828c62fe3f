//! Bridge and memory as one world, one event at a time.
#![tactic(auto)]

mod choices;
mod parts;
mod world;

use axi_beats::{BBeat, RBeat};
pub use setups::{Setup, SetupFault, setup_fault};
use tl_checker::TlRule;
use tl_messages::ABeat;
pub use world::World;

/// One event.
#[derive(Clone, Copy, Debug, PartialEq, Eq)]
pub enum Step {
    /// A client offers a beat.
    Offer(u8, ABeat),
    /// The bridge sends a burst.
    Pump,
    /// The memory performs a beat, from 0, of the burst with a serial.
    Perform(u64, u16),
    /// The memory gives the B that an ID may give.
    AnswerB(u8),
    /// The memory gives the R that an ID may give.
    AnswerR(u8),
    /// A client takes a reply.
    Take(u8),
}

/// What an event answers.
#[derive(Clone, Copy, Debug, PartialEq, Eq)]
pub enum Answer {
    /// Offer: beats of the request are still to come.
    More,
    /// Offer: the request is whole, and accepted with this number.
    Accepted(u64),
    /// Offer: the beat breaks no rule, but would complete a request while its client has as many live requests as it may
    /// have. It may be offered again.
    NotReady,
    /// Offer: all numbers are used up.
    Exhausted,
    /// Offer: the beat breaks this rule.
    Refused(TlRule),
    /// Offer, Take: there is no such client.
    NoClient,
    /// Pump: the burst was sent, and has this serial.
    Sent(u64),
    /// Pump: no burst is ready.
    Idle,
    /// Perform: the beat was performed.
    Done,
    /// Perform: there is no such beat.
    NoSuch,
    /// Perform: the beat was performed before.
    Already,
    /// AnswerB: this beat came.
    B(BBeat),
    /// AnswerR: this beat came.
    R(RBeat),
    /// AnswerB, AnswerR: no beat of this ID may be given now. Take: no request of this client is done.
    Nothing,
    /// Take: the reply to the request of this number was handed out.
    Reply(u64),
}

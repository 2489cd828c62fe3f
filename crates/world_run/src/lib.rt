//! A whole run of a world: a list of events and what they gave, and the main theorem about it; and the same order of a world
//! that is driven one step at a time.
#![tactic(auto)]

mod ordered;
mod runs;

use axi_beats::{ArBeat, AwBeat, WBeat};
pub use ordered::{opened, ordered_step};
pub use runs::{RunRecord, run};
pub use subordinate::PageKind;
pub use world::{Answer, Setup, SetupFault, Step, World, setup_fault};

/// One beat that Pump sent.
#[derive(Clone, Copy, Debug, PartialEq, Eq)]
pub enum SentBeat {
    /// On the write address channel.
    Aw(AwBeat),
    /// On the write data channel.
    W(WBeat),
    /// On the read address channel.
    Ar(ArBeat),
}

/// A reply that was handed out, as a piece of a run's list of D beats.
#[derive(Clone, Copy, Debug, PartialEq, Eq)]
pub struct Handed {
    /// The client that took it.
    pub client: u8,
    /// The request's number.
    pub number: u64,
    /// The place of its first beat.
    pub first: usize,
    /// How many beats it has.
    pub beats: u16,
}

//! A memory that performs the beats of outstanding bursts in any order, and answers them as AXI4's ordering allows.
#![tactic(auto)]

mod answers;
mod beats;
mod bursts;
mod device;
mod faults;
mod open_burst;
mod pages;
mod queues;

use axi_beats::{BurstBox, Resp};
use axi_checker::AxiRule;
pub use device::Device;
pub use faults::device_fault;
use thiserror::Error;

/// What a listed page is.
#[derive(Clone, Copy, Debug, Default, PartialEq, Eq)]
pub enum PageKind {
    /// Its bytes are kept; they start as zero.
    #[default]
    Good,
    /// Each beat on it is answered SLVERR, and changes nothing.
    SlaveError,
}

/// Why a list of pages and bad words is refused; the number is the place in its list, from 0.
#[derive(Clone, Copy, Debug, PartialEq, Eq, Error)]
pub enum DeviceFault {
    /// A page's number is over 1,048,575, so that its addresses have more than 32 bits.
    #[error("PageRange {0}")]
    PageRange(u32),
    /// A page stands in the list before.
    #[error("PageTwice {0}")]
    PageTwice(u32),
    /// A bad word's address is no multiple of 8, or in no good page.
    #[error("BadWord {0}")]
    BadWord(u32),
    /// Memory was refused.
    #[error("out of memory")]
    NoMemory,
}

/// What came of performing a beat.
#[derive(Clone, Copy, Debug, PartialEq, Eq)]
pub enum Performed {
    /// No open burst has that serial, or it has no such beat.
    NoSuch,
    /// The beat was performed before.
    Already,
    /// The beat is performed now.
    Done,
}

/// What became of a beat of an open burst.
#[derive(Clone, Copy, Debug, PartialEq, Eq)]
pub enum BeatState {
    /// It isn't performed.
    Waiting,
    /// A write's beat, performed.
    Written,
    /// A read's beat, performed: the payload and the response that it captured.
    Captured(u64, Resp),
}

/// A burst that was refused: the first rule that it breaks, and its box.
#[derive(Drop)]
pub struct SendRefused {
    /// The rule.
    pub rule: AxiRule,
    /// The box, as it was handed in.
    pub burst: BurstBox,
}

//! The table of live requests: which of them may send its next burst, under which ID, and which are done (this project's
//! profile). A request is live from its acceptance until its reply is taken.
//!
//! Requests that conflict, that is, whose ranges of AXI addresses share a byte while at least one isn't a Get, keep the
//! order of acceptance: none sends a burst before each earlier one is done.
#![tactic(auto)]

mod clients;
mod flight;
mod ids;
mod live;
mod live_request;
mod marks;
mod rows;
mod scans;
mod slots;
mod spans;
mod sums;

pub use flight::Flight;
pub use slots::Key;

/// How many clients there are, live requests of each, IDs, and unanswered bursts of a request, at most.
#[derive(Clone, Copy)]
pub(crate) struct TableLimits {
    pub(crate) clients: u8,
    pub(crate) quota: u8,
    pub(crate) ids: u8,
    pub(crate) depth: u8,
}

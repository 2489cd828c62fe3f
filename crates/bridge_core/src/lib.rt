//! The bridge: from the beats of TileLink clients to bursts on an AXI4 port, and from the memory's answers to replies (this
//! project's profile).
#![tactic(auto)]

mod bridge;
mod bursts;
mod held;
mod ports;
mod request_table;

pub use bridge::Bridge;
pub use config::Config;
use tl_checker::TlRule;

/// Why there is no bridge.
#[derive(Clone, Copy, Debug, PartialEq, Eq)]
pub enum BridgeFault {
    /// A limit of the configuration isn't in its range (`Config` has the ranges).
    BadConfig,
    /// Memory was refused.
    NoMemory,
}

/// What is said of a client's beat.
#[derive(Clone, Copy, Debug, PartialEq, Eq)]
pub enum Offered {
    /// There is no such client.
    NoClient,
    /// The beat breaks this rule.
    Refused(TlRule),
    /// The beat would complete a request, and the client has as many live requests as it may have.
    NotReady,
    /// The beat would complete a request, and 2^48 requests were accepted.
    Exhausted,
    /// The beat is taken, and more beats of its message are to come.
    More,
    /// The beat is taken, and its request is accepted under this number: 0, 1, 2, .. in the order of acceptance.
    Accepted(u64),
}

/// What is said to a client that asks for a reply.
#[derive(Clone, Copy, Debug, PartialEq, Eq)]
pub enum Taken {
    /// There is no such client.
    NoClient,
    /// None of the client's live requests is done.
    Nothing,
    /// The reply to the request of this number.
    Reply(u64),
}

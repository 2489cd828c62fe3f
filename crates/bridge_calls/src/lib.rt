//! The bridge's model behind a handle: it takes the words of calls one by one, and answers each call with the last of its words.
#![tactic(auto)]

mod answers;
mod bridge;
mod handle;
mod kinds;
mod session;
mod set_up;

pub use handle::BridgeHandle;

//! The reply to a request, gathered from the memory's answers: B of writes and R of reads go in, and the beats on
//! channel D come out.
#![tactic(auto)]

mod gather;

pub use gather::Gather;

//! What an observer at the ports sees of a run of this project's bridge and memory.
#![tactic(auto)]

mod runs;

pub use runs::observed;

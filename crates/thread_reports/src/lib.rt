//! What a threaded run reports, and the replay of its steps by which a report is given or refused.
#![tactic(auto)]

mod answers;
mod receipts;
mod replay;
mod report;
mod second_world;

pub use answers::{leaves_all, named_place};
pub use receipts::Receipts;
pub use report::Report;
pub use second_world::{Mismatch, SecondWorld};

//! The world in several threads, under one lock: a thread for each client, and one to four for bridge and memory.
#![tactic(auto)]

mod clients;
mod gates;
mod limits;
mod ports;
mod shared;
mod threads;
mod turns;
mod workers;

pub use gates::{Gate, Who};
pub use shared::{HistoryFull, Shared};
pub use thread_reports::{Receipts, Report};
pub use threads::{Fault, Limits, run_threads};

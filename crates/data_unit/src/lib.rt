//! Words and masks by their bytes, and the results of atomics (TileLink 1.8, byte lanes and byte masks, ArithmeticData
//! and LogicalData).
#![tactic(auto)]

mod atomics;
mod words;

pub use atomics::{apply, atomic_number};
pub use words::{cut, full_mask, merge, place};

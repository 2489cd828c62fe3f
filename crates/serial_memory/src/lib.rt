//! A memory behind a page map, on which requests are carried out whole, one at a time.
#![tactic(auto)]

mod carrying;
mod filling;
mod memory;

pub use memory::SerialMemory;
use thiserror::Error;

/// Why a memory isn't filled with bytes.
#[derive(Clone, Copy, Debug, PartialEq, Eq, Error)]
pub enum FillFault {
    /// One of them is of no good page.
    #[error("a byte on no good page")]
    Place,
    /// Memory was refused.
    #[error("out of memory")]
    NoMemory,
}

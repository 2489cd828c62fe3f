//! A memory of up to 4 GB whose pages are listed as ranges, and take room only once they are asked for. Beside each byte it
//! keeps whether it is in doubt.
#![tactic(auto)]

mod memory;
mod page;
mod ranges;

pub use memory::SparseMemory;
pub use ranges::{is_good_page, memory_fault};

/// What the pages of a range are.
#[derive(Clone, Copy, Debug, Default, PartialEq, Eq)]
pub enum RangeKind {
    /// Their bytes are kept, and start as zero.
    #[default]
    Zeros,
    /// Their bytes are kept, but nobody knows what they are at first: all of them are in doubt.
    Unknown,
    /// Each beat on them is answered SLVERR, and changes nothing.
    SlaveError,
}

/// Pages of 4,096 bytes (AXI4, A3.4.1: no burst crosses their boundaries) that follow each other.
#[derive(Clone, Copy, Debug, Default, PartialEq, Eq)]
pub struct PageRange {
    /// The number of the first: its address divided by 4,096.
    pub first: u32,
    /// How many there are, at most 1,048,576.
    pub count: u32,
    /// What they are.
    pub kind: RangeKind,
}

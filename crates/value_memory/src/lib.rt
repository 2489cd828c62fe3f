//! Which values each byte of a memory may have, whichever order requests take effect in. Bytes for which requests race have lists
//! in a bounded table; all others have settled, in a memory of pages.
#![tactic(auto)]

mod memory;
mod ranges;
#[cfg(test)]
mod tests;

pub use memory::ValueMemory;
pub use ranges::{word_at, word_count};

/// The `2^size` bytes from an address on, which is a multiple of their number, at most 4,096.
#[derive(Clone, Copy, Debug, PartialEq, Eq)]
pub struct ByteRange {
    /// The address of the first of them.
    pub address: u32,
    /// The power of two that says how many there are, at most 12.
    pub size: u8,
}

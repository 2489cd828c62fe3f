//! Where a request goes on the AXI side, and as which bursts: the page map, from pages of TileLink addresses to pages of
//! AXI addresses, and the plan of a range of bytes (this project's profile).
//!
//! Addresses have 32 bits on both sides, and a page has 4,096 bytes.
#![tactic(auto)]

mod faults;
mod page_map;
mod plan;
mod write_beats;

pub use faults::region_fault;
pub use page_map::PageMap;
pub use plan::Plan;
use thiserror::Error;
pub use write_beats::w_beat;

/// TileLink pages that lead to AXI pages, one after another, and which operations may go there (this project's
/// profile). Two regions may lead to the same AXI pages.
#[derive(Clone, Copy, Debug, PartialEq, Eq, Default)]
pub struct Region {
    /// The first TileLink page.
    pub tl_page: u32,
    /// How many pages the region has.
    pub pages: u32,
    /// The AXI page that the first TileLink page leads to.
    pub axi_page: u32,
    /// Whether a Get is permitted.
    pub get: bool,
    /// Whether a Put is permitted, full or partial.
    pub put: bool,
    /// Whether an atomic is permitted.
    pub atomic: bool,
    /// Whether an Intent is permitted.
    pub hint: bool,
}

/// Why a list of regions makes no page map; the number is the place, from 0, of the first region at fault (this
/// project's profile).
#[derive(Clone, Copy, Debug, PartialEq, Eq, Error)]
pub enum MapFault {
    /// The region has no pages.
    #[error("RegionEmpty {0}")]
    RegionEmpty(u32),
    /// The region goes past the last TileLink page, or past the last AXI page.
    #[error("RegionRange {0}")]
    RegionRange(u32),
    /// The region shares a TileLink page with an earlier one.
    #[error("RegionOverlap {0}")]
    RegionOverlap(u32),
    /// Memory was refused.
    #[error("out of memory")]
    NoMemory,
}

/// A part of a range of bytes that goes as one INCR burst (AXI4, A3.4.1).
#[derive(Clone, Copy, Debug, PartialEq, Eq)]
pub struct Piece {
    /// The address of the first byte.
    pub address: u32,
    /// The number of transfers, less one.
    pub len: u8,
    /// The bytes of a transfer, as a power of two.
    pub size: u8,
}

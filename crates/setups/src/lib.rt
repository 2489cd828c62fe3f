//! What a bridge and its memory are set up with, and why a set-up is refused (this project's profile).
#![tactic(auto)]

ghost use Rattle.std.specs.Prelude.{◌≡◌, []};
ghost use Rattle.setups.specs.Setups.{lists_of, setup_fault};

use arrayvec::ArrayVec;
use burst_plan::{MapFault, Region, region_fault};
use config::Config;
use subordinate::{DeviceFault, PageKind, device_fault};
use thiserror::Error;

/// A set-up: the limits of the bridge and its regions, and the memory's pages and bad words.
#[derive(Drop)]
pub struct Setup {
    /// The bridge's limits.
    pub config: Config,
    /// The regions of TileLink pages, each leading to AXI pages.
    pub regions: ArrayVec<Region, 16>,
    /// The memory's pages with their kinds; other pages are absent.
    pub pages: ArrayVec<(u32, PageKind), 64>,
    /// The addresses of eight-byte words of good pages that went bad.
    pub bad_words: ArrayVec<u32, 64>,
}

/// Why a set-up is refused.
#[derive(Clone, Copy, Debug, PartialEq, Eq, Error)]
pub enum SetupFault {
    /// A limit isn't in its range.
    #[error("BadConfig 0")]
    BadConfig,
    /// The page map is refused.
    #[error(transparent)]
    Map(MapFault),
    /// The memory is refused.
    #[error(transparent)]
    Device(DeviceFault),
    /// Memory was refused.
    #[error("out of memory")]
    NoMemory,
}

impl Setup {
    /// A set-up with no regions, no pages and no bad words.
    pub fn new(config: Config) -> Setup
        ensures config { result.config ≡ config }
        ensures regions { result.regions.items ≡ [] }
        ensures pages { result.pages.items ≡ [] }
        ensures bad_words { result.bad_words.items ≡ [] }
    {
        Setup {
            config,
            regions: ArrayVec::new(),
            pages: ArrayVec::new(),
            bad_words: ArrayVec::new(),
        }
    }
}

/// Why a set-up is refused, but where allocation fails; none where it isn't. Of several faults it is the first: of the
/// limits, then of the regions, then of the pages and bad words (this project's profile).
pub fn setup_fault(setup: &Setup) -> Option<SetupFault>
    ensures { result ≡ setup_fault (lists_of setup.now) }
{
    if !setup.config.is_valid() {
        return Some(SetupFault::BadConfig);
    }
    if let Some(fault) = region_fault(setup.regions.as_slice()) {
        return Some(SetupFault::Map(fault));
    }
    match device_fault(setup.pages.as_slice(), setup.bad_words.as_slice()) {
        Some(fault) => Some(SetupFault::Device(fault)),
        None => None,
    }
}

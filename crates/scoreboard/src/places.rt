//! Where bursts go.
ghost use Rattle.std.specs.Prelude.{◌≡◌, ◌/◌, IfOk};
ghost use Rattle.std.specs.List.{list_any};
ghost use Rattle.scoreboard.specs.Places.{leads_to, misplaced, wrong_place};

use crate::{ObservedBeat, Wrong};
use axi_checker::AxiBeat;
use burst_plan::Region;
use std::alloc::{AllocError, Global};
use std::marker::Model;

/// The AXI pages to which some regions lead, to which alone a bridge sends bursts (this project's profile). All room is taken by
/// `new`; no other call takes memory.
pub struct AxiPlaces {
    regions: Vec<Region>,
}

impl Model for AxiPlaces {
    ghost use Rattle.std.specs.Prelude.{List};
    ghost use Rattle.burst_plan.specs.declared.Region.{Region};

    ghost Value = { List Region };

    ghost view = { λ p. p.regions.items };
}

// Written out, so that what lets go of one calls this, and proves nothing of its parts.
impl Drop for AxiPlaces {
    fn drop(self) {
        let AxiPlaces { regions: _ } = self;
    }
}

/// Whether a region leads to an AXI page.
fn leads_to(page: u32, region: &Region) -> bool
    ensures { result ≡ leads_to page region.now }
{
    region.axi_page <= page
        && u64::from(page) < u64::from(region.axi_page) + u64::from(region.pages)
}

/// Whether any of some regions leads to an AXI page.
fn is_led_to(regions: &[Region], page: u32) -> bool
    ensures { result ≡ list_any (leads_to page) regions.now }
{
    regions.iter().any(|region| leads_to(page, region))
}

/// What is wrong with a burst to an address.
fn misplaced(regions: &[Region], address: u32) -> Option<Wrong>
    ensures { result ≡ misplaced regions.now address }
{
    if is_led_to(regions, address / 4096) {
        return None;
    }
    Some(Wrong::Place)
}

impl AxiPlaces {
    /// The AXI pages to which these regions lead. The one error is that memory was refused.
    pub fn new(alloc: Global, regions: &[Region]) -> Result<Self, AllocError>
        ensures { IfOk result (λ places. places ≡ regions.now) }
    {
        let regions = Vec::from_slice(alloc, regions)?;
        Ok(AxiPlaces { regions })
    }

    /// What is wrong with the place of a beat; none where nothing is, and none of a beat that has no address. What was observed before
    /// plays no part, nor whether the beat breaks another rule, which a `Scoreboard` tells.
    pub fn judge(&self, seen: &ObservedBeat) -> Option<Wrong>
        ensures { result ≡ wrong_place self.now seen.now }
    {
        match seen {
            ObservedBeat::Axi(AxiBeat::Aw(aw)) => misplaced(&self.regions, aw.address),
            ObservedBeat::Axi(AxiBeat::Ar(ar)) => misplaced(&self.regions, ar.address),
            _ => None,
        }
    }
}

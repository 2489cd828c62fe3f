//! The page map, and where it leads.
ghost use Rattle.std.specs.Prelude.{◌≡◌, ◌+◌, ◌/◌, ◌<◌, ◌≤◌, ◌⊎◌, length, All, Some, None, IfSome, IfOk, OnOk, IfErr};
ghost use Rattle.burst_plan.specs.PageMap.{all_pages, holds_page, permits, address_in, translated, region_fault, IsInRange, IsPageMap, LeadsTo};

use crate::{MapFault, Region};
use std::alloc::Global;
use std::marker::Model;
use tl_messages::Operation;

fn holds_page(page: u32, region: &Region) -> bool
    requires { IsInRange region.now }
    ensures { result ≡ holds_page page region.now }
{
    region.tl_page <= page && page < region.tl_page + region.pages
}

fn permits(region: &Region, operation: Operation) -> bool
    ensures { result ≡ permits region.now operation }
{
    match operation {
        Operation::PutFull | Operation::PutPartial => region.put,
        Operation::Atomic(_) => region.atomic,
        Operation::Get => region.get,
        Operation::Intent(_) => region.hint,
    }
}

fn address_in(region: &Region, address: u32) -> u32
    requires start { region.now.tl_page ≤ address / 4096 }
    requires end { address / 4096 < region.now.tl_page + region.now.pages }
    requires range { region.now.axi_page + region.now.pages ≤ all_pages }
    ensures { result ≡ address_in region.now address }
{
    (region.axi_page + (address / 4096 - region.tl_page)) * 4096 + address % 4096
}

fn translated(regions: &[Region], operation: Operation, address: u32) -> Option<u32>
    requires { All IsInRange regions.now }
    ensures { result ≡ translated regions.now operation address }
{
    for region in regions {
        if holds_page(address / 4096, region) {
            return if permits(region, operation) {
                Some(address_in(region, address))
            } else {
                None
            };
        }
    }
    None
}

/// A list of regions without fault: where each TileLink page leads to on the AXI side, and which operations may go
/// there. All its memory is taken by `new`; no other call takes any.
pub struct PageMap {
    regions: Vec<Region>,
}

impl Model for PageMap {
    ghost use Rattle.std.specs.Prelude.{◌≡◌, List, None};
    ghost use Rattle.burst_plan.specs.PageMap.{region_fault};
    ghost use Rattle.burst_plan.specs.declared.Region.{Region};

    ghost Value = { List Region };

    ghost view = { λ m. m.regions.items };

    ghost invariant = { λ m. region_fault m.regions.items ≡ None };
}

// Written out, so that what lets go of one calls this, and proves nothing of its parts.
impl Drop for PageMap {
    fn drop(self) {
        let PageMap { regions: _ } = self;
    }
}

impl PageMap {
    ghost use Rattle.burst_plan.specs.declared.MapFault.TheVariants.{NoMemory};

    /// The map of the regions of a bridge, at most 16 (this project's profile).
    ///
    /// Memory is asked for only where the regions have no fault.
    pub fn new(alloc: Global, regions: &[Region]) -> Result<Self, MapFault>
        requires { length regions.now ≤ 16 }
        ensures fault { IfSome (region_fault regions.now) (λ fault. result ≡ Err fault) }
        ensures ok { IfOk result (λ map. map ≡ regions.now) }
        ensures no_fault { OnOk result (region_fault regions.now ≡ None) }
        ensures err { IfErr result (λ fault. (region_fault regions.now ≡ Some fault) ⊎ ((region_fault regions.now ≡ None) × (fault ≡ NoMemory))) }
    {
        PageMap::of_observed(alloc, regions)
    }

    /// The same of a bridge that is only observed, which may have 64 (this project's profile).
    pub fn of_observed(alloc: Global, regions: &[Region]) -> Result<Self, MapFault>
        requires { length regions.now ≤ 64 }
        ensures fault { IfSome (region_fault regions.now) (λ fault. result ≡ Err fault) }
        ensures ok { IfOk result (λ map. map ≡ regions.now) }
        ensures no_fault { OnOk result (region_fault regions.now ≡ None) }
        ensures err { IfErr result (λ fault. (region_fault regions.now ≡ Some fault) ⊎ ((region_fault regions.now ≡ None) × (fault ≡ NoMemory))) }
    {
        if let Some(fault) = crate::region_fault(regions) {
            return Err(fault);
        }
        match Vec::from_slice(alloc, regions) {
            Ok(regions) => Ok(PageMap { regions }),
            Err(_) => Err(MapFault::NoMemory),
        }
    }

    /// Where an operation at a TileLink address leads to on the AXI side; none where no region holds the address, or
    /// where the region that does doesn't permit the operation.
    pub fn translate(&self, operation: Operation, address: u32) -> Option<u32>
        ensures value { result ≡ translated self.now operation address }
        ensures place { IfSome result (LeadsTo self.now operation address) }
        ensures map { IsPageMap self.now }
    {
        translated(self.regions.as_slice(), operation, address)
    }
}

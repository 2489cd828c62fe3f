//! Why a list of regions makes no page map.
ghost use Rattle.std.specs.Prelude.{◌≡◌, ◌+◌, ◌≤◌, ◌^◌, ◌↔◌, length, nat_lt, None, IfSome};
ghost use Rattle.std.specs.List.{list_any};
ghost use Rattle.bus_words.specs.Tables.{first_broken};
ghost use Rattle.burst_plan.specs.PageMap.{all_pages, share_a_page, region_rules, region_fault, IsPageMap, IsFirstFault};

use crate::{MapFault, Region};

/// How many pages there are on each side: 2^32 bytes in pages of 4,096.
const ALL_PAGES: u64 = 1048576;

fn is_past_the_last(page: u32, pages: u32) -> bool
    ensures { result ≡ nat_lt all_pages (page + pages) }
{
    u64::from(page) + u64::from(pages) > ALL_PAGES
}

fn begins_below_the_end(region: &Region, other: &Region) -> bool
    ensures { result ≡ nat_lt region.now.tl_page (other.now.tl_page + other.now.pages) }
{
    u64::from(region.tl_page) < u64::from(other.tl_page) + u64::from(other.pages)
}

fn share_a_page(a: &Region, b: &Region) -> bool
    ensures { result ≡ share_a_page a.now b.now }
{
    begins_below_the_end(a, b) && begins_below_the_end(b, a) && a.pages > 0 && b.pages > 0
}

fn shares_a_page_with_any(region: &Region, others: &[Region]) -> bool
    ensures { result ≡ list_any (share_a_page region.now) others.now }
{
    others.iter().any(|other| share_a_page(region, other))
}

/// The first rule that region `i` breaks, which stands after the earlier ones: it has pages, they are in range, and
/// none of its TileLink pages is an earlier region's.
fn fault_of_region(earlier: &[Region], i: u32, region: &Region) -> Option<MapFault>
    ensures { result ≡ first_broken (region_rules earlier.now i region.now) }
{
    if region.pages == 0 {
        return Some(MapFault::RegionEmpty(i));
    }
    if is_past_the_last(region.tl_page, region.pages)
        || is_past_the_last(region.axi_page, region.pages)
    {
        return Some(MapFault::RegionRange(i));
    }
    if shares_a_page_with_any(region, earlier) {
        return Some(MapFault::RegionOverlap(i));
    }
    None
}

/// Why these regions make no page map, but where allocation fails; none where they make one. Of several faults it is that
/// of the first region, and there that of the first rule: the region has pages, they are in range, and none of its
/// TileLink pages is an earlier region's.
pub fn region_fault(regions: &[Region]) -> Option<MapFault>
    requires { length regions.now ≤ 2 ^ 32 }
    ensures value { result ≡ region_fault regions.now }
    ensures none { (result ≡ None) ↔ IsPageMap regions.now }
    ensures first { IfSome result (IsFirstFault regions.now) }
{
    for (i, region) in regions.iter().enumerate() {
        let fault = fault_of_region(&regions[..i], i as u32, region);
        if fault.is_some() {
            return fault;
        }
    }
    None
}

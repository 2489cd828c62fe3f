//! Why ranges of pages and bad words make no memory.
ghost use Rattle.std.specs.Prelude.{◌≡◌, ◌+◌, ◌-◌, ◌^◌, ◌<◌, ◌≤◌, ◌&&◌, [], None, Some, find, if◌then◌else◌, length, min, nat_lt};
ghost use Rattle.std.specs.List.{list_any, range_with_len};
ghost use Rattle.std.specs.Option.{option_copied};
ghost use Rattle.bus_words.specs.Tables.{first_broken};
ghost use Rattle.subordinate.specs.Faults.{device_fault, is_good, is_no_word, rules_of_pages, rules_of_words};
ghost use Rattle.subordinate.specs.declared.DeviceFault.TheVariants.{PageRange as BeyondRange};
ghost use Rattle.sparse_memory.specs.Ranges.{has_page, is_unknown_kind, lower, pages_in, pages_of, range_of, standing_in};

use crate::{PageRange, RangeKind};
use subordinate::DeviceFault;

/// How many pages there are of addresses of 32 bits.
const PAGES: u32 = 1_048_576;

/// Whether a page is in a range.
fn has_page(range: &PageRange, number: u32) -> bool
    ensures { result ≡ has_page number range.now }
{
    range.first <= number && number - range.first < range.count
}

/// The range that a page is in.
pub(crate) fn range_of(ranges: &[PageRange], number: u32) -> Option<&PageRange>
    ensures { option_copied result ≡ range_of ranges.now number }
{
    ranges.iter().find(|range| has_page(range, number))
}

/// Whether nobody knows at first which bytes the pages of a range have.
pub(crate) fn is_unknown_kind(kind: RangeKind) -> bool
    ensures { result ≡ is_unknown_kind kind }
{
    matches!(kind, RangeKind::Unknown)
}

/// Whether some range is of pages of which nobody knows at first which bytes they have.
pub(crate) fn has_unknown(ranges: &[PageRange]) -> bool
    ensures { result ≡ list_any (λ range. is_unknown_kind range.kind) ranges.now }
{
    ranges.iter().any(|range| is_unknown_kind(range.kind))
}

/// How many pages of a range, from its first on, have addresses of 32 bits.
fn pages_within(range: &PageRange) -> u32
    ensures { result ≡ min range.now.count (1048576 - range.now.first) }
{
    range.count.min(PAGES.saturating_sub(range.first))
}

/// The lower of two numbers, where there are two.
fn lower(one: Option<u32>, other: Option<u32>) -> Option<u32>
    ensures { result ≡ lower one other }
{
    match (one, other) {
        (Some(number), Some(second)) => Some(number.min(second)),
        (Some(number), None) => Some(number),
        (None, second) => second,
    }
}

/// Whether a page is in two ranges.
fn is_shared(range: &PageRange, other: &PageRange, number: u32) -> bool
    ensures { result ≡ (has_page number range.now && has_page number other.now) }
{
    has_page(range, number) && has_page(other, number)
}

/// Which page of a range, from 0, is the first that is in another too.
fn first_in(range: &PageRange, other: &PageRange) -> Option<u32>
    ensures { result ≡ find (λ k. has_page (range.now.first + k) other.now) (range_with_len 0 range.now.count) }
{
    let number = range.first.max(other.first);
    if !is_shared(range, other, number) {
        return None;
    }
    Some(number - range.first)
}

/// Which page of a range, from 0, is the first that is in one of others too.
fn first_in_any(range: &PageRange, others: &[PageRange]) -> Option<u32>
    ensures { result ≡ find (λ k. list_any (has_page (range.now.first + k)) others.now) (range_with_len 0 range.now.count) }
{
    let mut first = None;
    for other in others {
        first = lower(first, first_in(range, other));
    }
    first
}

/// What is wrong with the first page of a range whose address has more than 32 bits, where so many stand before the range, and so many
/// of its pages have such addresses.
fn beyond(within: u32, count: u32, counted: u32) -> Option<DeviceFault>
    requires { counted + within < 2 ^ 32 }
    ensures { result ≡ (if nat_lt within count then Some (BeyondRange (counted + within)) else None) }
{
    if within < count {
        Some(DeviceFault::PageRange(counted + within))
    } else {
        None
    }
}

/// What is wrong with the first page of a range that breaks a rule, where others stand before it, with so many pages.
fn fault_in(earlier: &[PageRange], counted: u32, range: &PageRange) -> Option<DeviceFault>
    requires { counted ≤ 1048576 }
    ensures { result ≡ first_broken (rules_of_pages (pages_in earlier.now) counted (pages_of range.now)) }
{
    let within = pages_within(range);
    match first_in_any(range, earlier) {
        Some(twice) if twice < within => Some(DeviceFault::PageTwice(counted + twice)),
        Some(_) => beyond(within, range.count, counted),
        None => beyond(within, range.count, counted),
    }
}

/// What is wrong with the first page that breaks a rule.
fn page_fault(ranges: &[PageRange]) -> Option<DeviceFault>
    ensures { result ≡ first_broken (rules_of_pages [] 0 (pages_in ranges.now)) }
{
    let mut counted = 0;
    for (place, range) in ranges.iter().enumerate() {
        if let Some(fault) = fault_in(&ranges[..place], counted, range) {
            return Some(fault);
        }
        counted += range.count;
    }
    None
}

/// Whether a page of the ranges is good, whatever its bytes are.
pub fn is_good_page(ranges: &[PageRange], number: u32) -> bool
    ensures { result ≡ is_good (standing_in (range_of ranges.now number)) }
{
    match range_of(ranges, number) {
        Some(range) => !matches!(range.kind, RangeKind::SlaveError),
        None => false,
    }
}

/// Whether a word can't be bad: its address is no multiple of 8, or in no good page.
fn is_no_word(ranges: &[PageRange], word: u32) -> bool
    ensures { result ≡ is_no_word (pages_in ranges.now) word }
{
    !word.is_multiple_of(8) || !is_good_page(ranges, word / 4096)
}

/// What is wrong with the first word that can't be bad.
fn word_fault(ranges: &[PageRange], bad_words: &[u32]) -> Option<DeviceFault>
    requires { length bad_words.now ≤ 64 }
    ensures { result ≡ first_broken (rules_of_words (pages_in ranges.now) 0 bad_words.now) }
{
    for (place, word) in bad_words.iter().enumerate() {
        if is_no_word(ranges, *word) {
            return Some(DeviceFault::BadWord(place as u32));
        }
    }
    None
}

/// Why these ranges of pages and bad words make no memory, if they make none: that of a device with these pages, one by one, and
/// these words. It names the first page whose address has more than 32 bits, or that is in an earlier range too, counted from 0 over
/// all ranges; where there is none, the first word that is in no good page, or at no multiple of 8 (this project's profile).
/// There are at most 64 words.
pub fn memory_fault(ranges: &[PageRange], bad_words: &[u32]) -> Option<DeviceFault>
    requires { length bad_words.now ≤ 64 }
    ensures { result ≡ device_fault (pages_in ranges.now) bad_words.now }
{
    match page_fault(ranges) {
        Some(fault) => Some(fault),
        None => word_fault(ranges, bad_words),
    }
}

//! Which lists of pages and bad words make a device (this project's profile).
ghost use Rattle.std.specs.Prelude.{◌≡◌, ◌≤◌, [], length, find, position};
ghost use Rattle.std.specs.List.{list_any};
ghost use Rattle.bus_words.specs.Tables.{first_broken};
ghost use Rattle.subordinate.specs.Faults.{device_fault, is_good, is_no_word, lists_page, rules_of_pages, rules_of_words, standing_of_listed};

use crate::{DeviceFault, PageKind};

/// The highest page number: addresses have 32 bits, and pages 4,096 bytes.
const LAST_PAGE: u32 = 1_048_575;

/// Why `Device::new` refuses these pages and bad words, but where allocation fails: the first rule broken, pages before words.
/// Each list has at most 64 entries.
pub fn device_fault(pages: &[(u32, PageKind)], bad: &[u32]) -> Option<DeviceFault>
    requires pages { length pages.now ≤ 64 }
    requires bad { length bad.now ≤ 64 }
    ensures { result ≡ device_fault pages.now bad.now }
{
    match page_fault(pages) {
        Some(fault) => Some(fault),
        None => word_fault(pages, bad),
    }
}

fn page_fault(pages: &[(u32, PageKind)]) -> Option<DeviceFault>
    requires { length pages.now ≤ 64 }
    ensures { result ≡ first_broken (rules_of_pages [] 0 pages.now) }
{
    for (place, page) in pages.iter().enumerate() {
        if page.0 > LAST_PAGE {
            return Some(DeviceFault::PageRange(place as u32));
        }
        if is_listed(&pages[..place], page.0) {
            return Some(DeviceFault::PageTwice(place as u32));
        }
    }
    None
}

fn word_fault(pages: &[(u32, PageKind)], bad: &[u32]) -> Option<DeviceFault>
    requires { length bad.now ≤ 64 }
    ensures { result ≡ first_broken (rules_of_words pages.now 0 bad.now) }
{
    for (place, word) in bad.iter().enumerate() {
        if is_no_word(pages, *word) {
            return Some(DeviceFault::BadWord(place as u32));
        }
    }
    None
}

fn is_listed(pages: &[(u32, PageKind)], number: u32) -> bool
    ensures { result ≡ list_any (lists_page number) pages.now }
{
    pages.iter().any(|page| page.0 == number)
}

fn is_no_word(pages: &[(u32, PageKind)], word: u32) -> bool
    ensures { result ≡ is_no_word pages.now word }
{
    !word.is_multiple_of(8) || !is_good_page(pages, word / 4096)
}

fn place_of(pages: &[(u32, PageKind)], number: u32) -> Option<usize>
    ensures { result ≡ position (lists_page number) pages.now }
{
    pages.iter().position(|page| page.0 == number)
}

fn is_good_page(pages: &[(u32, PageKind)], number: u32) -> bool
    ensures { result ≡ is_good (standing_of_listed (find (lists_page number) pages.now)) }
{
    match place_of(pages, number) {
        Some(place) => matches!(pages[place].1, PageKind::Good),
        None => false,
    }
}

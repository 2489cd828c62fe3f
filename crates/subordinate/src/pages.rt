//! The pages of a device: their bytes, and the transfers that are performed on them.
ghost use Rattle.std.specs.Prelude.{◌≡◌, ◌==◌, ◌+◌, ◌≤◌, filter, map, position, replicate, IfOk, IsTrue, None, Some};
ghost use Rattle.std.specs.List.{list_any};
ghost use Rattle.bus_words.specs.Lanes.{payload_of};
ghost use Rattle.bus_words.specs.Places.{AreDistinct};
ghost use Rattle.axi_beats.specs.Bursts.{strobes_fit};
ghost use Rattle.axi_beats.specs.Transfers.{IsBusWidth, transfer_address};
ghost use Rattle.subordinate.specs.Faults.{device_fault, lists_page};
ghost use Rattle.subordinate.specs.FreeMemory.{byte_in_lane, bytes_written};
ghost use Rattle.subordinate.specs.InsidePages.{IsTransferOf, first_lane};
ghost use Rattle.subordinate.specs.Pages.{Memory, is_listed_good, word_at, zero_words};

use crate::PageKind;
use axi_beats::{ArBeat, AwBeat, Resp, WBeat, lanes_of, transfer_address};
use bus_words::{lane_byte, lanes_between};
use data_unit::merge;
use std::alloc::{AllocError, Global};
use std::marker::Model;

/// The pages of a device: which are listed and as what, the words of the good ones, and the addresses of the bad words.
/// The good pages' numbers stand beside their words, in the same order, so that a page is found without touching words.
/// All room is taken by `new`; no other call takes memory.
pub(crate) struct Pages {
    listed: Vec<(u32, PageKind)>,
    numbers: Vec<u32>,
    words: Vec<[u64; 512]>,
    bad: Vec<u32>,
}

impl Model for Pages {
    ghost use Rattle.std.specs.Prelude.{◌≡◌, length};
    ghost use Rattle.bus_words.specs.Places.{AreDistinct};
    ghost use Rattle.subordinate.specs.Effects.{HasGoodPages};
    ghost use Rattle.subordinate.specs.InsidePages.{PagesState, pages_of, pages_state};

    ghost Value = { PagesState };

    ghost view = { λ p. pages_state p.listed.items p.numbers.items p.words.items p.bad.items };

    ghost invariant = { λ p. (length p.words.items ≡ length p.numbers.items)
        × HasGoodPages (record { pages = p.listed.items; bad_words = p.bad.items }) (pages_of p.numbers.items p.words.items) × AreDistinct p.numbers.items };
}

// Written out, so that what lets go of one calls this, and proves nothing of its parts.
impl Drop for Pages {
    fn drop(self) {
        let Pages {
            listed: _,
            numbers: _,
            words: _,
            bad: _,
        } = self;
    }
}

impl Pages {
    ghost use Rattle.subordinate.specs.Faults.{is_bad, standing_at, write_response};
    ghost use Rattle.subordinate.specs.FreeMemory.{captured};
    ghost use Rattle.subordinate.specs.declared.BeatState.TheVariants.{Captured};
    ghost use Rattle.subordinate.specs.Effects.{HasGoodPages};
    ghost use Rattle.subordinate.specs.Pages.{byte_at_address, opening_memory};

    /// These pages, all bytes of the good ones zero, with these bad words; `device_fault` doesn't refuse them. The one error
    /// is that memory was refused.
    pub(crate) fn new(
        alloc: Global,
        pages: &[(u32, PageKind)],
        bad: &[u32],
    ) -> Result<Self, AllocError>
        requires fine { device_fault pages.now bad.now ≡ None }
        ensures { IfOk result (λ p. p ≡ record {
          faults = record { pages = pages.now; bad_words = bad.now };
          memory = opening_memory pages.now;
        }) }
    {
        let listed = copied(alloc, pages)?;
        let numbers = good_numbers(alloc, pages)?;
        let words = zero_pages(alloc, numbers.len())?;
        let bad = copied(alloc, bad)?;
        Ok(Pages {
            listed,
            numbers,
            words,
            bad,
        })
    }

    /// The word that an address is in; none outside good pages.
    fn word_at(&self, address: u32) -> Option<u64>
        ensures word { result ≡ word_at self.now.memory address }
        ensures good_pages { HasGoodPages self.now.faults self.now.memory }
    {
        match place_of(&self.numbers, address / 4096) {
            Some(place) => Some(self.words[place][(address % 4096 / 8) as usize]),
            None => None,
        }
    }

    /// The byte at an address of a good page; none outside these.
    pub(crate) fn byte(&self, address: u32) -> Option<u8>
        ensures value { result ≡ byte_at_address self.now.memory address }
        ensures good_pages { HasGoodPages self.now.faults self.now.memory }
    {
        match self.word_at(address) {
            Some(word) => Some(lane_byte(word, (address % 8) as u8)),
            None => None,
        }
    }

    /// Whether the word that an address is in is bad.
    fn is_bad(&self, address: u32) -> bool
        ensures { result ≡ is_bad self.now.faults address }
    {
        is_among(&self.bad, address / 8 * 8)
    }

    /// The response to a write that begins at an address (AXI4, A3.4.4): that of its page (this project's profile).
    pub(crate) fn write_response(&self, address: u32) -> Resp
        ensures value { result ≡ write_response (standing_at self.now.faults address) }
        ensures good_pages { HasGoodPages self.now.faults self.now.memory }
    {
        if place_of(&self.numbers, address / 4096).is_some() {
            return Resp::Okay;
        }
        match listed_at(&self.listed, address / 4096) {
            Some(place) => match self.listed[place].1 {
                PageKind::Good => Resp::Okay,
                PageKind::SlaveError => Resp::SlvErr,
            },
            None => Resp::DecErr,
        }
    }

    /// What transfer `n`, from 1, of a read captures on a bus of `bus_bytes` bytes, 4 or 8: its bytes, each in its lane
    /// (AXI4, A3.4.3), and zero in the other lanes; all zero with an error (this project's profile).
    pub(crate) fn read(&self, bus_bytes: u8, ar: ArBeat, n: u16) -> (u64, Resp)
        requires { IsTransferOf bus_bytes ar.address ar.len ar.size n }
        ensures captured { Captured result.0 result.1 ≡ captured bus_bytes self.now.faults self.now.memory ar n }
        ensures good_pages { HasGoodPages self.now.faults self.now.memory }
    {
        let address = address_of(bus_bytes, ar.address, ar.len, ar.size, n);
        // Outside good pages the page decides, as it does of a write.
        let Some(word) = self.word_at(address) else {
            return (0, self.write_response(address));
        };
        if self.is_bad(address) {
            return (0, Resp::SlvErr);
        }
        (bytes_read(bus_bytes, ar, n, address, word), Resp::Okay)
    }

    /// Performs transfer `n`, from 1, of a write on a bus of `bus_bytes` bytes, 4 or 8: the bytes in its strobed lanes are
    /// set (AXI4, A3.4.3), where their page is good. On other pages nothing changes. A bad word is set too, and stays bad.
    pub(crate) fn write(&mut self, bus_bytes: u8, aw: AwBeat, n: u16, beat: WBeat)
        requires transfer { IsTransferOf bus_bytes aw.address aw.len aw.size n }
        requires strobes { IsTrue (strobes_fit bus_bytes aw n beat.strobes) }
        ensures written { self.new ≡ record self.old { memory = bytes_written bus_bytes self.old.memory aw n beat } }
        ensures good_pages { HasGoodPages self.old.faults self.old.memory }
    {
        let address = address_of(bus_bytes, aw.address, aw.len, aw.size, n);
        let Some(page) = place_of(&self.numbers, address / 4096) else {
            return;
        };
        let first = first_lane(bus_bytes, address);
        let words = &mut self.words[page];
        let place = (address % 4096 / 8) as usize;
        words[place] = merge(
            words[place],
            beat.payload << (8 * first),
            beat.strobes << first,
        );
    }
}

/// Whether an address is in a list. All of the list is looked at, since several addresses are compared at a time.
fn is_among(addresses: &[u32], wanted: u32) -> bool
    ensures { result ≡ list_any (λ address. address == wanted) addresses.now }
{
    let mut found = false;
    for address in addresses {
        found = found | (*address == wanted);
    }
    found
}

/// The numbers of the good pages, in order.
fn good_numbers(alloc: Global, pages: &[(u32, PageKind)]) -> Result<Vec<u32>, AllocError>
    ensures { IfOk result (λ numbers. numbers.items ≡ map (λ page. page.0) (filter is_listed_good pages.now)) }
{
    pages
        .iter()
        .filter(|page| matches!(page.1, PageKind::Good))
        .map(|page| page.0)
        .collect(alloc)
}

/// A copy of a list.
fn copied<T: Copy>(alloc: Global, items: &[T]) -> Result<Vec<T>, AllocError>
    ensures { IfOk result (λ v. v.items ≡ items.now) }
{
    items.iter().copied().collect(alloc)
}

/// So many pages, all bytes zero.
fn zero_pages(alloc: Global, count: usize) -> Result<Vec<[u64; 512]>, AllocError>
    ensures { IfOk result (λ pages. pages.items ≡ replicate count zero_words) }
{
    let mut pages = Vec::with_capacity(alloc, count)?;
    for _ in 0..count {
        pages.push([0; 512])?;
    }
    Ok(pages)
}

/// Where a page of this number stands, if the numbers rise by one. What is found doesn't rest on it.
fn guess(numbers: &[u32], number: u32) -> usize {
    match numbers.first() {
        Some(first) => number.saturating_sub(*first) as usize,
        None => 0,
    }
}

/// The place of a good page by its number, of all pages looked at in order.
fn searched(numbers: &[u32], number: u32) -> Option<usize>
    ensures { result ≡ position (λ page. page == number) numbers.now }
{
    numbers.iter().position(|page| *page == number)
}

/// The place of a good page by its number, of which no two are the same; where it stands as the numbers rise by one, no other
/// page is looked at.
fn place_of(numbers: &[u32], number: u32) -> Option<usize>
    requires { AreDistinct numbers.now }
    ensures { result ≡ position (λ page. page == number) numbers.now }
{
    let guess = guess(numbers, number);
    if guess < numbers.len() && numbers[guess] == number {
        return Some(guess);
    }
    searched(numbers, number)
}

/// The place of a page in the list by its number.
fn listed_at(listed: &[(u32, PageKind)], number: u32) -> Option<usize>
    ensures { result ≡ position (lists_page number) listed.now }
{
    listed.iter().position(|page| page.0 == number)
}

/// The address of transfer `n`, from 1, of a burst in one page.
fn address_of(bus_bytes: u8, start: u32, len: u8, size: u8, n: u16) -> u32
    requires { IsTransferOf bus_bytes start len size n }
    ensures { result ≡ transfer_address start size n }
{
    transfer_address(start, size, n) as u32
}

/// Where the bus's word of an address begins in its word of eight bytes.
fn first_lane(bus_bytes: u8, address: u32) -> u8
    requires { IsBusWidth bus_bytes }
    ensures value { result ≡ first_lane bus_bytes address }
    ensures within { result + bus_bytes ≤ 8 }
{
    if bus_bytes == 8 {
        return 0;
    }
    (address % 8) as u8 / 4 * 4
}

/// The bytes of its word that transfer `n`, from 1, of a read takes, each in the bus's lane, and zero in the other lanes. An
/// aligned transfer of eight bytes takes the word as it is.
fn bytes_read(bus_bytes: u8, ar: ArBeat, n: u16, address: u32, word: u64) -> u64
    requires transfer { IsTransferOf bus_bytes ar.address ar.len ar.size n }
    requires address { address ≡ transfer_address ar.address ar.size n }
    ensures { (memory : Memory) → word_at memory address ≡ Some word
        → result ≡ payload_of (byte_in_lane bus_bytes memory ar n) }
{
    if ar.size == 3 && address.is_multiple_of(8) {
        return word;
    }
    let (lowest, highest) = lanes_of(ar.address, ar.size, n, bus_bytes);
    let first = first_lane(bus_bytes, address);
    merge(0, word >> (8 * first), lanes_between(lowest, highest))
}

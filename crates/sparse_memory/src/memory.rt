//! The memory: which pages there are, and the room of those that were asked for.
ghost use Rattle.std.specs.Prelude.{◌≡◌, ◌/◌, ◌%◌, ◌<◌, ◌||◌, ◌==◌, ℕ, false, true, if◌then◌else◌, IfOk, OnErr, OnOk, IsOk, None, Some};
ghost use Rattle.std.specs.Option.{option_copied};
ghost use Rattle.subordinate.specs.Faults.{device_fault, is_good, standing_at, standing_of_kind, write_response};
ghost use Rattle.sparse_memory.specs.Ranges.{faults_of, is_unknown, kind_of, pages_in, range_of};
ghost use Rattle.sparse_memory.specs.SparseMemory.{IsSoundState, bytes_in, doubts_in, faults_in, flags_in, has_room, page_in, put_flags, word_in};

use crate::page::Page;
use crate::ranges::{has_unknown, is_unknown_kind, range_of};
use crate::{PageRange, RangeKind};
use axi_beats::Resp;
use bus_words::lane_byte;
use std::alloc::{AllocError, Global};
use std::collections::HashMap;
use std::marker::Model;

/// A memory of up to 4 GB: which pages are listed and as what, which words of them are bad, and the bytes of the good pages
/// that have room, each with whether it is in doubt. Room for a page is taken by `reserve`, and by no other call.
pub struct SparseMemory {
    alloc: Global,
    ranges: Vec<PageRange>,
    bad: Vec<u32>,
    pages: HashMap<u32, Page>,
    /// Where true, no byte is in doubt.
    knows_all: bool,
}

impl Model for SparseMemory {
    ghost use Rattle.sparse_memory.specs.SparseMemory.{IsSoundState, KnowsAllIf, SparseState, sparse_state};

    ghost Value = { SparseState };

    ghost view = { λ m. sparse_state m.ranges.items m.bad.items m.pages.entries };

    ghost invariant = { λ m. IsSoundState (sparse_state m.ranges.items m.bad.items m.pages.entries) × KnowsAllIf m.knows_all (sparse_state m.ranges.items m.bad.items m.pages.entries) };
}

// Written out, so that what lets go of one calls this, and proves nothing of its parts.
impl Drop for SparseMemory {
    fn drop(self) {
        let SparseMemory {
            alloc: _,
            ranges: _,
            bad: _,
            pages: _,
            knows_all: _,
        } = self;
    }
}

impl SparseMemory {
    ghost use Rattle.subordinate.specs.Faults.{is_bad, read_response};
    ghost use Rattle.sparse_memory.specs.SparseMemory.{put_word};

    /// A memory of these ranges with these bad words, which `memory_fault` doesn't refuse. No page has room: the bytes are zero, and
    /// those of ranges of unknown bytes are in doubt. The one error is that memory was refused.
    pub fn new(alloc: Global, ranges: &[PageRange], bad_words: &[u32]) -> Result<Self, AllocError>
        requires fine { device_fault (pages_in ranges.now) bad_words.now ≡ None }
        ensures faults { IfOk result (λ memory. faults_in memory ≡ faults_of ranges.now bad_words.now) }
        ensures bytes { IfOk result (λ memory. bytes_in memory ≡ (λ address. 0)) }
        ensures doubts { IfOk result (λ memory. doubts_in memory ≡ (λ address. is_unknown ranges.now (address / 4096))) }
        ensures room { IfOk result (λ memory. (page : ℕ) → has_room memory page ≡ false) }
        ensures sound { IfOk result (λ memory. IsSoundState memory) }
    {
        Ok(SparseMemory {
            alloc,
            ranges: copied(alloc, ranges)?,
            bad: copied(alloc, bad_words)?,
            pages: HashMap::new(alloc),
            knows_all: !has_unknown(ranges),
        })
    }

    /// Whether the page of an address is good.
    pub fn is_good(&self, address: u32) -> bool
        ensures value { result ≡ is_good (standing_at (faults_in self.now) address) }
        ensures sound { IsSoundState self.now }
    {
        self.write_response(address) == Resp::Okay
    }

    /// Whether the word that an address is in is bad.
    fn is_bad(&self, address: u32) -> bool
        ensures value { result ≡ is_bad (faults_in self.now) address }
        ensures sound { IsSoundState self.now }
    {
        let word = address / 8 * 8;
        self.bad.iter().any(|bad| *bad == word)
    }

    /// The response to a write that begins at an address (AXI4, A3.4.4): that of its page (this project's profile).
    pub fn write_response(&self, address: u32) -> Resp
        ensures value { result ≡ write_response (standing_at (faults_in self.now) address) }
        ensures sound { IsSoundState self.now }
    {
        match self.range_of(address) {
            Some(range) => response_of(range.kind),
            None => Resp::DecErr,
        }
    }

    /// The response to a read beat at an address (AXI4, A3.4.4): that of its page and its word (this project's profile).
    pub fn read_response(&self, address: u32) -> Resp
        ensures value { result ≡ read_response (faults_in self.now) address }
        ensures sound { IsSoundState self.now }
    {
        match self.write_response(address) {
            Resp::Okay if self.is_bad(address) => Resp::SlvErr,
            resp => resp,
        }
    }

    /// The byte at an address of a good page; none outside these.
    pub fn byte(&self, address: u32) -> Option<u8>
        ensures value { result ≡ (if is_good (standing_at (faults_in self.now) address) then Some (bytes_in self.now address) else None) }
        ensures sound { IsSoundState self.now }
    {
        match self.page_of(address) {
            Some(page) => Some(lane_byte(page.word(place_of(address)), lane_of(address))),
            None if self.is_good(address) => Some(0),
            None => None,
        }
    }

    /// The eight bytes of the word that an address is in; zero where there is no room.
    pub fn word(&self, address: u32) -> u64
        ensures value { result ≡ word_in (bytes_in self.now) address }
        ensures sound { IsSoundState self.now }
    {
        match self.page_of(address) {
            Some(page) => page.word(place_of(address)),
            None => 0,
        }
    }

    /// Whether it is sure that no byte is in doubt.
    pub fn knows_all(&self) -> bool
        ensures { result ≡ true → (x : ℕ) → doubts_in self.now x ≡ false }
    {
        self.knows_all
    }

    /// Which bytes of the word that an address is in are in doubt, bit i for byte i.
    pub fn doubts(&self, address: u32) -> u8
        ensures value { result ≡ flags_in (doubts_in self.now) address }
        ensures sound { IsSoundState self.now }
    {
        if self.knows_all {
            return 0;
        }
        match self.page_of(address) {
            Some(page) => page.doubts(place_of(address)),
            None if self.is_unknown(address) => 0xff,
            None => 0,
        }
    }

    /// The range that the page of an address is in.
    fn range_of(&self, address: u32) -> Option<&PageRange>
        ensures range { option_copied result ≡ range_of self.now.ranges (address / 4096) }
        ensures sound { IsSoundState self.now }
    {
        range_of(&self.ranges, address / 4096)
    }

    /// The room of the page of an address.
    fn page_of(&self, address: u32) -> Option<&Page>
        ensures page { option_copied result ≡ page_in self.now (address / 4096) }
        ensures sound { IsSoundState self.now }
    {
        self.pages.get(&(address / 4096))
    }

    /// Whether the page of an address is one of which nobody knows at first which bytes it has.
    fn is_unknown(&self, address: u32) -> bool
        ensures { result ≡ is_unknown self.now.ranges (address / 4096) }
    {
        match self.range_of(address) {
            Some(range) => is_unknown_kind(range.kind),
            None => false,
        }
    }

    /// Makes room for the good page of an address, where it has none. The one error is that memory was refused; then nothing
    /// has changed, and the page can be asked for again. Where it has room no memory is asked for.
    pub fn reserve(&mut self, address: u32) -> Result<(), AllocError>
        requires good { is_good (standing_at (faults_in self.old) address) ≡ true }
        ensures faults { faults_in self.new ≡ faults_in self.old }
        ensures bytes { bytes_in self.new ≡ bytes_in self.old }
        ensures doubts { doubts_in self.new ≡ doubts_in self.old }
        ensures room { OnOk result ((page : ℕ) → has_room self.new page ≡ (has_room self.old page || page == address / 4096)) }
        ensures refused { OnErr result (self.new ≡ self.old) }
        ensures has_room { has_room self.old (address / 4096) ≡ true → IsOk result }
        ensures sound { IsSoundState self.new }
    {
        let number = address / 4096;
        if self.pages.contains_key(&number) {
            return Ok(());
        }
        let page = Page::new(self.alloc, self.is_unknown(address))?;
        self.pages.insert(number, page)?;
        Ok(())
    }

    /// Sets the strobed bytes of the word that an address is in, bit i for byte i, to those of another word. The page has room.
    pub fn put_word(&mut self, address: u32, word: u64, strobes: u8)
        requires room { has_room self.old (address / 4096) ≡ true }
        ensures faults { faults_in self.new ≡ faults_in self.old }
        ensures bytes { bytes_in self.new ≡ put_word address word strobes (bytes_in self.old) }
        ensures doubts { doubts_in self.new ≡ doubts_in self.old }
        ensures room { (page : ℕ) → has_room self.new page ≡ has_room self.old page }
        ensures sound { IsSoundState self.new }
    {
        let Some(page) = self.pages.get_mut(&(address / 4096)) else {
            return;
        };
        page.put_word(place_of(address), word, strobes);
    }

    /// Sets whether the strobed bytes of the word that an address is in are in doubt, bit i for byte i. The page has room.
    pub fn put_doubts(&mut self, address: u32, doubts: u8, strobes: u8)
        requires room { has_room self.old (address / 4096) ≡ true }
        ensures faults { faults_in self.new ≡ faults_in self.old }
        ensures bytes { bytes_in self.new ≡ bytes_in self.old }
        ensures doubts { doubts_in self.new ≡ put_flags address doubts strobes (doubts_in self.old) }
        ensures room { (page : ℕ) → has_room self.new page ≡ has_room self.old page }
        ensures sound { IsSoundState self.new }
    {
        let Some(page) = self.pages.get_mut(&(address / 4096)) else {
            return;
        };
        page.put_doubts(place_of(address), doubts, strobes);
        self.knows_all &= doubts & strobes == 0;
    }
}

/// The response to a write to a page of a range (AXI4, A3.4.4).
fn response_of(kind: RangeKind) -> Resp
    ensures { result ≡ write_response (standing_of_kind (kind_of kind)) }
{
    match kind {
        RangeKind::Zeros | RangeKind::Unknown => Resp::Okay,
        RangeKind::SlaveError => Resp::SlvErr,
    }
}

/// The place of an address's word in its page.
fn place_of(address: u32) -> usize
    ensures value { result ≡ address % 4096 / 8 }
    ensures within { result < 512 }
{
    (address % 4096 / 8) as usize
}

/// The lane of an address in its word.
fn lane_of(address: u32) -> u8
    ensures value { result ≡ address % 8 }
    ensures within { result < 8 }
{
    (address % 8) as u8
}

/// A copy of a list.
fn copied<T: Copy>(alloc: Global, items: &[T]) -> Result<Vec<T>, AllocError>
    ensures { IfOk result (λ v. v.items ≡ items.now) }
{
    items.iter().copied().collect(alloc)
}

//! The memory: what is held of each byte, and what a call does to it.
ghost use Rattle.std.specs.Prelude.{◌≡◌, ◌⊎◌, ◌+◌, ◌-◌, ◌*◌, ◌/◌, ◌%◌, ◌^◌, ◌<◌, ◌≤◌, ◌==◌, ◌&&◌, ◌||◌, ℕ, Bool, false, true, not, [], ◌∷◌, None, Some, Err, IfErr, IfOk, IfSome, OnErr, OnOk, if◌then◌else◌, is_none, length, slice_index};
ghost use Rattle.bus_words.specs.Lanes.{has_lane, lane_byte};
ghost use Rattle.byte_orders.specs.Exact.{AnswersAsWhole};
ghost use Rattle.byte_orders.specs.Holdings.{beginning, is_compared, may_be_told};
ghost use Rattle.byte_orders.specs.Keeping.{IsRightlyBlamed};
ghost use Rattle.byte_orders.specs.Runs.{Ends, Fails, IsBlamedInRuns, Resets, TakesEffect};
ghost use Rattle.byte_values.specs.Words.{lane_list};
ghost use Rattle.subordinate.specs.Faults.{device_fault, is_good, read_response, standing_at};
ghost use Rattle.axi_beats.specs.Responses.{is_okay};
ghost use Rattle.sparse_memory.specs.Ranges.{faults_of, is_unknown, pages_in};
ghost use Rattle.serial_memory.specs.SerialMemory.{can_fill, is_filled, is_good_byte, some_lacks_room};
ghost use Rattle.serial_memory.specs.declared.FillFault.TheVariants.{NoMemory, Place};
ghost use Rattle.value_tables.specs.Tables.{list_at, lost_since, settled_at};
ghost use Rattle.value_memory.specs.InsideValues.{BeginsBeside, BeginsElsewhere, BeginsThere, HasBegun, IsOfOne, KeepsRest, begun_table, finds_place, held_changed, is_full_list, is_given, is_given_up, settled_in, with_table};
ghost use Rattle.value_memory.specs.States.{KeepsContents, after_each, at_each_word, begun_place, begun_word, changed, contents_of, cut_off, ended, failed, filled_with, given, is_crowded_until, is_crowded_word, kept_short, made_sure, new_contents, settled_as, swept, tidied, tidied_beside, with_byte, with_oldest, with_place, with_request};
ghost use Rattle.value_memory.specs.ValueMemory.{AllGo, IsByteRange, KeepsCounts, KeepsPages, begins, begins_reading, byte_in, gives_at, held_by, held_in, is_crowded_since, lane_held, pages_of, rooms_in, shares_word, to_all, to_words, word_count};

use crate::ByteRange;
use crate::ranges::{address_behind, lanes_of, word_at, word_count};
use axi_beats::Resp;
use byte_values::{Change, KnownBytes, WordValues};
use data_unit::{full_mask, place};
use serial_memory::FillFault;
use sparse_memory::{PageRange, SparseMemory};
use std::alloc::{AllocError, Global};
use std::marker::Model;
use value_tables::ValueTable;

/// How many places a shelf of the table has.
const PLACES: usize = 8;

/// All lanes of a word.
const ALL: u8 = 0xff;

/// Which values each byte of a memory may have where requests race for it. A request is named by its number: how many had begun as
/// it began, itself counted; at most 2^63 begin. No call but `new`, `make_room`, `make_room_for` and `fill` takes memory.
pub struct ValueMemory {
    table: ValueTable,
    settled: SparseMemory,
    begun: u64,
    oldest: u64,
    crowds: u64,
}

impl Model for ValueMemory {
    ghost use Rattle.value_memory.specs.InsideValues.{IsSoundMemory};
    ghost use Rattle.value_memory.specs.ValueMemory.{ValueState};

    ghost Value = { ValueState };

    ghost view = { λ m. record { table = m.table; settled = m.settled; begun = m.begun; oldest = m.oldest; crowds = m.crowds } };

    ghost invariant = { λ m. IsSoundMemory (record { table = m.table; settled = m.settled; begun = m.begun; oldest = m.oldest; crowds = m.crowds }) };
}

// Written out, so that what lets go of one calls this, and proves nothing of its parts.
impl Drop for ValueMemory {
    fn drop(self) {
        let ValueMemory {
            table: _,
            settled: _,
            begun: _,
            oldest: _,
            crowds: _,
        } = self;
    }
}

/// Whether a response is an error.
#[inline]
fn is_error(resp: Resp) -> bool
    ensures { result ≡ not (is_okay resp) }
{
    !matches!(resp, Resp::Okay)
}

/// One, if something is so.
fn one_if(is_so: bool) -> u64
    ensures { result ≡ (if is_so then 1 else 0) }
{
    if is_so { 1 } else { 0 }
}

impl ValueMemory {
    /// A memory of these ranges of pages and bad words, which `memory_fault` of `sparse_memory` doesn't refuse: all bytes are zero,
    /// but on pages whose bytes nobody knows. No page has room, and no request has begun. The one error is that memory was refused.
    pub fn new(alloc: Global, ranges: &[PageRange], bad_words: &[u32]) -> Result<Self, AllocError>
        requires fine { device_fault (pages_in ranges.now) bad_words.now ≡ None }
        ensures held { IfOk result (λ memory. (x : ℕ) → held_in memory x ≡ beginning (if is_unknown ranges.now (x / 4096) then None else Some 0) ∷ []) }
        ensures pages { IfOk result (λ memory. pages_of memory ≡ faults_of ranges.now bad_words.now) }
        ensures rooms { IfOk result (λ memory. (page : ℕ) → rooms_in memory page ≡ false) }
        ensures counts { IfOk result (λ memory. (memory.begun ≡ 0) × (memory.oldest ≡ 0) × (memory.crowds ≡ 0)) }
        ensures state { IfOk result (λ memory. contents_of memory ≡ new_contents ranges.now bad_words.now) }
    {
        Ok(ValueMemory {
            table: ValueTable::new(alloc)?,
            settled: SparseMemory::new(alloc, ranges, bad_words)?,
            begun: 0,
            oldest: 0,
            crowds: 0,
        })
    }

    /// How many requests have begun.
    #[inline]
    pub fn begun(&self) -> u64
        ensures value { result ≡ self.now.begun }
        ensures most { self.now.begun ≤ 2 ^ 63 }
        ensures oldest { self.now.oldest ≤ self.now.begun + 1 }
    {
        self.begun
    }

    /// How many of them found no room for a byte that they may give, so that all of a list was forgotten, and any value is let
    /// pass.
    #[inline]
    pub fn crowds(&self) -> u64
        ensures { result ≡ self.now.crowds }
    {
        self.crowds
    }

    /// Whether the page of an address is good, so that it may get room.
    #[inline]
    pub fn is_good(&self, address: u32) -> bool
        ensures { result ≡ is_good (standing_at (pages_of self.now) address) }
    {
        self.settled.is_good(address)
    }

    /// Whether a read at an address is answered with an error: its page isn't good, or its word is bad.
    #[inline]
    pub fn refuses_reads(&self, address: u32) -> bool
        ensures { result ≡ not (is_okay (read_response (pages_of self.now) address)) }
    {
        is_error(self.settled.read_response(address))
    }

    /// Makes room for the good page of an address, where it has none. The one error is that memory was refused for it; then nothing
    /// has changed.
    pub fn make_room(&mut self, address: u32) -> Result<(), AllocError>
        requires good { is_good (standing_at (pages_of self.old) address) ≡ true }
        ensures held { (x : ℕ) → held_in self.new x ≡ held_in self.old x }
        ensures counts { KeepsCounts self.old self.new }
        ensures pages { pages_of self.new ≡ pages_of self.old }
        ensures rooms { OnOk result ((page : ℕ) → rooms_in self.new page ≡ (rooms_in self.old page || page == address / 4096)) }
        ensures refused { OnErr result (self.new ≡ self.old) }
        ensures cause { OnErr result (rooms_in self.old (address / 4096) ≡ false) }
        ensures state { contents_of self.new ≡ contents_of self.old }
    {
        self.settled.reserve(address)
    }

    // ---- what it begins with, as a tester says it

    /// Whether the byte that lies so many behind an address is of a good page.
    fn is_good_byte(&self, address: u32, k: usize) -> bool
        ensures { result ≡ is_good_byte (pages_of self.now) (address + k) }
    {
        let Ok(k) = u32::try_from(k) else {
            return false;
        };
        let Some(address) = address.checked_add(k) else {
            return false;
        };
        self.is_good(address)
    }

    /// Whether so many bytes from an address on are all of good pages.
    fn can_fill(&self, address: u32, count: usize) -> bool
        ensures { result ≡ can_fill (pages_of self.now) address count }
    {
        (0..count).all(|k| self.is_good_byte(address, k))
    }

    /// Makes room for the pages of so many bytes from an address on. The one error is that memory was refused for one that has none.
    fn make_rooms(&mut self, address: u32, count: usize) -> Result<(), AllocError>
        requires { can_fill (pages_of self.old) address count ≡ true }
        ensures rest { KeepsContents self.old self.new }
        ensures room { OnOk result ((k : ℕ) → k < count → rooms_in self.new ((address + k) / 4096) ≡ true) }
        ensures cause { OnErr result (some_lacks_room (rooms_in self.old) address count ≡ true) }
    {
        for k in 0..count {
            self.make_room(address_behind(address, k))?;
        }
        Ok(())
    }

    /// Makes room for the pages of so many bytes from an address on, so that `fill` finds it. It fails only where one of them is of no
    /// good page, or memory was refused for the page of one, which has no room.
    pub fn make_room_for(&mut self, address: u32, count: usize) -> Result<(), FillFault>
        ensures rest { KeepsContents self.old self.new }
        ensures held { (x : ℕ) → held_in self.new x ≡ held_in self.old x }
        ensures counts { KeepsCounts self.old self.new }
        ensures pages { pages_of self.new ≡ pages_of self.old }
        ensures room { OnOk result ((k : ℕ) → k < count → rooms_in self.new ((address + k) / 4096) ≡ true) }
        ensures place { can_fill (pages_of self.old) address count ≡ false → result ≡ Err Place }
        ensures no_fault { OnOk result (can_fill (pages_of self.old) address count ≡ true) }
        ensures err { IfErr result (λ fault. ((can_fill (pages_of self.old) address count ≡ false) × (fault ≡ Place))
            ⊎ ((can_fill (pages_of self.old) address count ≡ true) × (fault ≡ NoMemory))) }
        ensures cause { IfErr result (λ fault. fault ≡ NoMemory → some_lacks_room (rooms_in self.old) address count ≡ true) }
    {
        if !self.can_fill(address, count) {
            return Err(FillFault::Place);
        }
        if self.make_rooms(address, count).is_err() {
            return Err(FillFault::NoMemory);
        }
        Ok(())
    }

    /// Puts a byte, which is known from now on. Its page has room.
    fn put_byte(&mut self, address: u32, byte: u8)
        requires room { rooms_in self.old (address / 4096) ≡ true }
        ensures state { contents_of self.new ≡ with_byte address byte (contents_of self.old) }
        ensures rest { KeepsRest self.old self.new }
    {
        let strobes = full_mask(address, 0);
        let word = place(u64::from(byte), address, 0);
        self.settled.put_word(address, word, strobes);
        self.settled.put_doubts(address, 0, strobes);
    }

    /// Puts bytes from an address on, which are known from now on. Their pages have room.
    fn put_each(&mut self, address: u32, bytes: &[u8])
        requires good { can_fill (pages_of self.old) address (length bytes.now) ≡ true }
        requires room { (k : ℕ) → k < length bytes.now → rooms_in self.old ((address + k) / 4096) ≡ true }
        ensures state { contents_of self.new ≡ filled_with address bytes.now (contents_of self.old) }
        ensures rest { KeepsRest self.old self.new }
    {
        for k in 0..bytes.len() {
            self.put_byte(address_behind(address, k), bytes[k]);
        }
    }

    /// The bytes from an address on become these, and are known, as a tester says what the memory begins with, before any request has
    /// begun. It fails only where one of them is of no good page, or memory was refused for the page of one, which has no room; then no
    /// byte has changed.
    pub fn fill(&mut self, address: u32, bytes: &[u8]) -> Result<(), FillFault>
        requires none { self.old.begun ≡ 0 }
        ensures state { OnOk result (contents_of self.new ≡ filled_with address bytes.now (contents_of self.old)) }
        ensures held { OnOk result ((x : ℕ) → held_in self.new x
            ≡ (if is_filled address (length bytes.now) x then beginning (Some (slice_index bytes.now (x - address))) ∷ [] else held_in self.old x)) }
        ensures refused { OnErr result (contents_of self.new ≡ contents_of self.old) }
        ensures kept { OnErr result ((x : ℕ) → held_in self.new x ≡ held_in self.old x) }
        ensures counts { KeepsCounts self.old self.new }
        ensures pages { pages_of self.new ≡ pages_of self.old }
        ensures rooms { (page : ℕ) → rooms_in self.old page ≡ true → rooms_in self.new page ≡ true }
        ensures place { can_fill (pages_of self.old) address (length bytes.now) ≡ false → result ≡ Err Place }
        ensures no_fault { OnOk result (can_fill (pages_of self.old) address (length bytes.now) ≡ true) }
        ensures err { IfErr result (λ fault. ((can_fill (pages_of self.old) address (length bytes.now) ≡ false) × (fault ≡ Place))
            ⊎ ((can_fill (pages_of self.old) address (length bytes.now) ≡ true) × (fault ≡ NoMemory))) }
        ensures cause { IfErr result (λ fault. fault ≡ NoMemory → some_lacks_room (rooms_in self.old) address (length bytes.now) ≡ true) }
    {
        let _ = &self.begun;
        self.make_room_for(address, bytes.len())?;
        self.put_each(address, bytes);
        Ok(())
    }

    // ---- what is known of a word that has no list

    /// The bytes of the word that an address is in which have settled, as far as they are known.
    #[inline]
    fn settled_word(&self, address: u32) -> KnownBytes
        ensures { result ≡ settled_in self.now address }
    {
        KnownBytes {
            value: self.settled.word(address),
            lanes: !self.settled.doubts(address),
        }
    }

    /// The last request that found no room, if one may be in flight that had begun by then.
    #[inline]
    fn lost(&self) -> Option<u64>
        ensures { result ≡ lost_since self.now.table self.now.oldest }
    {
        let lost = self.table.lost();
        if 0 < lost && self.oldest <= lost {
            Some(lost)
        } else {
            None
        }
    }

    /// The list with which that word's begins.
    fn first_list(&self, address: u32) -> WordValues
        ensures { (x : ℕ) → x / 8 ≡ address / 8 → lane_list (x % 8) result ≡ held_by self.now x None }
    {
        let known = self.settled_word(address);
        match self.lost() {
            Some(lost) => WordValues::with_lost(known, lost),
            None => WordValues::new(known),
        }
    }

    // ---- lists are kept short

    /// Whether a word that has settled as this may leave the table: no byte that nobody knows could be taken then for one of a
    /// request that found no room.
    fn may_leave(&self, known: KnownBytes) -> bool
        ensures { result ≡ ((known.lanes == 255) || is_none (lost_since self.now.table self.now.oldest)) }
    {
        known.lanes == ALL || self.lost().is_none()
    }

    /// A word has settled: its list leaves the table, and its bytes go where those of all settled words are, if they may.
    fn settle(&mut self, word: u32, known: KnownBytes)
        requires { settled_at self.old.table word ≡ Some known }
        ensures held { (x : ℕ) → held_in self.new x ≡ held_in self.old x }
        ensures rest { KeepsRest self.old self.new }
        ensures state { contents_of self.new ≡ settled_as word (Some known) (contents_of self.old) }
    {
        if !self.may_leave(known) {
            return;
        }
        let address = word * 8;
        self.settled.put_word(address, known.value, known.lanes);
        self.settled.put_doubts(address, !known.lanes, ALL);
        self.table.release(word);
    }

    /// The list of a word forgets what can't be told any more, if the word has one, and leaves the table if it has settled.
    fn tidy(&mut self, word: u32)
        ensures goes { AllGo self.old.oldest false self.old self.new (to_all []) }
        ensures rest { KeepsRest self.old self.new }
        ensures state { contents_of self.new ≡ tidied word (contents_of self.old) }
    {
        self.table.prune(word, self.oldest, self.begun);
        let Some(known) = self.table.settled(word) else {
            return;
        };
        self.settle(word, known);
    }

    /// The same of the list at a place of the shelf of a word.
    fn tidy_beside(&mut self, word: u32, place: usize)
        ensures goes { AllGo self.old.oldest false self.old self.new (to_all []) }
        ensures rest { KeepsRest self.old self.new }
        ensures state { contents_of self.new ≡ tidied_beside word place (contents_of self.old) }
    {
        let Some(other) = self.table.beside(word, place) else {
            return;
        };
        self.tidy(other);
    }

    /// The same of each list on the shelf of a word.
    fn sweep(&mut self, word: u32)
        ensures goes { AllGo self.old.oldest false self.old self.new (to_all []) }
        ensures rest { KeepsRest self.old self.new }
        ensures state { contents_of self.new ≡ swept word (contents_of self.old) }
    {
        for place in 0..PLACES {
            self.tidy_beside(word, place);
        }
    }

    /// The same of each word of a range.
    fn tidy_each(&mut self, range: ByteRange)
        requires { IsByteRange range }
        ensures goes { AllGo self.old.oldest false self.old self.new (to_all []) }
        ensures rest { KeepsRest self.old self.new }
        ensures state { contents_of self.new ≡ at_each_word tidied range (contents_of self.old) }
    {
        for place in 0..word_count(range) {
            self.tidy(word_at(range, place) / 8);
        }
    }

    // ---- a request begins

    /// Makes a place for the list of a word, if it can be had.
    fn make_place(&mut self, word: u32)
        ensures goes { AllGo self.old.oldest false self.old self.new (to_all []) }
        ensures rest { KeepsRest self.old self.new }
        ensures state { contents_of self.new ≡ with_place word (contents_of self.old) }
    {
        if self.table.has_room(word) {
            return;
        }
        self.sweep(word);
    }

    /// The same for each word of a range.
    fn make_places(&mut self, range: ByteRange)
        requires { IsByteRange range }
        ensures goes { AllGo self.old.oldest false self.old self.new (to_all []) }
        ensures rest { KeepsRest self.old self.new }
        ensures state { contents_of self.new ≡ at_each_word with_place range (contents_of self.old) }
    {
        for place in 0..word_count(range) {
            self.make_place(word_at(range, place) / 8);
        }
    }

    /// Whether the list of a word is full, if it has one.
    fn is_full(&self, word: u32) -> bool
        ensures { result ≡ is_full_list (list_at self.now.table word) }
    {
        match self.table.list(word) {
            Some(list) => list.is_full(),
            None => false,
        }
    }

    /// Whether the last request that has begun has found no room for another word, and this word has no list.
    fn is_given_up(&self, word: u32) -> bool
        ensures { result ≡ is_given_up self.now word }
    {
        self.table.lost() == self.begun && self.table.list(word).is_none()
    }

    /// The last request may give some lanes of the word that an address is in: its list has that, if there is a place for one.
    fn begin_list(&mut self, address: u32, lanes: u8) -> bool
        requires some { 0 < self.old.begun }
        requires room { rooms_in self.old (address / 4096) ≡ true }
        ensures state { self.new ≡ with_table self.old (begun_table self.old (address / 8) lanes (settled_in self.old address)) }
        ensures place { result ≡ finds_place self.old (address / 8) }
    {
        let word = address / 8;
        if self.is_given_up(word) {
            return false;
        }
        let known = self.settled_word(address);
        self.table
            .begin(word, self.begun, lanes, known, self.oldest)
    }

    /// The last request may give some lanes of the word that an address is in. True: there was no room for what some byte may be.
    fn begin_at(&mut self, address: u32, lanes: u8) -> bool
        requires some { 0 < self.old.begun }
        requires oldest { self.old.oldest ≤ self.old.begun }
        requires room { rooms_in self.old (address / 4096) ≡ true }
        ensures given { (x : ℕ) → is_given address lanes x ≡ true → BeginsThere self.old.begun self.old self.new result x }
        ensures beside { (x : ℕ) → x / 8 ≡ address / 8 → is_given address lanes x ≡ false → BeginsBeside self.old.begun self.old self.new result x }
        ensures others { (x : ℕ) → (x / 8 ≡ address / 8 → ⊥) → BeginsElsewhere self.old.begun self.old self.new result x }
        ensures rest { KeepsRest self.old self.new }
        ensures state { contents_of self.new ≡ begun_word address lanes (contents_of self.old) }
        ensures crowded { result ≡ is_crowded_word address (contents_of self.old) }
    {
        let full = self.is_full(address / 8);
        if self.begin_list(address, lanes) {
            return full;
        }
        self.settled.put_doubts(address, lanes, lanes);
        true
    }

    /// The last request may give the bytes of a range. True: there was no room for what some byte may be.
    fn begin_each(&mut self, range: ByteRange) -> bool
        requires range { IsByteRange range }
        requires some { 0 < self.old.begun }
        requires oldest { self.old.oldest ≤ self.old.begun }
        requires room { rooms_in self.old (range.address / 4096) ≡ true }
        ensures held { (x : ℕ) → HasBegun self.old.begun range self.old self.new result x }
        ensures rest { KeepsRest self.old self.new }
        ensures state { contents_of self.new ≡ after_each (begun_place range) (word_count range) (contents_of self.old) }
        ensures crowded { result ≡ is_crowded_until range (word_count range) (contents_of self.old) }
    {
        let lanes = lanes_of(range);
        let mut crowded = false;
        for place in 0..word_count(range) {
            crowded |= self.begin_at(word_at(range, place), lanes);
        }
        crowded
    }

    /// A request begins that may give the bytes of a range.
    fn begin_writing(&mut self, range: ByteRange) -> u64
        requires few { self.old.begun < 2 ^ 63 }
        requires range { IsByteRange range }
        requires room { rooms_in self.old (range.address / 4096) ≡ true }
        ensures number { result ≡ self.old.begun + 1 }
        ensures others { AllGo self.old.oldest (is_crowded_since self.old self.new) self.old self.new (begins (self.old.begun + 1) (Some range)) }
        ensures reads { AllGo self.old.oldest (is_crowded_since self.old self.new) self.old self.new (begins_reading (self.old.begun + 1) (Some range)) }
        ensures begun { self.new.begun ≡ self.old.begun + 1 }
        ensures oldest { self.new.oldest ≡ self.old.oldest }
        ensures pages { KeepsPages self.old self.new }
        ensures state { contents_of self.new ≡ with_request (Some range) (contents_of self.old) }
    {
        self.make_places(range);
        self.begun += 1;
        let crowded = self.begin_each(range);
        self.crowds += one_if(crowded);
        self.begun
    }

    /// A request begins that gives nothing.
    fn begin_other(&mut self) -> u64
        requires few { self.old.begun < 2 ^ 63 }
        ensures number { result ≡ self.old.begun + 1 }
        ensures others { AllGo self.old.oldest (is_crowded_since self.old self.new) self.old self.new (begins (self.old.begun + 1) None) }
        ensures reads { AllGo self.old.oldest (is_crowded_since self.old self.new) self.old self.new (begins_reading (self.old.begun + 1) None) }
        ensures begun { self.new.begun ≡ self.old.begun + 1 }
        ensures oldest { self.new.oldest ≡ self.old.oldest }
        ensures pages { KeepsPages self.old self.new }
        ensures state { contents_of self.new ≡ with_request None (contents_of self.old) }
    {
        self.begun += 1;
        self.begun
    }

    /// A request begins, and may give the bytes of a range, or none; the page of these has room. The answer is its number. Each
    /// byte of the range goes on by `Writes`, each other one by `Others`, or just as well by `Reads`. Where there is no room for a
    /// list any value is let pass there, until all requests have ended that have begun by then, and `crowds` counts this one.
    pub fn begin(&mut self, writes: Option<ByteRange>) -> u64
        requires few { self.old.begun < 2 ^ 63 }
        requires range { IfSome writes (λ range. IsByteRange range) }
        requires room { IfSome writes (λ range. rooms_in self.old (range.address / 4096) ≡ true) }
        ensures number { result ≡ self.old.begun + 1 }
        ensures others { AllGo self.old.oldest (is_crowded_since self.old self.new) self.old self.new (begins result writes) }
        ensures reads { AllGo self.old.oldest (is_crowded_since self.old self.new) self.old self.new (begins_reading result writes) }
        ensures begun { self.new.begun ≡ self.old.begun + 1 }
        ensures oldest { self.new.oldest ≡ self.old.oldest }
        ensures pages { KeepsPages self.old self.new }
        ensures state { contents_of self.new ≡ with_request writes (contents_of self.old) }
    {
        match writes {
            Some(range) => self.begin_writing(range),
            None => self.begin_other(),
        }
    }

    // ---- what becomes of a request

    /// The list of a word changes, if it has one, by what becomes of one request.
    #[inline]
    fn change_at(&mut self, word: u32, change: Change)
        requires { IsOfOne change }
        ensures held { (x : ℕ) → held_in self.new x ≡ held_changed change (x / 8 == word) x (held_in self.old x) }
        ensures rest { KeepsRest self.old self.new }
        ensures state { contents_of self.new ≡ changed change word (contents_of self.old) }
    {
        self.table.change(word, change);
    }

    /// What the request that began at a number gives to the word that an address is in is known: its beat came, or its reply shows
    /// it. It gives these lanes, of which some are known, and the others of the word not.
    #[inline]
    pub fn give(&mut self, number: u64, address: u32, lanes: u8, known: KnownBytes)
        ensures goes { AllGo self.old.oldest false self.old self.new (gives_at number address lanes known) }
        ensures counts { KeepsCounts self.old self.new }
        ensures pages { KeepsPages self.old self.new }
        ensures state { contents_of self.new ≡ given number address lanes known (contents_of self.old) }
    {
        let change = Change::Gives {
            number,
            lanes,
            known,
        };
        self.change_at(address / 8, change);
    }

    /// Each list of a word of a range changes, by what becomes of one request.
    fn change_each(&mut self, range: ByteRange, change: Change)
        requires range { IsByteRange range }
        requires one { IsOfOne change }
        ensures held { (x : ℕ) → held_in self.new x ≡ held_changed change (shares_word range x) x (held_in self.old x) }
        ensures rest { KeepsRest self.old self.new }
        ensures state { contents_of self.new ≡ at_each_word (changed change) range (contents_of self.old) }
    {
        for place in 0..word_count(range) {
            self.change_at(word_at(range, place) / 8, change);
        }
    }

    /// That request takes effect on the bytes of a range: it is whole, and hasn't failed.
    pub fn make_sure(&mut self, number: u64, range: ByteRange)
        requires { IsByteRange range }
        ensures goes { AllGo self.old.oldest false self.old self.new (to_words range (TakesEffect number)) }
        ensures counts { KeepsCounts self.old self.new }
        ensures pages { KeepsPages self.old self.new }
        ensures state { contents_of self.new ≡ made_sure number range (contents_of self.old) }
    {
        self.change_each(range, Change::Sure(number));
    }

    /// That request has failed: it may leave any byte in the range, or none.
    pub fn fail(&mut self, number: u64, range: ByteRange)
        requires { IsByteRange range }
        ensures goes { AllGo self.old.oldest false self.old self.new (to_words range (Fails number)) }
        ensures counts { KeepsCounts self.old self.new }
        ensures pages { KeepsPages self.old self.new }
        ensures state { contents_of self.new ≡ failed number range (contents_of self.old) }
    {
        self.change_each(range, Change::Fails(number));
    }

    /// That request ends, on the bytes of a range.
    pub fn end(&mut self, number: u64, range: ByteRange)
        requires { IsByteRange range }
        ensures goes { AllGo self.old.oldest false self.old self.new (to_words range (Ends number)) }
        ensures counts { KeepsCounts self.old self.new }
        ensures pages { KeepsPages self.old self.new }
        ensures state { contents_of self.new ≡ ended number range (contents_of self.old) }
    {
        self.change_each(range, Change::Ends(number, self.begun));
    }

    /// No request in flight has a smaller number than this.
    fn raise_oldest(&mut self, oldest: u64)
        requires from { self.old.oldest ≤ oldest }
        requires within { oldest ≤ self.old.begun + 1 }
        ensures goes { AllGo oldest false self.old self.new (to_all []) }
        ensures begun { self.new.begun ≡ self.old.begun }
        ensures oldest { self.new.oldest ≡ oldest }
        ensures crowds { self.new.crowds ≡ self.old.crowds }
        ensures pages { KeepsPages self.old self.new }
        ensures state { contents_of self.new ≡ with_oldest oldest (contents_of self.old) }
    {
        self.oldest = oldest;
    }

    /// No request in flight has a smaller number than this, which is none before that was said last, and at most one more than have
    /// begun. Then the lists of the words of a range are kept short on which a request has ended, if it did on one.
    pub fn set_oldest(&mut self, oldest: u64, ended: Option<ByteRange>)
        requires from { self.old.oldest ≤ oldest }
        requires within { oldest ≤ self.old.begun + 1 }
        requires range { IfSome ended (λ range. IsByteRange range) }
        ensures goes { AllGo oldest false self.old self.new (to_all []) }
        ensures begun { self.new.begun ≡ self.old.begun }
        ensures oldest { self.new.oldest ≡ oldest }
        ensures crowds { self.new.crowds ≡ self.old.crowds }
        ensures pages { KeepsPages self.old self.new }
        ensures state { contents_of self.new ≡ kept_short ended (with_oldest oldest (contents_of self.old)) }
    {
        self.raise_oldest(oldest);
        let Some(range) = ended else {
            return;
        };
        self.tidy_each(range);
    }

    /// A reset cuts off all requests that haven't ended: each may have taken effect, and takes none later.
    pub fn reset(&mut self)
        ensures goes { AllGo self.old.oldest false self.old self.new (to_all (Resets ∷ [])) }
        ensures begun { self.new.begun ≡ self.old.begun }
        ensures oldest { self.new.oldest ≡ self.old.begun + 1 }
        ensures crowds { self.new.crowds ≡ self.old.crowds }
        ensures pages { KeepsPages self.old self.new }
        ensures state { contents_of self.new ≡ cut_off (contents_of self.old) }
    {
        self.table.reset(self.begun);
        self.oldest = self.begun + 1;
    }

    // ---- what may be told

    /// In which of some lanes of the word that an address is in the request that began at a number may not be told a payload's
    /// byte, bit i for byte i. No order in which the requests may have taken effect explains such a byte, with all that was told
    /// before. A byte of which nothing was given up is answered as if nothing had been forgotten.
    pub fn wrong_lanes(&self, number: u64, address: u32, payload: u64, lanes: u8) -> u8
        ensures told { (lane : ℕ) → lane < 8 → has_lane result lane ≡ (has_lane lanes lane && not (may_be_told (lane_held self.now address lane) number (lane_byte payload lane))) }
        ensures rightly { (lane : ℕ) → lane < 8 → has_lane result lane ≡ true → IsRightlyBlamed (lane_held self.now address lane) number (lane_byte payload lane) }
        ensures runs { (lane : ℕ) → lane < 8 → has_lane result lane ≡ true → IsBlamedInRuns (lane_held self.now address lane) number (lane_byte payload lane) }
        ensures whole { (lane : ℕ) → lane < 8 → AnswersAsWhole (lane_held self.now address lane) number (lane_byte payload lane) }
    {
        self.told_wrongly(number, address, payload, lanes)
    }

    /// The same lanes.
    #[inline]
    fn told_wrongly(&self, number: u64, address: u32, payload: u64, lanes: u8) -> u8
        ensures { (lane : ℕ) → lane < 8 → has_lane result lane ≡ (has_lane lanes lane && not (may_be_told (lane_held self.now address lane) number (lane_byte payload lane))) }
    {
        match self.table.list(address / 8) {
            Some(list) => list.wrong_lanes(number, payload, lanes),
            None => self.first_list(address).wrong_lanes(number, payload, lanes),
        }
    }

    /// Of which of some lanes of that word this says something: all that the request may be told there is known.
    pub fn compared_lanes(&self, number: u64, address: u32, lanes: u8) -> u8
        ensures { (lane : ℕ) → lane < 8 → has_lane result lane ≡ (has_lane lanes lane && is_compared (lane_held self.now address lane) number) }
    {
        match self.table.list(address / 8) {
            Some(list) => list.compared_lanes(number, lanes),
            None => self.first_list(address).compared_lanes(number, lanes),
        }
    }
}

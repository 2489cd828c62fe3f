//! The bytes of the memory that a request may read and write which is in flight, or has begun.
ghost use Rattle.std.specs.Prelude.{◌≡◌, ◌≢◌, ◌≤◌, ◌<◌, ◌+◌, ◌-◌, ◌*◌, ◌/◌, ◌%◌, ◌^◌, ◌&&◌, ℕ, IfOk, IfSome, false, length, nat_le, nat_lt, not, slice_index_or, true};
ghost use Rattle.bus_words.specs.Lanes.{has_lane, word_address};
ghost use Rattle.tl_messages.specs.Requests.{request_of};
ghost use Rattle.serial_memory.specs.SerialMemory.{IsMemoryRange, doubts_of};
ghost use Rattle.scoreboard.specs.InsideBoards.{determined_in, footprint_of, words_of};
ghost use Rattle.scoreboard.specs.Boards.{kept_from};
ghost use Rattle.scoreboard.specs.FailedBursts.{hit, reaches, shares};
ghost use Rattle.scoreboard.specs.Flights.{no_footprint};
ghost use Rattle.scoreboard.specs.InTurn.{unless_fixed};
ghost use Rattle.scoreboard.specs.Races.{alone, beside, covers, is_fixed, may_read, meets, unless_failed};

use crate::failed_bursts::{Reach, Span};
use data_unit::full_mask;
use serial_memory::SerialMemory;
use std::alloc::{AllocError, Global};
use std::marker::Model;
use tl_messages::{Operation, Request};

/// What a request does to the memory: whether it may read, and write, the `2^size` bytes at an address, whether it has failed, and
/// which of the bytes are determined: of each of its words, a bit for each byte. All room is taken by `new`.
pub(crate) struct Footprint {
    reads: bool,
    writes: bool,
    address: u32,
    size: u8,
    failed: bool,
    determined: Vec<u8>,
}

impl Model for Footprint {
    ghost use Rattle.std.specs.Prelude.{◌≤◌, length};
    ghost use Rattle.serial_memory.specs.SerialMemory.{IsMemoryRange};
    ghost use Rattle.scoreboard.specs.InsideBoards.{FootprintState, words_of};

    ghost Value = { FootprintState };

    ghost view = { λ r. record { reads = r.reads; writes = r.writes; address = r.address; size = r.size; failed = r.failed; determined = r.determined.items } };

    ghost invariant = { λ r. (words_of r.size ≤ length r.determined.items) × IsMemoryRange r.address r.size };
}

// Written out, so that what lets go of one calls this, and proves nothing of its parts.
impl Drop for Footprint {
    fn drop(self) {
        let Footprint {
            reads: _,
            writes: _,
            address: _,
            size: _,
            failed: _,
            determined: _,
        } = self;
    }
}

/// Whether an operation may be carried out as a read: an Intent may, though its reply tells nothing of it; a Put isn't.
fn may_read(operation: Operation) -> bool
    ensures { result ≡ may_read operation }
{
    operation.reply_has_data() || !operation.has_data()
}

impl Footprint {
    /// That of a request of which nobody asks, with room for so many words. The one error is that memory was refused.
    pub(crate) fn new(alloc: Global, room: usize) -> Result<Self, AllocError>
        requires { 1 ≤ room }
        ensures { IfOk result (λ footprint. (footprint_of footprint ≡ no_footprint) × (length footprint.determined ≡ room)) }
    {
        Ok(Footprint {
            reads: false,
            writes: false,
            address: 0,
            size: 0,
            failed: false,
            determined: vec![in alloc; 0; room]?,
        })
    }

    /// Whether it may read its bytes.
    pub(crate) fn reads(&self) -> bool
        ensures { result ≡ self.now.reads }
    {
        self.reads
    }

    /// Whether it may write its bytes.
    pub(crate) fn writes(&self) -> bool
        ensures { result ≡ self.now.writes }
    {
        self.writes
    }

    /// The address of its first byte.
    pub(crate) fn address(&self) -> u32
        ensures value { result ≡ self.now.address }
        ensures range { IsMemoryRange self.now.address self.now.size }
    {
        self.address
    }

    /// How many bytes it has, as a power of two.
    pub(crate) fn size(&self) -> u8
        ensures value { result ≡ self.now.size }
        ensures most { result ≤ 12 }
    {
        self.size
    }

    /// Whether it has failed, so that its reply may tell so in any way.
    pub(crate) fn failed(&self) -> bool
        ensures { result ≡ self.now.failed }
    {
        self.failed
    }

    /// How many bytes it has.
    pub(crate) fn bytes(&self) -> u32
        ensures value { result ≡ 2 ^ self.now.size }
        ensures most { result ≤ 4096 }
        ensures range { IsMemoryRange self.now.address self.now.size }
    {
        1 << self.size
    }

    /// How many words it has a byte of.
    pub(crate) fn words(&self) -> u32
        ensures value { result ≡ words_of self.now.size }
        ensures most { result ≤ 512 }
        ensures range { IsMemoryRange self.now.address self.now.size }
    {
        if self.size < 3 {
            return 1;
        }
        1 << (self.size - 3)
    }

    /// The address of its word `k`, from 0.
    pub(crate) fn word_at(&self, k: u32) -> u32
        requires { k < words_of self.now.size }
        ensures { result ≡ word_address self.now.address + 8 * k }
    {
        let _words = self.words();
        self.address / 8 * 8 + 8 * k
    }

    /// Whether it has the byte at an address.
    pub(crate) fn covers(&self, address: u32) -> bool
        ensures { result ≡ covers (footprint_of self.now) address }
    {
        self.address <= address && address - self.address < self.bytes()
    }

    /// Whether one of its words is at an address.
    fn has_word(&self, word: u32) -> bool
        ensures value { result ≡ (nat_le (self.now.address / 8) (word / 8) && nat_lt (word / 8 - self.now.address / 8) (words_of self.now.size)) }
        ensures range { IsMemoryRange self.now.address self.now.size }
    {
        let words = self.words();
        self.address / 8 <= word / 8 && word / 8 - self.address / 8 < words
    }

    /// Which bytes of the word at an address are its own, bit i for byte i.
    pub(crate) fn lanes_in(&self, word: u32) -> u8
        requires { word % 8 ≡ 0 }
        ensures { (lane : ℕ) → lane < 8 → has_lane result lane ≡ covers (footprint_of self.now) (word + lane) }
    {
        if !self.has_word(word) {
            return 0;
        }
        full_mask(self.address, self.size)
    }

    /// Which bytes of its word `k`, from 0, are determined; those that aren't its own don't count.
    fn mask(&self, k: u32) -> u8
        requires { k < words_of self.now.size }
        ensures { result ≡ slice_index_or self.now.determined k 0 }
    {
        let _words = self.words();
        self.determined[k as usize]
    }

    /// Which bytes of the word at an address are determined, bit i for byte i.
    pub(crate) fn determined_in(&self, word: u32) -> u8
        requires { word % 8 ≡ 0 }
        ensures { (lane : ℕ) → lane < 8 → has_lane result lane ≡ determined_in self.now (word + lane) }
    {
        if !self.has_word(word) {
            return 0;
        }
        self.lanes_in(word) & self.mask(word / 8 - self.address / 8)
    }

    /// Whether it and another have a byte in common.
    pub(crate) fn meets(&self, other: &Footprint) -> bool
        ensures { result ≡ meets (footprint_of self.now) (footprint_of other.now) }
    {
        let end = u64::from(self.address) + u64::from(self.bytes());
        let other_end = u64::from(other.address) + u64::from(other.bytes());
        u64::from(self.address) < other_end && u64::from(other.address) < end
    }

    /// Whether it may read or write, and a burst has one of its bytes.
    pub(crate) fn shares(&self, span: Span) -> bool
        ensures { result ≡ shares span (footprint_of self.now) }
    {
        let end = u64::from(self.address) + u64::from(self.bytes());
        (self.reads || self.writes)
            && u64::from(self.address) <= span.last
            && u64::from(span.first) < end
    }

    /// Whether an event reaches it.
    pub(crate) fn is_reached(&self, reach: Reach) -> bool
        ensures { result ≡ reaches reach (footprint_of self.now) }
    {
        reach.all || self.shares(reach.burst)
    }

    /// It becomes a request that acts at an address, where it acts on a good page, alone.
    pub(crate) fn start(&mut self, marks: &SerialMemory, place: Option<u32>, request: &Request)
        requires range { IfSome place (λ address. IsMemoryRange address request.now.size) }
        requires room { words_of request.now.size ≤ length self.old.determined }
        ensures room { length self.new.determined ≡ length self.old.determined }
        ensures footprint { footprint_of self.new ≡ alone (doubts_of marks.now) place (request_of request.now) }
    {
        let reads = place.is_some() && may_read(request.operation());
        self.start_as(marks, place, request, reads);
    }

    /// The same of one of which all that it reads is known, so that this plays no part.
    pub(crate) fn start_known(
        &mut self,
        marks: &SerialMemory,
        place: Option<u32>,
        request: &Request,
    )
        requires range { IfSome place (λ address. IsMemoryRange address request.now.size) }
        requires room { words_of request.now.size ≤ length self.old.determined }
        ensures room { length self.new.determined ≡ length self.old.determined }
        ensures footprint { footprint_of self.new ≡ record (alone (λ x. false) place (request_of request.now)) { reads = false } }
    {
        self.start_as(marks, place, request, false);
    }

    /// It becomes a request that acts at an address, where it acts on a good page, alone, and reads there or doesn't.
    fn start_as(&mut self, marks: &SerialMemory, place: Option<u32>, request: &Request, reads: bool)
        requires range { IfSome place (λ address. IsMemoryRange address request.now.size) }
        requires room { words_of request.now.size ≤ length self.old.determined }
        ensures room { length self.new.determined ≡ length self.old.determined }
        ensures footprint { footprint_of self.new ≡ record (alone (doubts_of marks.now) place (request_of request.now)) {
          reads = reads;
          determined = λ x. covers (alone (doubts_of marks.now) place (request_of request.now)) x && not (reads && doubts_of marks.now x);
        } }
    {
        self.reads = reads;
        self.writes = place.is_some() && request.operation().has_data();
        self.address = place.unwrap_or(0);
        self.size = request.size();
        self.failed = false;
        self.determine(marks);
    }

    /// Sets which bytes of its word `k`, from 0, are determined.
    fn put(&mut self, k: u32, mask: u8)
        requires { k < words_of self.old.size }
        ensures rest { self.new ≡ record self.old { determined = self.new.determined } }
        ensures room { length self.new.determined ≡ length self.old.determined }
        ensures own { slice_index_or self.new.determined k 0 ≡ mask }
        ensures others { (j : ℕ) → j ≢ k → slice_index_or self.new.determined j 0 ≡ slice_index_or self.old.determined j 0 }
    {
        let _words = self.words();
        self.determined[k as usize] = mask;
    }

    /// Which bytes of its word `k`, from 0, aren't both such as it may read and indeterminate.
    fn known(&self, marks: &SerialMemory, k: u32) -> u8
        requires { k < words_of self.now.size }
        ensures { (lane : ℕ) → lane < 8 → has_lane result lane ≡ not (self.now.reads && doubts_of marks.now (word_address self.now.address + 8 * k + lane)) }
    {
        if !self.reads {
            return 0xff;
        }
        !marks.doubts(self.word_at(k))
    }

    /// All of its bytes are determined, but those that it may read and that are indeterminate.
    fn determine(&mut self, marks: &SerialMemory)
        ensures room { length self.new.determined ≡ length self.old.determined }
        ensures footprint { footprint_of self.new ≡ record (footprint_of self.old) {
          determined = λ x. covers (footprint_of self.old) x && not (self.old.reads && doubts_of marks.now x);
        } }
    {
        for k in 0..self.words() {
            let known = self.known(marks, k);
            self.put(k, known);
        }
    }

    /// What another may write isn't determined.
    pub(crate) fn give_way(&mut self, other: &Footprint)
        ensures footprint { footprint_of self.new ≡ beside (footprint_of self.old) (footprint_of other.now) }
        ensures room { length self.new.determined ≡ length self.old.determined }
    {
        if !other.writes || !self.meets(other) {
            return;
        }
        for k in 0..self.words() {
            let mask = self.mask(k) & !other.lanes_in(self.word_at(k));
            self.put(k, mask);
        }
    }

    /// Of its bytes only those stay determined that are determined of another, and it has failed if that one has.
    pub(crate) fn keep(&mut self, coming: &Footprint)
        ensures footprint { footprint_of self.new ≡ kept_from (footprint_of coming.now) (footprint_of self.old) }
        ensures room { length self.new.determined ≡ length self.old.determined }
    {
        for k in 0..self.words() {
            let mask = self.mask(k) & coming.determined_in(self.word_at(k));
            self.put(k, mask);
        }
        self.failed |= coming.failed;
    }

    /// It has failed: none of its bytes is determined.
    fn fail(&mut self)
        ensures footprint { footprint_of self.new ≡ unless_failed true (footprint_of self.old) }
        ensures room { length self.new.determined ≡ length self.old.determined }
        ensures rest { self.new ≡ record self.old { failed = true; determined = self.new.determined } }
    {
        for k in 0..self.words() {
            self.put(k, 0);
        }
        self.failed = true;
    }

    /// It has failed, if that is so.
    pub(crate) fn fail_if(&mut self, failed: bool)
        ensures footprint { footprint_of self.new ≡ unless_failed failed (footprint_of self.old) }
        ensures room { length self.new.determined ≡ length self.old.determined }
        ensures rest { self.new ≡ record self.old { failed = self.new.failed; determined = self.new.determined } }
    {
        if failed {
            self.fail();
        }
    }

    /// It may have failed, where it shares a byte with a burst that was answered with an error.
    pub(crate) fn hit(&mut self, span: Span)
        ensures footprint { footprint_of self.new ≡ hit span (footprint_of self.old) }
        ensures room { length self.new.determined ≡ length self.old.determined }
    {
        let failed = self.shares(span);
        self.fail_if(failed);
    }

    /// Whether it leaves its bytes the same in every order, where they are determined.
    pub(crate) fn is_fixed(&self) -> bool
        ensures { result ≡ is_fixed (footprint_of self.now) }
    {
        if !self.reads {
            return true;
        }
        for k in 0..self.words() {
            let word = self.word_at(k);
            if self.determined_in(word) != self.lanes_in(word) {
                return false;
            }
        }
        true
    }

    /// What it reads plays no part, where all of that is determined.
    pub(crate) fn forget_reads_if_fixed(&mut self)
        ensures footprint { footprint_of self.new ≡ unless_fixed (footprint_of self.old) }
        ensures room { length self.new.determined ≡ length self.old.determined }
    {
        self.reads = self.reads && !self.is_fixed();
    }

    /// It becomes that of a request of which nobody asks.
    pub(crate) fn clear(&mut self)
        ensures footprint { footprint_of self.new ≡ no_footprint }
        ensures room { length self.new.determined ≡ length self.old.determined }
    {
        self.reads = false;
        self.writes = false;
        self.address = 0;
        self.size = 0;
        self.failed = false;
        self.put(0, 0);
    }
}

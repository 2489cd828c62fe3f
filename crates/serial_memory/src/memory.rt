//! The memory that requests leave which are carried out whole, one at a time.
ghost use Rattle.std.specs.Prelude.{◌≡◌, ◌⊎◌, ◌/◌, ◌%◌, ◌||◌, ℕ, false, true, length, Err, None, IfErr, IfOk, IfSome, OnErr, OnOk};
ghost use Rattle.tl_messages.specs.Requests.{WholeRequest, request_of};
ghost use Rattle.responses.specs.Shown.{shown};
ghost use Rattle.subordinate.specs.Faults.{device_fault, is_good, standing_at};
ghost use Rattle.sparse_memory.specs.Ranges.{faults_of, is_unknown, pages_in};
ghost use Rattle.sparse_memory.specs.SparseMemory.{flags_in, put_flags};
ghost use Rattle.meaning.specs.Meaning.{zeros};
ghost use Rattle.serial_memory.specs.SerialMemory.{HasRoomToGive, IsCheckedRequest};

use crate::FillFault;
use crate::carrying::{answer, place_if_sound, place_of};
use crate::filling::{can_fill, put_each, reserve_each};
use burst_plan::PageMap;
use responses::Gather;
use sparse_memory::{PageRange, SparseMemory};
use std::alloc::{AllocError, Global};
use std::marker::Model;
use tl_messages::{Operation, ReplyBox, Request};

/// The bytes of a word.
const WORD: u8 = 8;

/// A memory on which requests are carried out whole, one at a time, and which keeps of each byte whether it is in doubt. A page takes
/// room by `make_room` and `fill`, and no other call but `new` takes memory.
pub struct SerialMemory {
    map: PageMap,
    pages: SparseMemory,
    gather: Gather,
}

impl Model for SerialMemory {
    ghost use Rattle.std.specs.Prelude.{◌≡◌};
    ghost use Rattle.serial_memory.specs.SerialMemory.{MemoryState};

    ghost Value = { MemoryState };

    ghost view = { λ m. record { regions = m.map; pages = m.pages } };

    ghost invariant = { λ m. m.gather.bus_bytes ≡ 8 };
}

// Written out, so that what lets go of one calls this, and proves nothing of its parts.
impl Drop for SerialMemory {
    fn drop(self) {
        let SerialMemory {
            map: _,
            pages: _,
            gather: _,
        } = self;
    }
}

impl SerialMemory {
    ghost use Rattle.serial_memory.specs.declared.FillFault.TheVariants.{NoMemory, Place};
    ghost use Rattle.serial_memory.specs.SerialMemory.{byte_at, can_fill, carried_out, doubts_of, filled, is_page_of, known_from, lacks_room, meaning_in, memory_of, on_good_page, place_at, place_given, place_in, rooms_of, some_lacks_room};

    /// The memory behind a page map, of these ranges of pages and bad words, which `memory_fault` doesn't refuse; all bytes are zero,
    /// and those of ranges of unknown bytes are in doubt. No page has room. The one error is that memory was refused.
    pub fn new(
        alloc: Global,
        map: PageMap,
        ranges: &[PageRange],
        bad_words: &[u32],
    ) -> Result<Self, AllocError>
        requires fine { device_fault (pages_in ranges.now) bad_words.now ≡ None }
        ensures memory { IfOk result (λ memory. memory_of memory ≡ record { regions = map; faults = faults_of ranges.now bad_words.now; bytes = zeros }) }
        ensures doubts { IfOk result (λ memory. doubts_of memory ≡ (λ address. is_unknown ranges.now (address / 4096))) }
        ensures rooms { IfOk result (λ memory. (page : ℕ) → rooms_of memory page ≡ false) }
    {
        let pages = SparseMemory::new(alloc, ranges, bad_words)?;
        let gather = Gather::new(alloc, WORD)?;
        Ok(SerialMemory { map, pages, gather })
    }

    /// The bytes from an address on become these, and are known, as a tester says what the memory began with. It fails only where one
    /// of them is of no good page, or memory was refused for the page of one, which has no room; then no byte has changed, and none is
    /// known that wasn't.
    pub fn fill(&mut self, address: u32, bytes: &[u8]) -> Result<(), FillFault>
        ensures memory { OnOk result (memory_of self.new ≡ filled (memory_of self.old) address bytes.now) }
        ensures doubts { OnOk result (doubts_of self.new ≡ known_from (doubts_of self.old) address (length bytes.now)) }
        ensures refused { OnErr result ((memory_of self.new ≡ memory_of self.old) × (doubts_of self.new ≡ doubts_of self.old)) }
        ensures rooms { (page : ℕ) → rooms_of self.old page ≡ true → rooms_of self.new page ≡ true }
        ensures place { can_fill (memory_of self.old).faults address (length bytes.now) ≡ false → result ≡ Err Place }
        ensures no_fault { OnOk result (can_fill (memory_of self.old).faults address (length bytes.now) ≡ true) }
        ensures err { IfErr result (λ fault. ((can_fill (memory_of self.old).faults address (length bytes.now) ≡ false) × (fault ≡ Place))
            ⊎ ((can_fill (memory_of self.old).faults address (length bytes.now) ≡ true) × (fault ≡ NoMemory))) }
        ensures cause { IfErr result (λ fault. fault ≡ NoMemory → some_lacks_room (rooms_of self.old) address (length bytes.now) ≡ true) }
    {
        if !can_fill(&self.pages, address, bytes.len()) {
            return Err(FillFault::Place);
        }
        if reserve_each(&mut self.pages, address, bytes.len()).is_err() {
            return Err(FillFault::NoMemory);
        }
        put_each(&mut self.pages, address, bytes);
        Ok(())
    }

    /// Makes room for the page at which an operation acts, where it gives bytes, and the page is a good one that has none. The one error
    /// is that memory was refused for this page; then nothing has changed.
    pub fn make_room(&mut self, operation: Operation, address: u32) -> Result<(), AllocError>
        ensures memory { memory_of self.new ≡ memory_of self.old }
        ensures doubts { doubts_of self.new ≡ doubts_of self.old }
        ensures refused { OnErr result (self.new ≡ self.old) }
        ensures cause { OnErr result (lacks_room (rooms_of self.old) (place_given (memory_of self.old) operation address) ≡ true) }
        ensures room { OnOk result ((q : WholeRequest) → q.operation ≡ operation → q.address ≡ address → HasRoomToGive self.new q) }
        ensures rooms { OnOk result ((page : ℕ) → rooms_of self.new page ≡ (rooms_of self.old page || is_page_of page (place_given (memory_of self.old) operation address))) }
    {
        if !operation.has_data() {
            return Ok(());
        }
        let Some(place) = self.map.translate(operation, address) else {
            return Ok(());
        };
        if !self.pages.is_good(place) {
            return Ok(());
        }
        self.pages.reserve(place)
    }

    /// The byte at an address of a good page; none outside these.
    pub fn byte(&self, address: u32) -> Option<u8>
        ensures { result ≡ byte_at (memory_of self.now) address }
    {
        self.pages.byte(address)
    }

    /// Whether it is sure that no byte is in doubt.
    pub fn knows_all(&self) -> bool
        ensures { result ≡ true → (x : ℕ) → doubts_of self.now x ≡ false }
    {
        self.pages.knows_all()
    }

    /// Which bytes of the word that an address is in are in doubt, bit i for byte i.
    pub fn doubts(&self, address: u32) -> u8
        ensures { result ≡ flags_in (doubts_of self.now) address }
    {
        self.pages.doubts(address)
    }

    /// Sets whether the strobed bytes of the word that an address is in are in doubt, bit i for byte i. The page has room.
    pub fn put_doubts(&mut self, address: u32, doubts: u8, strobes: u8)
        requires room { rooms_of self.old (address / 4096) ≡ true }
        ensures memory { memory_of self.new ≡ memory_of self.old }
        ensures doubts { doubts_of self.new ≡ put_flags address doubts strobes (doubts_of self.old) }
        ensures rooms { rooms_of self.new ≡ rooms_of self.old }
    {
        self.pages.put_doubts(address, doubts, strobes);
    }

    /// An address, where its page is good.
    fn if_good(&self, address: Option<u32>) -> Option<u32>
        ensures place { result ≡ on_good_page (memory_of self.now).faults address }
        ensures same_byte { (byte : ℕ) → IfSome address (λ found. found % 4096 ≡ byte) → IfSome result (λ found. found % 4096 ≡ byte) }
        ensures good { IfSome result (λ found. is_good (standing_at (memory_of self.now).faults found) ≡ true) }
    {
        let address = address?;
        if !self.pages.is_good(address) {
            return None;
        }
        Some(address)
    }

    /// The address of a good page at which a request acts; none where it acts on no good page.
    pub fn place(&self, request: &Request) -> Option<u32>
        ensures place { result ≡ place_in (memory_of self.now) (request_of request.now) }
        ensures same_byte { IfSome result (λ address. address % 4096 ≡ request.now.address % 4096) }
        ensures good { IfSome result (λ address. is_good (standing_at (memory_of self.now).faults address) ≡ true) }
    {
        self.if_good(place_of(&self.map, request))
    }

    /// The address of a good page at which a request would act were it not corrupt; none where it would act on no good page.
    pub fn place_if_sound(&self, request: &Request) -> Option<u32>
        ensures place { result ≡ place_in (memory_of self.now) (record (request_of request.now) { corrupt = false }) }
        ensures same_byte { IfSome result (λ address. address % 4096 ≡ request.now.address % 4096) }
        ensures good { IfSome result (λ address. is_good (standing_at (memory_of self.now).faults address) ≡ true) }
    {
        self.if_good(place_if_sound(&self.map, request))
    }

    /// The address of a good page at which an operation acts that is asked at an address; none where it acts on no good page. A request
    /// that isn't corrupt acts where its operation does.
    pub fn place_at(&self, operation: Operation, address: u32) -> Option<u32>
        ensures { result ≡ place_at (memory_of self.now) operation address }
    {
        self.if_good(self.map.translate(operation, address))
    }

    /// Carries out a request that a checker let pass, whole and at once, and puts the beats of its reply into a box.
    pub fn carry_out(&mut self, request: &Request, reply: &mut ReplyBox)
        requires checked { IsCheckedRequest request.now }
        requires room { HasRoomToGive self.old (request_of request.now) }
        ensures reply { reply.new ≡ shown (request_of request.now) (meaning_in (memory_of self.old) (request_of request.now)).reply }
        ensures memory { memory_of self.new ≡ carried_out (memory_of self.old) (request_of request.now) }
        ensures doubts { doubts_of self.new ≡ doubts_of self.old }
        ensures rooms { rooms_of self.new ≡ rooms_of self.old }
    {
        answer(&self.map, &mut self.pages, &mut self.gather, request);
        self.gather.reply_into(reply);
    }
}

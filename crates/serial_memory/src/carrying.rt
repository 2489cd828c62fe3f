//! A request is carried out whole, word by word, and its reply gathered.
ghost use Rattle.std.specs.Prelude.{◌≡◌, ◌+◌, ◌*◌, ◌/◌, ◌%◌, ◌<◌, true, false, length, if◌then◌else◌, None, Some, IfSome, IsTrue};
ghost use Rattle.std.specs.List.{enumerate_from};
ghost use Rattle.tl_messages.specs.Operations.{has_data};
ghost use Rattle.tl_messages.specs.Requests.{bytes_given, request_of};
ghost use Rattle.tl_messages.specs.declared.Operation.TheVariants.{Atomic};
ghost use Rattle.burst_plan.specs.PageMap.{address_of};
ghost use Rattle.responses.specs.Answers.{after_reads};
ghost use Rattle.responses.specs.Gathered.{after_b, gathered, outline_of, reads_of};
ghost use Rattle.subordinate.specs.Faults.{is_bad, is_good, standing_at, write_response};
ghost use Rattle.sparse_memory.specs.SparseMemory.{bytes_in, faults_in, has_room};
ghost use Rattle.meaning.specs.Meaning.{Bytes, effect, meaning, with_bytes};
ghost use Rattle.serial_memory.specs.InsideSerial.{IsFresh, IsWrittenAlone, put_below, word_answered, words_read};
ghost use Rattle.serial_memory.specs.SerialMemory.{HasRoomToGive, IsCheckedRequest, IsMemoryRange};

use axi_beats::{RBeat, Resp};
use burst_plan::PageMap;
use data_unit::{atomic_number, full_mask, place};
use responses::Gather;
use sparse_memory::SparseMemory;
use tl_messages::{AtomicOp, Operation, Request};

/// What the memory answers to the read of the word that an address is in.
fn word_answered(pages: &SparseMemory, address: u32) -> RBeat
    ensures { result ≡ word_answered pages.now address }
{
    let resp = pages.read_response(address);
    let payload = match resp {
        Resp::Okay => pages.word(address),
        _ => 0,
    };
    RBeat {
        id: 0,
        payload,
        resp,
        last: false,
    }
}

/// Gathers the words of a range of `2^size` bytes, in order.
fn read_words(pages: &SparseMemory, gather: &mut Gather, address: u32, size: u8)
    requires range { IsMemoryRange address size }
    requires outline { gather.old.outline.size ≡ size }
    requires bus { gather.old.bus_bytes ≡ 8 }
    ensures { gather.new ≡ record gather.old {
      gathering = after_reads 8 gather.old.outline (enumerate_from 0 (words_read pages.now address 0 (reads_of 8 gather.old.outline))) gather.old.gathering;
    } }
{
    for place in 0..gather.reads() {
        let beat = word_answered(pages, address + u32::from(place) * 8);
        gather.on_r(&beat, place);
    }
}

/// Puts what beat `k` of a request gives, where those before it are put.
fn put_beat(pages: &mut SparseMemory, request: &Request, address: u32, k: u16)
    requires sound { IsCheckedRequest request.now }
    requires data { IsTrue (has_data request.now.operation) }
    requires same_byte { address % 4096 ≡ request.now.address % 4096 }
    requires room { has_room pages.old (address / 4096) ≡ true }
    requires beat { k < length request.now.beats }
    ensures rest { IsWrittenAlone pages.old pages.new }
    ensures bytes { (m : Bytes) → bytes_in pages.old ≡ put_below (address + k * 8) m address (bytes_given request.now)
        → bytes_in pages.new ≡ put_below (address + (k + 1) * 8) m address (bytes_given request.now) }
{
    pages.put_word(address + u32::from(k) * 8, request.word(k), request.mask(k));
}

/// Puts the bytes that a request gives at an address of a good page.
fn put_bytes(pages: &mut SparseMemory, request: &Request, address: u32)
    requires sound { IsCheckedRequest request.now }
    requires data { IsTrue (has_data request.now.operation) }
    requires same_byte { address % 4096 ≡ request.now.address % 4096 }
    requires room { has_room pages.old (address / 4096) ≡ true }
    ensures rest { IsWrittenAlone pages.old pages.new }
    ensures bytes { bytes_in pages.new ≡ with_bytes (bytes_in pages.old) address (bytes_given request.now) }
{
    for k in 0..request.beats() {
        put_beat(pages, request, address, k);
    }
}

/// Carries a Put out: its bytes are put where the page is good, and the response is gathered.
fn put(pages: &mut SparseMemory, gather: &mut Gather, request: &Request, address: u32, resp: Resp)
    requires sound { IsCheckedRequest request.now }
    requires data { IsTrue (has_data request.now.operation) }
    requires same_byte { address % 4096 ≡ request.now.address % 4096 }
    requires response { resp ≡ write_response (standing_at (faults_in pages.old) address) }
    requires room { is_good (standing_at (faults_in pages.old) address) ≡ true → has_room pages.old (address / 4096) ≡ true }
    ensures gather { gather.new ≡ record gather.old { gathering = after_b (write_response (standing_at (faults_in pages.old) address)) gather.old.gathering } }
    ensures rest { IsWrittenAlone pages.old pages.new }
    ensures good { is_good (standing_at (faults_in pages.old) address) ≡ true → bytes_in pages.new ≡ with_bytes (bytes_in pages.old) address (bytes_given request.now) }
    ensures other { is_good (standing_at (faults_in pages.old) address) ≡ false → bytes_in pages.new ≡ bytes_in pages.old }
{
    if resp == Resp::Okay {
        put_bytes(pages, request, address);
    }
    gather.on_b(resp);
}

/// Carries an atomic out: its old value is gathered, and where it was found its result is put.
fn change(
    pages: &mut SparseMemory,
    gather: &mut Gather,
    op: AtomicOp,
    request: &Request,
    address: u32,
)
    requires sound { IsCheckedRequest request.now }
    requires operation { request.now.operation ≡ Atomic op }
    requires same_byte { address % 4096 ≡ request.now.address % 4096 }
    requires fresh { IsFresh gather.old request.now }
    requires room { is_good (standing_at (faults_in pages.old) address) ≡ true → has_room pages.old (address / 4096) ≡ true }
    ensures gather { gather.new ≡ record gather.old {
      gathering = after_reads 8 gather.old.outline (enumerate_from 0 (words_read pages.old address 0 (reads_of 8 gather.old.outline))) gather.old.gathering;
    } }
    ensures rest { IsWrittenAlone pages.old pages.new }
    ensures bytes { bytes_in pages.new
        ≡ (effect (faults_in pages.old) (request_of request.now) (bytes_in pages.old) address (Atomic op) (standing_at (faults_in pages.old) address) (is_bad (faults_in pages.old) address)).after }
{
    read_words(pages, gather, address, request.size());
    let Some(old) = gather.old_value() else {
        return;
    };
    let word = place(atomic_number(op, request, old), address, request.size());
    pages.put_word(address, word, full_mask(address, request.size()));
}

/// Carries a request out at its address of the memory.
fn perform(pages: &mut SparseMemory, gather: &mut Gather, request: &Request, address: u32)
    requires sound { IsCheckedRequest request.now }
    requires same_byte { address % 4096 ≡ request.now.address % 4096 }
    requires fresh { IsFresh gather.old request.now }
    requires room { has_data request.now.operation ≡ true → is_good (standing_at (faults_in pages.old) address) ≡ true → has_room pages.old (address / 4096) ≡ true }
    ensures bus { gather.new.bus_bytes ≡ 8 }
    ensures outline { gather.new.outline ≡ outline_of (request_of request.now) }
    ensures reply { gathered (outline_of (request_of request.now)) gather.new.gathering
        ≡ (effect (faults_in pages.old) (request_of request.now) (bytes_in pages.old) address request.now.operation (standing_at (faults_in pages.old) address) (is_bad (faults_in pages.old) address)).reply }
    ensures rest { IsWrittenAlone pages.old pages.new }
    ensures bytes { bytes_in pages.new
        ≡ (effect (faults_in pages.old) (request_of request.now) (bytes_in pages.old) address request.now.operation (standing_at (faults_in pages.old) address) (is_bad (faults_in pages.old) address)).after }
{
    let resp = pages.write_response(address);
    match request.operation() {
        Operation::PutFull | Operation::PutPartial => put(pages, gather, request, address, resp),
        Operation::Atomic(op) => change(pages, gather, op, request, address),
        Operation::Get => read_words(pages, gather, address, request.size()),
        Operation::Intent(_) => {}
    }
}

/// The AXI address of a request; none where it is corrupt, or where it leads nowhere.
pub(crate) fn place_of(map: &PageMap, request: &Request) -> Option<u32>
    ensures place { result ≡ address_of map.now (request_of request.now) }
    ensures same_byte { IfSome result (λ address. address % 4096 ≡ request.now.address % 4096) }
{
    if request.corrupt() {
        return None;
    }
    place_if_sound(map, request)
}

/// The AXI address that a request would have were it not corrupt; none where it leads nowhere.
pub(crate) fn place_if_sound(map: &PageMap, request: &Request) -> Option<u32>
    ensures place { result ≡ address_of map.now (record (request_of request.now) { corrupt = false }) }
    ensures same_byte { IfSome result (λ address. address % 4096 ≡ request.now.address % 4096) }
{
    map.translate(request.operation(), request.address())
}

/// Carries a request out, and gathers its reply.
pub(crate) fn answer(
    map: &PageMap,
    pages: &mut SparseMemory,
    gather: &mut Gather,
    request: &Request,
)
    requires sound { IsCheckedRequest request.now }
    requires bus { gather.old.bus_bytes ≡ 8 }
    requires room { HasRoomToGive (record { regions = map.now; pages = pages.old }) (request_of request.now) }
    ensures bus { gather.new.bus_bytes ≡ 8 }
    ensures outline { gather.new.outline ≡ outline_of (request_of request.now) }
    ensures reply { gathered (outline_of (request_of request.now)) gather.new.gathering ≡ (meaning (faults_in pages.old) map.now (request_of request.now) (bytes_in pages.old)).reply }
    ensures rest { IsWrittenAlone pages.old pages.new }
    ensures bytes { bytes_in pages.new ≡ (meaning (faults_in pages.old) map.now (request_of request.now) (bytes_in pages.old)).after }
{
    let Some(address) = place_of(map, request) else {
        gather.start(request, true);
        return;
    };
    gather.start(request, false);
    perform(pages, gather, request, address);
}

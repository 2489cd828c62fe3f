//! A memory of pages listed as ranges, by what no clause says: how much memory a set-up takes, and that a page which was refused its
//! room gets it when it is asked for again. And worked values.
ghost use Rattle.std.specs.Prelude.{◌≡◌, ◌≤◌, ◌/◌, true, length, OnOk};
ghost use Rattle.subordinate.specs.Faults.{is_good, standing_at};
ghost use Rattle.sparse_memory.specs.SparseMemory.{faults_in, has_room};

use super::same;
use axi_beats::Resp;
use sparse_memory::{PageRange, RangeKind, SparseMemory, memory_fault};
use std::alloc::AllocError;
use std::fs;
use std::process::Abort;
use std::rt::Files;
use std::test::Fail;
use subordinate::DeviceFault;

/// All pages of 32-bit addresses.
const ALL: [PageRange; 1] = [PageRange {
    first: 0,
    count: 1_048_576,
    kind: RangeKind::Unknown,
}];

/// Two pages of zeros, one of which nobody knows what it has, and behind a gap one that answers with an error.
const FOUR: [PageRange; 3] = [
    PageRange {
        first: 0x10,
        count: 2,
        kind: RangeKind::Zeros,
    },
    PageRange {
        first: 0x12,
        count: 1,
        kind: RangeKind::Unknown,
    },
    PageRange {
        first: 0x14,
        count: 1,
        kind: RangeKind::SlaveError,
    },
];

const BAD: [u32; 1] = [0x11ff8];

/// A range of pages that start as zero.
fn zeros(first: u32, count: u32) -> PageRange {
    PageRange {
        first,
        count,
        kind: RangeKind::Zeros,
    }
}

/// The memory of these ranges and bad words, none of which is at fault.
fn memory_of<R: Abort + AllocGlobal>(
    rt: &R,
    ranges: &[PageRange],
    bad_words: &[u32],
) -> Result<SparseMemory, AllocError>
    requires { length bad_words.now ≤ 64 }
{
    assert_eq!(rt; memory_fault(ranges, bad_words), None);
    SparseMemory::new(rt.alloc(), ranges, bad_words)
}

/// Asks for room on a good page, and if it is refused once more: nothing has changed then.
fn reserve_again(rt: &impl Abort, memory: &mut SparseMemory, address: u32) -> Result<(), AllocError>
    ensures room { OnOk result (has_room memory.new (address / 4096) ≡ true) }
{
    assert!(rt; memory.is_good(address));
    let before = (memory.byte(address), memory.doubts(address));
    if memory.reserve(address).is_ok() {
        return Ok(());
    }
    let after = (memory.byte(address), memory.doubts(address));
    same(rt, address, after, before);
    memory.reserve(address)
}

/// How many pages of 4,096 bytes the addresses of this process take, as Linux counts them.
fn process_pages<R: Files + AllocGlobal>(rt: &R) -> Result<u64, Fail> {
    let text = fs::read_to_string(rt, "/proc/self/statm")?;
    let Some(word) = text.as_str().split(' ').next() else {
        return Err(Fail::new("no count of pages"));
    };
    Ok(word.parse::<u64>()?)
}

/// A memory of 4 GB takes no room but for its ranges, and for the pages that are asked for.
#[test]
fn four_gigabytes(rt: HostRuntime) -> Result<(), Fail> {
    let before = process_pages(&rt)?;
    let mut memory = memory_of(&rt, &ALL, &[])?;
    for address in [0, 0x7fff_fff8, 0xffff_fff8] {
        same(&rt, address, memory.byte(address), Some(0));
        same(&rt, address, memory.doubts(address), 0xff);
        reserve_again(&rt, &mut memory, address)?;
    }
    let taken = process_pages(&rt)?.saturating_sub(before);
    same(&rt, taken, taken < 64, true);
    Ok(())
}

/// A page that is refused its room is what it was, and gets it when it is asked for again; with room it asks for no memory.
/// `tests/refusals.py` refuses each growth in turn, and counts them.
#[test]
fn reserved_again(rt: HostRuntime) -> Result<(), Fail> {
    let mut memory = memory_of(&rt, &FOUR, &BAD)?;
    for (address, doubts) in [(0x10008, 0), (0x12ff8, 0xff)] {
        same(&rt, address, memory.doubts(address), doubts);
        reserve_again(&rt, &mut memory, address)?;
        same(&rt, address, memory.word(address), 0);
        same(&rt, address, memory.doubts(address), doubts);
        memory.put_word(address, 0x1122_3344_5566_7788, 0x0f);
        memory.put_doubts(address, 0x02, 0x03);
        same(&rt, address, memory.word(address), 0x5566_7788);
        same(&rt, address, memory.doubts(address), doubts & 0xfc | 0x02);
        for _ in 0..100u8 {
            reserve_again(&rt, &mut memory, address)?;
        }
        same(&rt, address, memory.word(address), 0x5566_7788);
    }
    Ok(())
}

/// Addresses, the response to a write and to a read there, and whether nobody knows their bytes: the pages of the ranges, those
/// beside them, and the word that is bad.
const ANSWERS: [(u32, Resp, Resp, bool); 9] = [
    (0xffff, Resp::DecErr, Resp::DecErr, false),
    (0x10000, Resp::Okay, Resp::Okay, false),
    (0x11ff7, Resp::Okay, Resp::Okay, false),
    (0x11fff, Resp::Okay, Resp::SlvErr, false),
    (0x12000, Resp::Okay, Resp::Okay, true),
    (0x12fff, Resp::Okay, Resp::Okay, true),
    (0x13000, Resp::DecErr, Resp::DecErr, false),
    (0x14000, Resp::SlvErr, Resp::SlvErr, false),
    (0x15000, Resp::DecErr, Resp::DecErr, false),
];

#[test]
fn answers(rt: HostRuntime) -> Result<(), Fail> {
    let memory = memory_of(&rt, &FOUR, &BAD)?;
    for (address, write, read, doubt) in ANSWERS {
        same(&rt, address, memory.write_response(address), write);
        same(&rt, address, memory.read_response(address), read);
        same(
            &rt,
            address,
            memory.doubts(address),
            if doubt { 0xff } else { 0 },
        );
        let byte = memory.byte(address).is_some();
        same(&rt, address, byte, write == Resp::Okay);
    }
    Ok(())
}

/// Without pages of unknown bytes all is known until a byte is marked, of which no clause says anything.
#[test]
fn known_at_first(rt: HostRuntime) -> Result<(), Fail> {
    let unknown = memory_of(&rt, &FOUR, &[])?;
    same(&rt, "unknown bytes", unknown.knows_all(), false);
    let mut memory = memory_of(&rt, &[zeros(0x10, 1)], &[])?;
    same(&rt, "zeros", memory.knows_all(), true);
    reserve_again(&rt, &mut memory, 0x10008)?;
    memory.put_doubts(0x10008, 0xf0, 0x0f);
    let none = (memory.knows_all(), memory.doubts(0x10008));
    same(&rt, "no lane", none, (true, 0));
    memory.put_doubts(0x10008, 0xf0, 0x10);
    let one = (memory.knows_all(), memory.doubts(0x10008));
    same(&rt, "a lane", one, (false, 0x10));
    Ok(())
}

/// Has the test fail where the first fault of these lists isn't this one.
fn same_fault(rt: &impl Abort, ranges: &[PageRange], bad_words: &[u32], fault: Option<DeviceFault>)
    requires { length bad_words.now ≤ 64 }
{
    same(rt, fault, memory_fault(ranges, bad_words), fault);
}

/// Lists that make no memory, and some that make one: pages are counted over all ranges.
#[test]
fn refused(rt: HostRuntime) {
    use DeviceFault::{BadWord, PageTwice};
    let beyond = DeviceFault::PageRange;
    same_fault(&rt, &[], &[], None);
    // A bad word in no page, in one that answers with an error, and one that isn't aligned.
    same_fault(&rt, &[], &[0], Some(BadWord(0)));
    same_fault(&rt, &FOUR, &[0x14000], Some(BadWord(0)));
    same_fault(&rt, &FOUR, &[0x10000, 0x10004], Some(BadWord(1)));
    // An empty range, and ranges that meet.
    same_fault(&rt, &[zeros(9, 0), zeros(7, 4)], &[], None);
    let meeting = [zeros(4, 4), zeros(0, 4), zeros(8, 1)];
    same_fault(&rt, &meeting, &[], None);
    // A page beyond 32 bits, a page twice, and the last page twice before one beyond.
    let long = [zeros(1, 1_048_576)];
    same_fault(&rt, &long, &[], Some(beyond(1_048_575)));
    let twice = [zeros(4, 4), zeros(0, 5)];
    same_fault(&rt, &twice, &[], Some(PageTwice(8)));
    let last = [zeros(0, 1_048_576), zeros(0xf_ffff, 2)];
    same_fault(&rt, &last, &[], Some(PageTwice(1_048_576)));
}

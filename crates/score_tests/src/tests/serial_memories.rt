//! A memory on which requests are carried out whole, by requests that a port took: worked values, and what no clause says.
ghost use Rattle.std.specs.Prelude.{IfOk};
ghost use Rattle.serial_memory.specs.SerialMemory.{IsCheckedRequest};

use super::{GET, PUT, REGION, same};
use burst_plan::PageMap;
use serial_memory::{FillFault, SerialMemory};
use sparse_memory::{PageRange, RangeKind, memory_fault};
use std::alloc::Global;
use std::process::Abort;
use std::test::Fail;
use tl_checker::{Level, Port, Progress};
use tl_messages::{ABeat, ReplyBox, Request};

/// AXI page 0x10, whose bytes nobody knows, and one that answers with an error.
const RANGES: [PageRange; 2] = [
    PageRange {
        first: 0x10,
        count: 1,
        kind: RangeKind::Unknown,
    },
    PageRange {
        first: 0x11,
        count: 1,
        kind: RangeKind::SlaveError,
    },
];

/// A Put to the page that answers with an error.
const FAILING: ABeat = ABeat {
    address: 0x1008,
    ..PUT
};

/// The memory of these ranges, none of which is at fault.
fn memory_of<R: Abort + AllocGlobal>(rt: &R, ranges: &[PageRange]) -> Result<SerialMemory, Fail> {
    let Ok(map) = PageMap::new(rt.alloc(), &[REGION]) else {
        return Err(Fail::new("a page map"));
    };
    assert_eq!(rt; memory_fault(ranges, &[]), None);
    Ok(SerialMemory::new(rt.alloc(), map, ranges, &[])?)
}

/// The request of one beat, as a port takes it.
fn asked(alloc: Global, beat: &ABeat) -> Result<Request, Fail>
    ensures { IfOk result (λ request. IsCheckedRequest request) }
{
    let mut port = Port::new(alloc, 0, Level::Uh, 12)?;
    let mut request = Request::new(alloc)?;
    let Ok(Progress::Whole) = port.take_beat(beat, false) else {
        return Err(Fail::new("a beat that makes no request"));
    };
    port.take_whole(&mut request);
    Ok(request)
}

/// Carries out the request of one beat, which acts at this address of a good page, if at any, and answers whether that is denied, and
/// the data.
fn answer(
    rt: &impl Abort,
    serial: &mut SerialMemory,
    reply: &mut ReplyBox,
    alloc: Global,
    beat: &ABeat,
    place: Option<u32>,
) -> Result<(bool, u64), Fail> {
    let request = asked(alloc, beat)?;
    same(rt, place, serial.place(&request), place);
    same(rt, place, serial.place_if_sound(&request), place);
    serial.make_room(request.operation(), request.address())?;
    serial.carry_out(&request, reply);
    match reply.as_slice() {
        [told] => Ok((told.denied, told.payload)),
        _ => Err(Fail::new("a reply that isn't one beat")),
    }
}

/// A byte that a Put gave is read back, though nobody knew it before; and what a page answers with an error changes nothing.
#[test]
fn carried_out(rt: HostRuntime) -> Result<(), Fail> {
    let alloc = rt.alloc();
    let mut serial = memory_of(&rt, &RANGES)?;
    let mut reply = ReplyBox::new(alloc)?;
    same(&rt, "unknown", serial.byte(0x10008), Some(0));
    same(&rt, "unknown", serial.doubts(0x10008), 0xff);
    same(&rt, "on no good page", serial.byte(0x11008), None);
    let place = Some(0x10008);
    let told = answer(&rt, &mut serial, &mut reply, alloc, &PUT, place)?;
    same(&rt, "a Put", told, (false, 0));
    let told = answer(&rt, &mut serial, &mut reply, alloc, &FAILING, None)?;
    same(&rt, "a Put that fails", told, (true, 0));
    let place = Some(0x1000c);
    let told = answer(&rt, &mut serial, &mut reply, alloc, &GET, place)?;
    same(&rt, "a Get", told, (false, 0x1122_3344_0000_0000));
    same(&rt, "the last lane", serial.byte(0x1000f), Some(0x11));
    Ok(())
}

/// Without pages of unknown bytes all is known, until a byte is marked.
#[test]
fn known_at_first(rt: HostRuntime) -> Result<(), Fail> {
    let unknown = memory_of(&rt, &RANGES)?;
    same(&rt, "unknown bytes", unknown.knows_all(), false);
    let known = memory_of(&rt, &[RANGES[1]])?;
    same(&rt, "an error page", known.knows_all(), true);
    Ok(())
}

/// Bytes that a tester gives are known, and none is taken where one of them is on no good page.
#[test]
fn filled(rt: HostRuntime) -> Result<(), Fail> {
    let mut serial = memory_of(&rt, &RANGES)?;
    let refused = Err(FillFault::Place);
    same(&rt, 1, serial.fill(0x10ffd, &[1, 2, 3]), Ok(()));
    same(&rt, 2, serial.fill(0x10fff, &[4, 5]), refused);
    same(&rt, 3, serial.fill(0xffff_ffff, &[6, 7]), refused);
    same(&rt, 4, serial.fill(0x11000, &[]), Ok(()));
    let bytes = [0x10ffc, 0x10ffd, 0x10ffe, 0x10fff].map(|at| serial.byte(at));
    same(&rt, 5, bytes, [Some(0), Some(1), Some(2), Some(3)]);
    let doubts = (serial.doubts(0x10fff), serial.doubts(0x10ff7));
    same(&rt, 6, doubts, (0x1f, 0xff));
    Ok(())
}

//! What one byte may be told while writers race for it, and once they have ended.
ghost use Rattle.std.specs.Prelude.{◌≡◌};
ghost use Rattle.value_memory.specs.ValueMemory.{IsByteRange};

use crate::{ByteRange, ValueMemory};
use byte_values::KnownBytes;
use serial_memory::FillFault;
use sparse_memory::{PageRange, RangeKind, memory_fault};
use std::alloc::Global;
use std::test::Fail;

/// More requests than a test begins.
const MANY: u64 = 1000;

/// Words so far apart have their lists on one shelf of the table.
const APART: u32 = 449 * 8;

/// Sixteen pages of zeros.
fn zeros(alloc: Global) -> Result<ValueMemory, Fail> {
    let pages = [PageRange {
        first: 0,
        count: 16,
        kind: RangeKind::Zeros,
    }];
    if memory_fault(&pages, &[]).is_some() {
        return Err("no memory of such pages".into());
    }
    Ok(ValueMemory::new(alloc, &pages, &[])?)
}

/// The byte at an address.
fn byte_at(address: u32) -> ByteRange
    ensures range { IsByteRange result }
    ensures address { result.address ≡ address }
{
    ByteRange { address, size: 0 }
}

/// A request begins that may give the byte at an address.
fn begin(memory: &mut ValueMemory, address: u32) -> Result<u64, Fail> {
    if memory.begun() >= MANY {
        return Err("too many".into());
    }
    if !memory.is_good(address) {
        return Err("no good page".into());
    }
    memory.make_room(address)?;
    Ok(memory.begin(Some(byte_at(address))))
}

/// It gives a byte in lane 0, and takes effect.
fn give(memory: &mut ValueMemory, number: u64, address: u32, value: u64) {
    memory.give(number, address, 1, KnownBytes { value, lanes: 1 });
    memory.make_sure(number, byte_at(address));
}

/// No request is in flight any more.
fn all_have_ended(memory: &mut ValueMemory) {
    let next = memory.begun() + 1;
    memory.set_oldest(next, None);
}

/// Which of some bytes a request that begins now may be told at an address, of lane 0.
fn told(memory: &mut ValueMemory, address: u32, values: &[u64]) -> Result<u64, Fail> {
    if memory.begun() >= MANY {
        return Err("too many".into());
    }
    let number = memory.begin(None);
    let mut set = 0;
    for value in values {
        if memory.wrong_lanes(number, address, *value, 1) == 0 {
            set |= 1 << (*value % 64);
        }
    }
    Ok(set)
}
/// One in flight may have taken effect or not; of two that raced either may be told once both have ended, and a third hides both.
#[test]
fn writers_race(rt: HostRuntime) -> Result<(), Fail> {
    let mut memory = zeros(rt.alloc())?;
    let values = [0, 1, 2, 3, 4];
    let one = begin(&mut memory, 8)?;
    assert_eq!(rt; told(&mut memory, 8, &values)?, 0b11111);
    give(&mut memory, one, 8, 1);
    assert_eq!(rt; told(&mut memory, 8, &values)?, 0b00011);
    memory.end(one, byte_at(8));
    assert_eq!(rt; told(&mut memory, 8, &values)?, 0b00010);
    let two = begin(&mut memory, 8)?;
    let three = begin(&mut memory, 8)?;
    give(&mut memory, two, 8, 2);
    give(&mut memory, three, 8, 3);
    memory.end(two, byte_at(8));
    memory.end(three, byte_at(8));
    assert_eq!(rt; told(&mut memory, 8, &values)?, 0b01100);
    let four = begin(&mut memory, 8)?;
    give(&mut memory, four, 8, 4);
    assert_eq!(rt; told(&mut memory, 8, &values)?, 0b11100);
    memory.end(four, byte_at(8));
    assert_eq!(rt; told(&mut memory, 8, &values)?, 0b10000);
    assert_eq!(rt; told(&mut memory, 16, &values)?, 0b00001);
    assert_eq!(rt; memory.crowds(), 0);
    Ok(())
}

/// What has failed may leave any byte, until another hides it; what a reset cuts off may have left its byte.
#[test]
fn failed_and_cut_off(rt: HostRuntime) -> Result<(), Fail> {
    let mut memory = zeros(rt.alloc())?;
    let values = [0, 1, 2, 3];
    let one = begin(&mut memory, 8)?;
    memory.give(one, 8, 1, KnownBytes { value: 1, lanes: 1 });
    memory.fail(one, byte_at(8));
    memory.end(one, byte_at(8));
    assert_eq!(rt; told(&mut memory, 8, &values)?, 0b1111);
    let two = begin(&mut memory, 8)?;
    give(&mut memory, two, 8, 2);
    memory.end(two, byte_at(8));
    assert_eq!(rt; told(&mut memory, 8, &values)?, 0b0100);
    let three = begin(&mut memory, 8)?;
    give(&mut memory, three, 8, 3);
    memory.reset();
    assert_eq!(rt; told(&mut memory, 8, &values)?, 0b1100);
    Ok(())
}

/// Where a shelf is full a byte is given up: it allows any value, until all that had begun by then have ended, and nobody knows it
/// until it is given again.
#[test]
fn shelf_is_full(rt: HostRuntime) -> Result<(), Fail> {
    let mut memory = zeros(rt.alloc())?;
    for k in 0..9u32 {
        let number = begin(&mut memory, k * APART)?;
        give(&mut memory, number, k * APART, 1);
    }
    assert_eq!(rt; memory.crowds(), 1);
    assert_eq!(rt; memory.compared_lanes(10, 8 * APART, 3), 2);
    assert_eq!(rt; memory.compared_lanes(10, 7 * APART, 3), 3);
    for k in 0..9u32 {
        memory.end(u64::from(k) + 1, byte_at(k * APART));
    }
    all_have_ended(&mut memory);
    let number = begin(&mut memory, 8 * APART)?;
    give(&mut memory, number, 8 * APART, 1);
    memory.end(number, byte_at(8 * APART));
    assert_eq!(rt; told(&mut memory, 8 * APART, &[0, 1, 2])?, 0b010);
    assert_eq!(rt; memory.crowds(), 1);
    Ok(())
}

/// A thirteenth writer of one word makes all of its bytes such that allow any value.
#[test]
fn list_is_full(rt: HostRuntime) -> Result<(), Fail> {
    let mut memory = zeros(rt.alloc())?;
    for k in 1..=13u64 {
        let number = begin(&mut memory, 8)?;
        give(&mut memory, number, 8, k);
    }
    assert_eq!(rt; memory.crowds(), 1);
    assert_eq!(rt; told(&mut memory, 8, &[0, 1, 40])?, 1 << 40 | 0b11);
    assert_eq!(rt; told(&mut memory, 16, &[0, 1])?, 0b01);
    Ok(())
}

/// Bytes with which the memory begins are known, and stay until one is given; no byte is filled of a page that isn't there.
#[test]
fn filled_bytes(rt: HostRuntime) -> Result<(), Fail> {
    let mut memory = zeros(rt.alloc())?;
    if memory.begun() != 0 {
        return Err("some have begun".into());
    }
    assert_eq!(rt; memory.fill(0x1_0000, &[1]), Err(FillFault::Place));
    if memory.begun() != 0 {
        return Err("some have begun".into());
    }
    assert!(rt; memory.fill(16, &[2, 3]).is_ok());
    let values = [0, 1, 2, 3];
    assert_eq!(rt; told(&mut memory, 16, &values)?, 0b0100);
    assert_eq!(rt; told(&mut memory, 8, &values)?, 0b0001);
    let one = begin(&mut memory, 16)?;
    give(&mut memory, one, 16, 1);
    memory.end(one, byte_at(16));
    assert_eq!(rt; told(&mut memory, 16, &values)?, 0b0010);
    Ok(())
}

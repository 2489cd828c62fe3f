//! Single calls of a world in which requests are in flight.
use crate::worlds::{Load, PUT, busy_world, made, offer_of, world_of};
use std::alloc::Global;
use tl_messages::ReplyBox;
use world::Step;

/// How often a step that changes nothing is answered so.
fn repeated(alloc: Global, load: Load, step: Step) -> Option<u64> {
    let mut reply = ReplyBox::new(alloc).ok()?;
    let mut world = busy_world(alloc, &mut reply, load.size)?;
    let mut kept = 0u64;
    for _ in 0..load.times {
        kept = kept.wrapping_add(u64::from(!made(&mut world, &mut reply, step)));
    }
    Some(kept)
}

/// Pumps where no request is ready.
pub(crate) fn pump_idle(alloc: Global, load: Load) -> Option<u64> {
    repeated(alloc, load, Step::Pump)
}

/// Offers a beat whose source is busy.
pub(crate) fn offer_again(alloc: Global, load: Load) -> Option<u64> {
    repeated(alloc, load, offer_of(0, PUT))
}

/// Takes where no request is done.
pub(crate) fn take_nothing(alloc: Global, load: Load) -> Option<u64> {
    repeated(alloc, load, Step::Take(0))
}

/// Pumps where no request is ready, and asks how many requests are in flight.
pub(crate) fn ask_in_flight(alloc: Global, load: Load) -> Option<u64> {
    let mut reply = ReplyBox::new(alloc).ok()?;
    let mut world = busy_world(alloc, &mut reply, load.size)?;
    let mut sum = 0u64;
    for _ in 0..load.times {
        made(&mut world, &mut reply, Step::Pump);
        sum = sum.wrapping_add(u64::from(world.in_flight()));
    }
    Some(sum)
}

/// Pumps where no request is ready, and asks for the work that is left.
pub(crate) fn ask_work(alloc: Global, load: Load) -> Option<u64> {
    let mut reply = ReplyBox::new(alloc).ok()?;
    let mut world = busy_world(alloc, &mut reply, load.size)?;
    let mut sum = 0u64;
    for _ in 0..load.times {
        made(&mut world, &mut reply, Step::Pump);
        sum = sum.wrapping_add(world.work_left());
    }
    Some(sum)
}

/// Asks how many steps bridge and memory can make by themselves.
pub(crate) fn ask_choices(alloc: Global, load: Load) -> Option<u64> {
    let mut reply = ReplyBox::new(alloc).ok()?;
    let world = busy_world(alloc, &mut reply, load.size)?;
    let mut sum = 0u64;
    for _ in 0..load.times {
        sum = sum.wrapping_add(u64::from(world.choices()));
    }
    Some(sum)
}

/// Asks which are the steps that bridge and memory can make by themselves, one after another.
pub(crate) fn ask_choice(alloc: Global, load: Load) -> Option<u64> {
    let mut reply = ReplyBox::new(alloc).ok()?;
    let world = busy_world(alloc, &mut reply, load.size)?;
    let mut found = 0u64;
    for turn in 0..load.times {
        let count = world.choices();
        let is_beat = count > 0 && matches!(world.choose(turn % count), Step::Perform(_, _));
        found = found.wrapping_add(u64::from(is_beat));
    }
    Some(found)
}

/// Asks for bytes of the last page.
pub(crate) fn ask_byte(alloc: Global, load: Load) -> Option<u64> {
    let world = world_of(alloc, load.size)?;
    let address = (63 + load.size.min(64)) * 4096;
    let mut sum = 0u64;
    for k in 0..load.times {
        let byte = world.byte(address + k % 4096);
        sum = sum.wrapping_add(u64::from(byte.unwrap_or(1)));
    }
    Some(sum)
}

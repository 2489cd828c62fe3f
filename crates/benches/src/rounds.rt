//! Requests from their offer until their reply.
use crate::worlds::{GET, Load, PUT, made, offer_of, offered, world_of};
use std::alloc::Global;
use tl_messages::ReplyBox;
use world::{Step, World};

/// Takes all replies, and answers how many there were.
fn taken(world: &mut World, reply: &mut ReplyBox, count: u32) -> u64 {
    let mut replies = 0u64;
    for k in 0..count.min(64) {
        if made(world, reply, Step::Take((k % 8) as u8)) {
            replies = replies.wrapping_add(1);
        }
    }
    replies
}

/// So many requests at a time: they are offered, drained and taken.
fn in_turns(alloc: Global, load: Load, opcode: u8) -> Option<u64> {
    let mut reply = ReplyBox::new(alloc).ok()?;
    let mut world = world_of(alloc, 64)?;
    let mut replies = 0u64;
    for _ in 0..load.times {
        offered(&mut world, &mut reply, load.size, opcode);
        world.drain();
        replies = replies.wrapping_add(taken(&mut world, &mut reply, load.size));
    }
    Some(replies)
}

/// Puts of eight bytes, so many in flight.
pub(crate) fn requests(alloc: Global, load: Load) -> Option<u64> {
    in_turns(alloc, load, PUT)
}

/// Gets of eight bytes, so many in flight.
pub(crate) fn drains(alloc: Global, load: Load) -> Option<u64> {
    in_turns(alloc, load, GET)
}

/// A Get of eight bytes of the page of this number, from its offer until its reply.
fn read_page(world: &mut World, reply: &mut ReplyBox, page: u32) -> bool {
    made(world, reply, offer_of(page, GET));
    world.drain();
    made(world, reply, Step::Take((page % 8) as u8))
}

/// Gets of the last page, each from its offer until its reply, in a world of so many pages.
pub(crate) fn reads(alloc: Global, load: Load) -> Option<u64> {
    let mut reply = ReplyBox::new(alloc).ok()?;
    let mut world = world_of(alloc, load.size)?;
    let last = load.size.min(64).saturating_sub(1);
    let mut replies = 0u64;
    for _ in 0..load.times {
        replies = replies.wrapping_add(u64::from(read_page(&mut world, &mut reply, last)));
    }
    Some(replies)
}

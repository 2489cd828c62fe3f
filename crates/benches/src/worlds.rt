//! The worlds that workloads are done in.
use bridge_core::Config;
use burst_plan::Region;
use std::alloc::Global;
use subordinate::PageKind;
use tl_checker::Level;
use tl_messages::{ABeat, ReplyBox};
use world::{Answer, Setup, Step, World};

/// How large a workload is, 1 to 64: live requests, open bursts or pages; and how often it is done.
#[derive(Clone, Copy)]
pub(crate) struct Load {
    pub(crate) size: u32,
    pub(crate) times: u32,
}

/// Eight clients of eight live requests each, 16 IDs with four bursts on each side, a bus of eight bytes.
fn config() -> Config {
    Config {
        clients: 8,
        quota: 8,
        ids: 16,
        depth: 4,
        max_len: 256,
        max_size: 12,
        levels: [Level::Uh; 8],
        axi_bytes: 8,
    }
}

/// A set-up of so many good pages.
fn setup_of(pages: u32) -> Option<Setup> {
    let mut setup = Setup::new(config());
    let region = Region {
        tl_page: 0,
        pages: 64,
        axi_page: 64,
        get: true,
        put: true,
        atomic: true,
        hint: true,
    };
    setup.regions.try_push(region).ok()?;
    for page in 0..pages.min(64) {
        setup.pages.try_push((64 + page, PageKind::Good)).ok()?;
    }
    Some(setup)
}

/// A world of so many good pages.
pub(crate) fn world_of(alloc: Global, pages: u32) -> Option<World> {
    let setup = setup_of(pages)?;
    World::new(alloc, &setup).ok()
}

/// Client `k % 8` offers a beat of eight bytes with source `k / 8`, to the page and the word of that number.
pub(crate) fn offer_of(k: u32, opcode: u8) -> Step {
    let beat = ABeat {
        opcode,
        param: 0,
        size: 3,
        source: (k / 8 % 8) as u8,
        address: k % 64 * 4096 + k % 64 * 8,
        mask: 255,
        payload: u64::from(k),
        corrupt: false,
    };
    Step::Offer((k % 8) as u8, beat)
}

/// The opcode of a Get.
pub(crate) const GET: u8 = 4;

/// The opcode of a Put of whole words.
pub(crate) const PUT: u8 = 0;

/// Whether a step changed the world.
pub(crate) fn made(world: &mut World, reply: &mut ReplyBox, step: Step) -> bool {
    matches!(
        world.step(&step, reply),
        Answer::Accepted(_)
            | Answer::Sent(_)
            | Answer::Done
            | Answer::B(_)
            | Answer::R(_)
            | Answer::Reply(_)
    )
}

/// Offers so many requests, and answers how many were accepted.
pub(crate) fn offered(world: &mut World, reply: &mut ReplyBox, count: u32, opcode: u8) -> u64 {
    let mut accepted = 0u64;
    for k in 0..count.min(64) {
        if made(world, reply, offer_of(k, opcode)) {
            accepted = accepted.wrapping_add(1);
        }
    }
    accepted
}

/// A world with so many requests in flight, each on a page of its own, of which each sent what it may.
pub(crate) fn busy_world(alloc: Global, reply: &mut ReplyBox, count: u32) -> Option<World> {
    let mut world = world_of(alloc, 64)?;
    offered(&mut world, reply, count, PUT);
    for _ in 0..64u32 {
        made(&mut world, reply, Step::Pump);
    }
    Some(world)
}

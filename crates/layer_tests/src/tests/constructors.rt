//! What takes memory. Each test makes one thing: it is there, or the memory for it was refused, and then the fault that says so
//! is the test's error. `tests/refusals.py` refuses each growth of these tests in turn.
use super::bench::*;
use axi_beats::BurstBox;
use axi_checker::Monitor;
use bridge_core::Bridge;
use burst_plan::PageMap;
use flight_table::Flight;
use responses::Gather;
use std::test::Fail;
use subordinate::{Device, PageKind};
use tl_checker::{Level, Port};
use tl_messages::{ReplyBox, Request};
use world::{Setup, SetupFault, Step, World};
use world_run::{opened, run};

#[test]
fn request(rt: HostRuntime) -> Result<(), Fail> {
    Request::new(rt.alloc())?;
    Ok(())
}

#[test]
fn reply_box(rt: HostRuntime) -> Result<(), Fail> {
    ReplyBox::new(rt.alloc())?;
    Ok(())
}

#[test]
fn burst_box(rt: HostRuntime) -> Result<(), Fail> {
    BurstBox::new(rt.alloc())?;
    Ok(())
}

#[test]
fn port(rt: HostRuntime) -> Result<(), Fail> {
    Port::new(rt.alloc(), 0, Level::Uh, 12)?;
    Ok(())
}

#[test]
fn monitor(rt: HostRuntime) -> Result<(), Fail> {
    Monitor::new(rt.alloc(), 16, 4, 8)?;
    Ok(())
}

#[test]
fn page_map(rt: HostRuntime) -> Result<(), Fail> {
    PageMap::new(rt.alloc(), &[FOUR_PAGES, ALIAS])?;
    Ok(())
}

#[test]
fn flight(rt: HostRuntime) -> Result<(), Fail> {
    Flight::new(rt.alloc(), 8, 8, 16, 4)?;
    Ok(())
}

#[test]
fn gather(rt: HostRuntime) -> Result<(), Fail> {
    Gather::new(rt.alloc(), 8)?;
    Ok(())
}

/// Its map takes memory too, and answers so by the same name.
#[test]
fn bridge(rt: HostRuntime) -> Result<(), Fail> {
    let map = PageMap::new(rt.alloc(), &[FOUR_PAGES])?;
    Bridge::new(rt.alloc(), config_of(USUAL), map)?;
    Ok(())
}

#[test]
fn device(rt: HostRuntime) -> Result<(), Fail> {
    let pages = [(0x10, PageKind::Good), (0x11, PageKind::SlaveError)];
    Device::new(rt.alloc(), 8, &pages, &[0x10018])?;
    Ok(())
}

/// The set-up of some lists, which are short enough for it.
fn given(lists: Lists) -> Result<Setup, SetupFault> {
    set_up(lists).ok_or(SetupFault::BadConfig)
}

#[test]
fn world(rt: HostRuntime) -> Result<(), Fail> {
    World::new(rt.alloc(), &given(PLAIN)?)?;
    Ok(())
}

/// The same world by the call that tells of the order: nothing is in flight, and every byte is zero.
#[test]
fn opened_world(rt: HostRuntime) -> Result<(), Fail> {
    let world = opened(rt.alloc(), &given(PLAIN)?)?;
    assert_eq!(rt; (world.in_flight(), world.byte(0x10000)), (0, Some(0)));
    Ok(())
}

/// A run takes memory for what it records too.
#[test]
fn a_run(rt: HostRuntime) -> Result<(), Fail> {
    let put = a_beat(Put(3, 0, 8, 7));
    let steps = [
        Step::Offer(0, put),
        Step::Pump,
        Step::Perform(0, 0),
        Step::AnswerB(0),
        Step::Take(0),
    ];
    let ran = run(rt.alloc(), &given(PLAIN)?, &steps)?;
    assert_eq!(rt; ran.answers.last(), Some(&Reply(0)));
    Ok(())
}

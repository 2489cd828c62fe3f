//! The checkers of the ports, a beat at a time.
use crate::worlds::Load;
use axi_beats::{ArBeat, AwBeat, BBeat, RBeat, Resp, WBeat};
use axi_checker::Monitor;
use std::alloc::Global;
use tl_checker::{Level, Port};
use tl_messages::ABeat;

/// The type of a burst whose addresses rise, INCR (AXI4, A3.4.1).
const INCR: u8 = 1;

/// A read of one transfer under an ID.
fn read_of(id: u8) -> ArBeat {
    ArBeat {
        id,
        address: 0,
        len: 0,
        size: 3,
        burst: INCR,
    }
}

/// A monitor with so many reads open.
fn open_monitor(alloc: Global, count: u32) -> Option<Monitor> {
    let mut monitor = Monitor::new(alloc, 16, 4, 8).ok()?;
    for k in 0..count.min(64) {
        monitor.ar(&read_of((k % 16) as u8)).ok()?;
    }
    Some(monitor)
}

/// The answer to the oldest read of an ID.
fn answer_of(id: u8) -> RBeat {
    RBeat {
        id,
        payload: 0,
        resp: Resp::Okay,
        last: true,
    }
}

/// Reads that are answered and asked for again, while so many are open.
pub(crate) fn monitor(alloc: Global, load: Load) -> Option<u64> {
    let mut monitor = open_monitor(alloc, load.size)?;
    let mut taken = 0u64;
    for _ in 0..load.times {
        taken = taken.wrapping_add(u64::from(
            monitor.r(&answer_of(0)).is_ok() && monitor.ar(&read_of(0)).is_ok(),
        ));
    }
    Some(taken)
}

/// A write of one transfer under an ID.
fn write_of(id: u8) -> AwBeat {
    AwBeat {
        id,
        address: 0,
        len: 0,
        size: 3,
        burst: INCR,
    }
}

/// The data of such a write.
const DATA: WBeat = WBeat {
    payload: 0,
    strobes: 255,
    last: true,
};

/// Takes the address of a write under an ID, and its data.
fn takes_write(monitor: &mut Monitor, id: u8) -> bool {
    monitor.aw(&write_of(id)).is_ok() && monitor.w(&DATA).is_ok()
}

/// Writes that are answered and sent again, while so many are open.
pub(crate) fn writes(alloc: Global, load: Load) -> Option<u64> {
    let mut monitor = Monitor::new(alloc, 16, 4, 8).ok()?;
    for k in 0..load.size.min(64) {
        takes_write(&mut monitor, (k % 16) as u8);
    }
    let answer = BBeat {
        id: 0,
        resp: Resp::Okay,
    };
    let mut taken = 0u64;
    for _ in 0..load.times {
        let answered = monitor.b(&answer).is_ok();
        taken = taken.wrapping_add(u64::from(answered && takes_write(&mut monitor, 0)));
    }
    Some(taken)
}

/// A Get of eight bytes.
fn get() -> ABeat {
    ABeat {
        opcode: 4,
        param: 0,
        size: 3,
        source: 0,
        address: 0,
        mask: 255,
        payload: 0,
        corrupt: false,
    }
}

/// Gets on a port, which keeps nothing of them.
pub(crate) fn port(alloc: Global, load: Load) -> Option<u64> {
    let mut port = Port::new(alloc, 0, Level::Uh, 12).ok()?;
    let mut taken = 0u64;
    for _ in 0..load.times {
        port.clear_whole();
        taken = taken.wrapping_add(u64::from(port.take_beat(&get(), false).is_ok()));
    }
    Some(taken)
}

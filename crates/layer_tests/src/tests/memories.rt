//! A memory alone: a write and a read of the same words at once, which no bridge sends, and bursts that break a rule.
use super::same;
use axi_beats::{ArBeat, AwBeat, BBeat, BurstBox, Resp, WBeat};
use axi_checker::AxiRule;
use std::alloc::{AllocError, Global};
use std::test::Fail;
use subordinate::{Device, PageKind, Performed};

const PAGES: [(u32, PageKind); 1] = [(0x10, PageKind::Good)];

/// A write of two words from 10000 on, which are 1 and 2.
const AW: AwBeat = AwBeat {
    id: 0,
    address: 0x10000,
    len: 1,
    size: 3,
    burst: 1,
};

const ONE: WBeat = WBeat {
    payload: 1,
    strobes: 0xff,
    last: false,
};

const TWO: WBeat = WBeat {
    payload: 2,
    strobes: 0xff,
    last: true,
};

/// A read of both.
const AR: ArBeat = ArBeat {
    id: 0,
    address: 0x10000,
    len: 1,
    size: 3,
    burst: 1,
};

/// A box with a write.
fn write(alloc: Global, aw: AwBeat, data: &[WBeat]) -> Result<BurstBox, AllocError> {
    let mut held = BurstBox::new(alloc)?;
    if data.len() <= 256 {
        held.set_write(aw, data);
    }
    Ok(held)
}

/// A box with that read.
fn read(alloc: Global) -> Result<BurstBox, AllocError> {
    let mut held = BurstBox::new(alloc)?;
    held.set_read(AR);
    Ok(held)
}

/// What becomes of a box: its serial, or the rule that its burst breaks, which it comes back with. None where it is empty, or
/// the box of a closed burst waits to be taken back.
fn send(device: &mut Device, held: BurstBox) -> Option<Result<u64, (AxiRule, AwBeat)>> {
    if held.is_empty() || device.closed() > 0 || device.sent() >= 1 << 60 {
        return None;
    }
    match device.send_box(held) {
        Ok(serial) => Some(Ok(serial)),
        Err(refused) if refused.burst.is_write() => Some(Err((refused.rule, refused.burst.aw()))),
        Err(_) => None,
    }
}

/// Whether beats, of which each is told by its burst's serial and its place, are performed in this order.
fn performs(device: &mut Device, beats: &[(u64, u16)]) -> bool {
    for (serial, beat) in beats {
        if device.perform(*serial, *beat) != Performed::Done {
            return false;
        }
    }
    true
}

/// The payload of the next R of ID 0, and whether it is the last of its burst; none where there is no R, or it isn't OKAY.
fn next_data(device: &mut Device) -> Option<(u64, bool)> {
    let beat = device.answer_r(0)?;
    if beat.resp == Resp::Okay {
        Some((beat.payload, beat.last))
    } else {
        None
    }
}

#[test]
fn beats_performed_in_turn(rt: HostRuntime) -> Result<(), Fail> {
    let alloc = rt.alloc();
    let memory = Device::new(alloc, 8, &PAGES, &[]);
    let mut device = memory.expect(&rt, "a memory");
    let sent = send(&mut device, write(alloc, AW, &[ONE, TWO])?);
    same(&rt, "the write", sent, Some(Ok(0)));
    same(
        &rt,
        "the read",
        send(&mut device, read(alloc)?),
        Some(Ok(1)),
    );
    assert!(rt; performs(&mut device, &[(1, 1), (0, 1)]));
    let seen = (device.byte(0x10008), device.answer_b(0));
    same(&rt, "with half of the write", seen, (Some(2), None));
    assert!(rt; performs(&mut device, &[(0, 0), (1, 0)]));
    same(&rt, "data", next_data(&mut device), Some((1, false)));
    same(&rt, "last data", next_data(&mut device), Some((0, true)));
    let resp = Resp::Okay;
    let response = device.answer_b(0);
    same(&rt, "response", response, Some(BBeat { id: 0, resp }));
    let again = (device.perform(0, 0), device.closed());
    same(&rt, "closed", again, (Performed::NoSuch, 2));
    Ok(())
}

#[test]
fn a_burst_that_breaks_a_rule_comes_back(rt: HostRuntime) -> Result<(), Fail> {
    let wide = AwBeat {
        len: 0,
        size: 4,
        ..AW
    };
    let memory = Device::new(rt.alloc(), 8, &PAGES, &[]);
    let mut device = memory.expect(&rt, "a memory");
    for (aw, data, rule) in [
        (AW, [ONE].as_slice(), AxiRule::WLast),
        (wide, [TWO].as_slice(), AxiRule::Size),
    ] {
        let sent = send(&mut device, write(rt.alloc(), aw, data)?);
        same(&rt, rule, sent, Some(Err((rule, aw))));
    }
    let after = (device.sent(), device.pending(), device.byte(0x10000));
    same(&rt, "nothing changed", after, (0, 0, Some(0)));
    Ok(())
}

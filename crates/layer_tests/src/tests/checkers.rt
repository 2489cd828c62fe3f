//! The checkers alone: what a beat that they refuse leaves.
use super::same;
use axi_beats::{AwBeat, WBeat};
use axi_checker::{AxiRule, Monitor};
use std::test::Fail;
use tl_checker::{Level, Port, Progress, TlRule};
use tl_messages::ABeat;

/// A write of two transfers of four bytes, the first of which has lane 3 alone.
const AW: AwBeat = AwBeat {
    id: 0,
    address: 0x10003,
    len: 1,
    size: 2,
    burst: 1,
};

/// A W beat with these strobes.
fn w(strobes: u8, last: bool) -> WBeat {
    WBeat {
        payload: 0,
        strobes,
        last,
    }
}

#[test]
fn a_refused_w_leaves_its_burst(rt: HostRuntime) -> Result<(), Fail> {
    let mut monitor = Monitor::new(rt.alloc(), 1, 1, 8)?;
    same(&rt, "the address", monitor.aw(&AW), Ok(()));
    for (case, strobes, last, answer) in [
        ("a strobe behind lane 3", 0x10, false, Err(AxiRule::Strobe)),
        ("lane 3", 0x08, false, Ok(())),
        ("lanes 4 to 7, not last", 0xf0, false, Err(AxiRule::WLast)),
        ("lanes 4 to 7", 0xf0, true, Ok(())),
        ("one more", 0xf0, true, Err(AxiRule::WWithoutAw)),
    ] {
        same(&rt, case, monitor.w(&w(strobes, last)), answer);
    }
    Ok(())
}

/// A beat of a Put of sixteen bytes at 0.
fn put(mask: u8, corrupt: bool) -> ABeat {
    ABeat {
        opcode: 0,
        param: 0,
        size: 4,
        source: 2,
        address: 0,
        mask,
        payload: 7,
        corrupt,
    }
}

/// What a port answers to a beat; none where a whole message stands on it.
fn take(port: &mut Port, beat: &ABeat) -> Option<Result<Progress, TlRule>> {
    if port.whole().is_some() {
        return None;
    }
    Some(port.take_beat(beat, false))
}

#[test]
fn a_refused_beat_leaves_its_message(rt: HostRuntime) -> Result<(), Fail> {
    let mut port = Port::new(rt.alloc(), 0, Level::Uh, 12)?;
    for (case, mask, corrupt, answer) in [
        ("the first beat", 0xff, false, Ok(Progress::More)),
        ("a lane is missing", 0x7f, false, Err(TlRule::Mask)),
        ("the last beat is corrupt", 0xff, true, Ok(Progress::Whole)),
    ] {
        same(
            &rt,
            case,
            take(&mut port, &put(mask, corrupt)),
            Some(answer),
        );
    }
    assert!(rt; matches!(port.whole(), Some(request) if request.corrupt()));
    Ok(())
}

//! Calls that no program makes, each once.
use super::same;
use axi_beats::{AwBeat, BurstBox, WBeat};
use bus_words::{mask_of, payload_of};
use std::test::Fail;
use tl_messages::{ABeat, Request};

#[test]
fn of_lanes(rt: HostRuntime) {
    let odd = [false, true, false, true, false, true, false, true];
    same(&rt, "odd lanes", mask_of(odd), 0xaa);
    let given = [None, None, None, Some(0xaa), None, None, None, None];
    same(&rt, "lane 3", payload_of(given), 0xaa000000);
}

const AW: AwBeat = AwBeat {
    id: 3,
    address: 0x10008,
    len: 0,
    size: 3,
    burst: 1,
};

const W: WBeat = WBeat {
    payload: 7,
    strobes: 0xff,
    last: true,
};

#[test]
fn of_a_box(rt: HostRuntime) -> Result<(), Fail> {
    let mut held = BurstBox::new(rt.alloc())?;
    held.set_write(AW, &[W]);
    assert!(rt; held.aw() == AW && held.w_beats() == 1 && held.w(0) == W);
    Ok(())
}

/// A Get of eight bytes at 8.
const GET: ABeat = ABeat {
    opcode: 4,
    param: 0,
    size: 3,
    source: 5,
    address: 8,
    mask: 0xff,
    payload: 0,
    corrupt: false,
};

#[test]
fn of_a_request(rt: HostRuntime) -> Result<(), Fail> {
    let mut request = Request::new(rt.alloc())?;
    request.begin(1, &GET);
    let mut copy = Request::new(rt.alloc())?;
    copy.copy_from(&request);
    let head = (copy.client(), copy.source(), copy.address());
    same(&rt, "a copy", head, (1, 5, 8));
    Ok(())
}

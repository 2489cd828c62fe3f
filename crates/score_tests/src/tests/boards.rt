//! A board of each policy: what a text doesn't ask of it.
use super::{ACK, DATA, GET, PUT, REGION, SEEN, board_set_up, same};
use axi_beats::{ArBeat, AwBeat, WBeat};
use axi_checker::{AxiBeat, AxiRule};
use burst_plan::{MapFault, Region};
use scoreboard::{
    Errors, FillFault, ObservedBeat, Policy, ReplyRule, Scoreboard, Telling, Wrong, can_fill,
};
use setups::SetupFault;
use sparse_memory::{PageRange, RangeKind};
use std::test::Fail;
use tl_checker::TlRule;
use tl_messages::DBeat;

const POLICIES: [Policy; 2] = [Policy::AcceptanceOrder, Policy::RealTime];

#[test]
fn what_is_left_after_each_beat(rt: HostRuntime) -> Result<(), Fail> {
    let setup = board_set_up(REGION).expect(&rt, "room");
    for policy in POLICIES {
        let mut board = Scoreboard::new(rt.alloc(), policy, Errors::Strict, &setup)?;
        for (place, (seen, outstanding, open)) in SEEN.iter().enumerate() {
            let case = (policy, place);
            same(&rt, case, board.judge(seen)?, None);
            let left = (board.outstanding(), board.open_bursts());
            same(&rt, case, left, (*outstanding, *open));
        }
    }
    Ok(())
}

const WRITE: AwBeat = AwBeat {
    id: 2,
    address: 0x10008,
    len: 0,
    size: 3,
    burst: 1,
};

const READ: ArBeat = ArBeat {
    id: 1,
    address: 0x10008,
    len: 0,
    size: 3,
    burst: 1,
};

/// A write and a read under way, a request whose reply is due, and nothing else; and none of them once all is reset.
#[test]
fn what_has_no_answer(rt: HostRuntime) -> Result<(), Fail> {
    let setup = board_set_up(REGION).expect(&rt, "room");
    for policy in POLICIES {
        let mut board = Scoreboard::new(rt.alloc(), policy, Errors::Strict, &setup)?;
        for seen in [
            ObservedBeat::A(1, GET),
            ObservedBeat::Axi(AxiBeat::Aw(WRITE)),
            ObservedBeat::Axi(AxiBeat::Ar(READ)),
        ] {
            same(&rt, policy, board.judge(&seen)?, None);
        }
        same(&rt, policy, board.clients(), 2);
        let due = [0, 1, 2].map(|client| board.source_due(client, 0));
        same(&rt, policy, due, [None, Some(GET.source), None]);
        same(&rt, policy, board.source_due(1, 1), None);
        let ids = (board.open_write(0), board.open_read(0));
        same(&rt, policy, ids, (Some(WRITE.id), Some(READ.id)));
        let more = (board.open_write(1), board.open_read(1));
        same(&rt, policy, more, (None, None));
        board.reset();
        let left = (board.outstanding(), board.open_bursts());
        same(&rt, policy, left, (0, 0));
    }
    Ok(())
}

#[test]
fn bytes_from_the_request_on(rt: HostRuntime) -> Result<(), Fail> {
    let setup = board_set_up(REGION).expect(&rt, "room");
    for policy in POLICIES {
        let mut board = Scoreboard::new(rt.alloc(), policy, Errors::Strict, &setup)?;
        same(&rt, policy, board.byte(0x1000f), Some(0));
        same(&rt, policy, board.judge(&ObservedBeat::A(0, PUT))?, None);
        for (address, byte) in [
            (0x10007, Some(0)),
            (0x10008, Some(0x88)),
            (0x1000f, Some(0x11)),
            (0x14000, None),
        ] {
            same(&rt, (policy, address), board.byte(address), byte);
        }
    }
    Ok(())
}

/// Four pages whose bytes nobody knows: a Get of them may be told anything, until a Put gave them.
const TOLD: [(ObservedBeat, Option<Wrong>); 8] = [
    (ObservedBeat::A(1, GET), None),
    (ObservedBeat::D(1, OTHER), None),
    (ObservedBeat::A(0, PUT), None),
    (ObservedBeat::D(0, ACK), None),
    (ObservedBeat::A(1, GET), None),
    (
        ObservedBeat::D(1, OTHER),
        Some(Wrong::Reply(ReplyRule::Payload, Some(DATA))),
    ),
    (ObservedBeat::A(1, GET), None),
    (ObservedBeat::D(1, DATA), None),
];

/// Other data than the Put gives.
const OTHER: DBeat = DBeat {
    payload: 0xffff_ffff_0000_0000,
    ..DATA
};

#[test]
fn bytes_that_nobody_knows(rt: HostRuntime) -> Result<(), Fail> {
    let mut setup = board_set_up(REGION).expect(&rt, "room");
    setup.pages.clear();
    setup.pages.push(PageRange {
        first: 0x10,
        count: 4,
        kind: RangeKind::Unknown,
    });
    let mut board = Scoreboard::new(rt.alloc(), Policy::RealTime, Errors::Strict, &setup)?;
    for (place, (seen, wrong)) in TOLD.iter().enumerate() {
        same(&rt, place, board.judge(seen)?, *wrong);
    }
    Ok(())
}

/// Beats, the lanes that nobody knows, and what is wrong: an acknowledgement and a Get have no byte that is looked at; the byte that the
/// Put gives so isn't compared; and of W the strobed lanes alone are looked at.
const UNKNOWN: [(ObservedBeat, u8, Option<Wrong>); 10] = [
    (ObservedBeat::A(0, PUT), 0x10, Some(Wrong::UnknownRequest)),
    (ObservedBeat::D(0, ACK), 0xff, None),
    (ObservedBeat::A(1, GET), 0xff, None),
    (ObservedBeat::D(1, DOUBTED), 0x0f, None),
    (ObservedBeat::A(1, GET), 0, None),
    (
        ObservedBeat::D(1, DATA),
        0x20,
        Some(Wrong::Reply(ReplyRule::Unknown, Some(DATA))),
    ),
    (ObservedBeat::Axi(AxiBeat::Aw(WRITE)), 0, None),
    (ObservedBeat::Axi(AxiBeat::W(HALF)), 0xf0, None),
    (ObservedBeat::Axi(AxiBeat::Aw(WRITE)), 0, None),
    (
        ObservedBeat::Axi(AxiBeat::W(HALF)),
        0x08,
        Some(Wrong::UnknownAxi),
    ),
];

/// What the Put gives, but for the byte that nobody knows.
const DOUBTED: DBeat = DBeat {
    payload: 0x1122_33ff_0000_0000,
    ..DATA
};

/// Write data with the lower half strobed.
const HALF: WBeat = WBeat {
    payload: 0,
    strobes: 0x0f,
    last: true,
};

#[test]
fn lanes_that_nobody_knows(rt: HostRuntime) -> Result<(), Fail> {
    let setup = board_set_up(REGION).expect(&rt, "room");
    for policy in POLICIES {
        let mut board = Scoreboard::new(rt.alloc(), policy, Errors::Strict, &setup)?;
        for (place, (seen, lanes, wrong)) in UNKNOWN.iter().enumerate() {
            let got = board.judge_unknown(seen, *lanes)?;
            same(&rt, (policy, place), got, *wrong);
        }
    }
    Ok(())
}

#[test]
fn bytes_that_a_memory_began_with(rt: HostRuntime) -> Result<(), Fail> {
    let setup = board_set_up(REGION).expect(&rt, "room");
    same(&rt, "the last byte", can_fill(&setup, 0x13fff, 1), true);
    same(&rt, "one more", can_fill(&setup, 0x13fff, 2), false);
    let reply = ObservedBeat::D(1, OTHER);
    let (four, none) = ([4, 4], [0, 0]);
    for policy in POLICIES {
        let mut board = Scoreboard::new(rt.alloc(), policy, Errors::Strict, &setup)?;
        let refused = board.fill(0x13fff, &[1, 2]).err();
        same(&rt, policy, refused, Some(FillFault::Place));
        same(&rt, policy, board.byte(0x13fff), Some(0));
        same(&rt, policy, board.fill(0x1000c, &[0xff; 4]).err(), None);
        same(&rt, policy, board.byte(0x1000f), Some(0xff));
        same(&rt, policy, board.judge(&ObservedBeat::A(1, GET))?, None);
        same(&rt, policy, counts(board.telling(&reply)), four);
        same(&rt, policy, board.judge(&reply)?, None);
        same(&rt, policy, counts(board.telling(&reply)), none);
    }
    Ok(())
}

/// How many bytes a beat tells, and how many of them are compared.
fn counts(telling: Telling) -> [u8; 2] {
    [telling.told, telling.compared]
}

/// Beats, and what is wrong with each.
const WRONG: [(ObservedBeat, Option<Wrong>); 5] = [
    (
        ObservedBeat::D(0, ACK),
        Some(Wrong::Reply(ReplyRule::Unasked, None)),
    ),
    (ObservedBeat::A(0, PUT), None),
    (
        ObservedBeat::A(0, PUT),
        Some(Wrong::Request(TlRule::SourceBusy)),
    ),
    (
        ObservedBeat::D(
            0,
            DBeat {
                denied: true,
                ..ACK
            },
        ),
        Some(Wrong::Reply(ReplyRule::Denied, Some(ACK))),
    ),
    (ObservedBeat::D(2, ACK), Some(Wrong::NoClient)),
];

#[test]
fn what_is_wrong(rt: HostRuntime) -> Result<(), Fail> {
    let setup = board_set_up(REGION).expect(&rt, "room");
    for policy in POLICIES {
        let mut board = Scoreboard::new(rt.alloc(), policy, Errors::Strict, &setup)?;
        for (place, (seen, wrong)) in WRONG.iter().enumerate() {
            same(&rt, (policy, place), board.judge(seen)?, *wrong);
        }
    }
    Ok(())
}

#[test]
fn a_region_of_no_pages(rt: HostRuntime) {
    let setup = board_set_up(Region { pages: 0, ..REGION }).expect(&rt, "room");
    let fault = SetupFault::Map(MapFault::RegionEmpty(0));
    for policy in POLICIES {
        let refused = Scoreboard::new(rt.alloc(), policy, Errors::Strict, &setup).err();
        same(&rt, policy, refused, Some(fault));
    }
}

/// A read of an ID.
fn read(id: u8) -> ObservedBeat {
    ObservedBeat::Axi(AxiBeat::Ar(ArBeat {
        id,
        address: 0x10000,
        len: 0,
        size: 3,
        burst: 1,
    }))
}

#[test]
fn a_port_of_many_ids(rt: HostRuntime) -> Result<(), Fail> {
    let mut setup = board_set_up(REGION).expect(&rt, "room");
    setup.config.ids = 255;
    setup.config.depth = 16;
    for policy in POLICIES {
        let mut board = Scoreboard::new(rt.alloc(), policy, Errors::Strict, &setup)?;
        for k in 0..16 {
            same(&rt, (policy, k), board.judge(&read(254))?, None);
        }
        let deep = Some(Wrong::Axi(AxiRule::Depth));
        same(&rt, policy, board.judge(&read(254))?, deep);
        let far = Some(Wrong::Axi(AxiRule::IdRange));
        same(&rt, policy, board.judge(&read(255))?, far);
        same(&rt, policy, board.open_bursts(), 17);
    }
    Ok(())
}

#[test]
fn rules_have_names(rt: HostRuntime) {
    for (rule, number, name) in [
        (ReplyRule::Unasked, 1, "UNASKED"),
        (ReplyRule::Interleaved, 2, "INTERLEAVED"),
        (ReplyRule::Payload, 7, "PAYLOAD"),
    ] {
        same(&rt, rule, (rule.number(), rule.name()), (number, name));
    }
}

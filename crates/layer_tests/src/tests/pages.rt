//! The examples of README and of the crates' pages, as they stand there, with what they say comes out.
use super::bench::*;
use axi_beats::{ArBeat, BBeat, BurstBox, RBeat};
use axi_checker::{AxiBeat, AxiRule, Monitor};
use bridge_core::{BridgeFault, Offered, Taken};
use burst_plan::PageMap;
use std::alloc::{AllocError, Global};
use std::test::Fail;
use tl_messages::{DBeat, ReplyBox};
use world::Answer;

/// A Put of eight bytes.
const PUT: Beat = Put(3, 5, 8, 0x1122334455667788);

/// The one beat of its reply.
const ACK: DBeat = DBeat {
    opcode: 0,
    param: 0,
    size: 3,
    source: 5,
    denied: false,
    payload: 0,
    corrupt: false,
};

/// README.md: what the steps answer, and the byte that the Put left.
#[test]
fn library(rt: HostRuntime) -> Result<(), Fail> {
    let alloc = rt.alloc();
    let (config, region, put) = (config_of(USUAL), FOUR_PAGES, a_beat(PUT));

    use world_run::Step::{AnswerB, Offer, Perform, Pump, Take};
    use world_run::{PageKind, Setup, run};

    // `config` has two clients and a bus of 8 bytes, `region` leads TileLink page 0 to AXI page 0x10, `put` is a beat.
    let mut setup = Setup::new(config);
    setup
        .pages
        .try_extend_from_slice(&[(0x10, PageKind::Good)])?;
    setup.regions.try_extend_from_slice(&[region])?;
    let steps = [Offer(0, put), Pump, Perform(0, 0), AnswerB(0), Take(0)];
    let ran = run(alloc, &setup, &steps)?; // Accepted(0), Sent(0), Done, B of ID 0, Reply(0)

    let b = BBeat { id: 0, resp: Okay };
    assert_eq!(rt;
        ran.answers.as_slice(),
        [Accepted(0), Answer::Sent(0), Done, Answer::B(b), Reply(0)].as_slice()
    );
    assert_eq!(rt; ran.d_beats.as_slice(), [ACK].as_slice());
    assert_eq!(rt; ran.world.byte(0x10008), Some(0x88));
    Ok(())
}

/// crates/axi_beats/README.md.
#[test]
fn axi_beats(rt: HostRuntime) {
    use axi_beats::lanes_of;

    // The lanes that transfer 2 of a burst from 10003 covers, with transfers of four bytes on a bus of eight: (4, 7).
    let lanes = lanes_of(0x10003, 2, 2, 8);

    assert_eq!(rt; lanes, (4, 7));
}

/// crates/axi_checker/README.md.
fn first_wrong(alloc: Global, beats: &[AxiBeat]) -> Result<Option<(usize, AxiRule)>, AllocError> {
    let mut monitor = Monitor::of_any_depth(alloc, 64, 32, 8)?;
    for (place, beat) in beats.iter().enumerate() {
        if let Err(rule) = monitor.take(beat) {
            return Ok(Some((place, rule)));
        }
    }
    Ok(None)
}

/// What it answers where a read is answered twice.
#[test]
fn axi_checker(rt: HostRuntime) -> Result<(), Fail> {
    let ar = ArBeat {
        id: 63,
        address: 0,
        len: 0,
        size: 3,
        burst: 1,
    };
    let r = RBeat {
        id: 63,
        payload: 0,
        resp: Okay,
        last: true,
    };
    let beats = [AxiBeat::Ar(ar), AxiBeat::R(r), AxiBeat::R(r)];
    let wrong = first_wrong(rt.alloc(), &beats)?;
    assert_eq!(rt; wrong, Some((2, AxiRule::RWithoutRead)));
    Ok(())
}

/// crates/data_unit/README.md.
#[test]
fn data_unit(rt: HostRuntime) {
    use data_unit::apply;
    use tl_messages::AtomicOp;

    // What a 4-byte ADD of 1 to ffffffff leaves: 0.
    let sum = apply(AtomicOp::Add, 4, 0xffffffff, 1);

    assert_eq!(rt; sum, 0);
}

/// crates/tl_messages/README.md.
#[test]
fn tl_messages(rt: HostRuntime) -> Result<(), Fail> {
    let alloc = rt.alloc();
    let mut writer = Vec::new(alloc);

    use tl_messages::{ABeat, Request, a_line};

    // A Put of 8 bytes at 8, with source 5.
    let beat = ABeat {
        opcode: 0,
        param: 0,
        size: 3,
        source: 5,
        address: 8,
        mask: 0xff,
        payload: 0x1122334455667788,
        corrupt: false,
    };

    // Its line in a trace: "A 0 0 0 3 5 00000008 ff 1122334455667788 0".
    a_line(0, &beat, &mut writer)?;

    // A request takes all its room here; no later call on it takes memory.
    let mut request = Request::new(alloc)?;
    request.begin(0, &beat);

    assert_eq!(rt;
        writer.as_slice(),
        b"A 0 0 0 3 5 00000008 ff 1122334455667788 0\n".as_slice()
    );
    assert!(rt; request.is_whole());
    Ok(())
}

/// crates/world/README.md.
#[test]
fn world(rt: HostRuntime) -> Result<(), Fail> {
    let alloc = rt.alloc();
    let Some(setup) = set_up(PLAIN) else {
        panic!(rt; "a set-up");
    };
    let put = a_beat(PUT);

    use tl_messages::ReplyBox;
    use world::{Step, World};

    let mut reply = ReplyBox::new(alloc)?;
    let mut world = World::new(alloc, &setup)?;
    let offered = world.step(&Step::Offer(0, put), &mut reply); // Accepted(0)
    let made = world.drain(); // 3: sent, performed, answered; nothing is in flight now
    let taken = world.step(&Step::Take(0), &mut reply); // Reply(0), and the box has its beats

    assert_eq!(rt; (offered, made, taken), (Accepted(0), 3, Reply(0)));
    assert_eq!(rt; reply.as_slice(), [ACK].as_slice());
    Ok(())
}

/// Why the bridge alone stops.
#[derive(Drop)]
enum Fault {
    Limits(BridgeFault),
    Port(AxiRule),
}

impl From<BridgeFault> for Fault {
    fn from(fault: BridgeFault) -> Fault {
        Fault::Limits(fault)
    }
}

impl From<AxiRule> for Fault {
    fn from(rule: AxiRule) -> Fault {
        Fault::Port(rule)
    }
}

/// crates/bridge_core/README.md, and what its calls give.
fn bridge_alone(
    alloc: Global,
    map: PageMap,
    mut reply: ReplyBox,
) -> Result<(Offered, Option<BurstBox>, Taken, ReplyBox), Fault> {
    let (config, put) = (config_of(USUAL), a_beat(PUT));
    let b = BBeat { id: 0, resp: Okay };

    use bridge_core::Bridge;

    // `map` is a `PageMap` with `region`, `b` the B that answers ID 0 with OKAY, and `reply` a `ReplyBox`.
    let mut bridge = Bridge::new(alloc, config, map)?;
    let offered = bridge.offer(0, &put); // Accepted(0)
    // The burst, in a box from stock, with the AW and the W for the memory.
    let burst = if bridge.stock() > 0 {
        bridge.pump_box()
    } else {
        None
    };
    bridge.on_b(&b)?; // the memory answered it
    let taken = bridge.take(0, &mut reply); // Reply(0), and the box has the beats of the reply

    Ok((offered, burst, taken, reply))
}

#[test]
fn bridge_core(rt: HostRuntime) -> Result<(), Fail> {
    let alloc = rt.alloc();
    let map = PageMap::new(alloc, &[FOUR_PAGES])?;
    let Ok((offered, burst, taken, reply)) = bridge_alone(alloc, map, ReplyBox::new(alloc)?) else {
        panic!(rt; "the limits or the B were refused");
    };
    assert_eq!(rt; (offered, taken), (Offered::Accepted(0), Taken::Reply(0)));
    assert!(rt; burst.is_some_and(|burst| burst.is_write() && burst.w_beats() == 1));
    assert_eq!(rt; reply.as_slice(), [ACK].as_slice());
    Ok(())
}

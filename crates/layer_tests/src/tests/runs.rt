//! Whole runs: a list of steps, and the record of what they gave.
use super::bench::*;
use axi_beats::WBeat;
use std::alloc::Global;
use tl_checker::TlRule;
use tl_messages::{DBeat, ReplyBox};
use world::{Answer, Step, World};
use world_run::{Handed, RunRecord, SentBeat, opened, ordered_step, run};

/// A word of the first page is bad.
const WITH_A_BAD_WORD: Lists = Lists {
    bad_words: &[0x10018],
    ..PLAIN
};

/// The steps that some events make, and the answers that they have to give.
fn steps_of(alloc: Global, events: &[Event]) -> Option<(Vec<Step>, Vec<Answer>)> {
    let mut steps = Vec::new(alloc);
    let mut answers = Vec::new(alloc);
    for event in events {
        let (step, answer) = step_of(*event)?;
        steps.push(step).ok()?;
        answers.push(answer).ok()?;
    }
    Some((steps, answers))
}

/// A Get over the bad word, one outside of all regions, a partial Put and an ADD; then what a client may not do.
const ERRORS_AND_AN_ATOMIC: &[Event] = &[
    Offer(0, Get(4, 1, 0x10), Accepted(0)),
    Offer(1, Get(4, 2, 0x5000), Accepted(1)),
    Offer(1, A(1, 0, 3, 3, 8, 0x3c, 0x8877665544332211), Accepted(2)),
    Offer(0, A(2, 4, 2, 4, 8, 0x0f, 0x00010000), Accepted(3)),
    Offer(0, Get(4, 1, 0x10), Refused(TlRule::SourceBusy)),
    Take(0, Nothing),
    Take(1, Reply(1)),
    Read(0, 0, 0x10010, 1, 3),
    Write(1, 1, 0x10008, 0, 3),
    Idle,
    Perform(0, 0, Done),
    R(0, 0, Okay),
    Perform(0, 1, Done),
    LastR(0, 0, SlvErr),
    Perform(1, 0, Done),
    B(1, Okay),
    Read(2, 0, 0x10008, 0, 2),
    Perform(2, 0, Done),
    LastR(0, 0x44330000, Okay),
    Write(3, 0, 0x10008, 0, 2),
    Perform(3, 0, Done),
    B(0, Okay),
    Take(1, Reply(2)),
    Take(0, Reply(0)),
    Take(0, Reply(3)),
];

/// A beat of the reply to the Get over the bad word.
const READ_BEAT: DBeat = DBeat {
    opcode: 1,
    param: 0,
    size: 4,
    source: 1,
    denied: false,
    payload: 0,
    corrupt: false,
};

/// A beat of the reply to the Get that is denied.
const DENIED: DBeat = DBeat {
    source: 2,
    denied: true,
    corrupt: true,
    ..READ_BEAT
};

const D_BEATS: &[DBeat] = &[
    DENIED,
    DENIED,
    DBeat {
        opcode: 0,
        size: 3,
        source: 3,
        ..READ_BEAT
    },
    READ_BEAT,
    DBeat {
        corrupt: true,
        ..READ_BEAT
    },
    DBeat {
        size: 2,
        source: 4,
        payload: 0x44330000,
        ..READ_BEAT
    },
];

fn handed(client: u8, number: u64, first: usize, beats: u16) -> Handed {
    Handed {
        client,
        number,
        first,
        beats,
    }
}

/// How the replies lie in these beats.
fn replies() -> [Handed; 4] {
    [
        handed(1, 1, 0, 2),
        handed(1, 2, 2, 1),
        handed(0, 0, 3, 2),
        handed(0, 3, 5, 1),
    ]
}

/// The one W beat of a write.
fn w_beat(payload: u64, strobes: u8) -> SentBeat {
    SentBeat::W(WBeat {
        payload,
        strobes,
        last: true,
    })
}

/// What goes to the memory. The ADD finds 44330000, and adds 10000.
fn sent() -> [SentBeat; 6] {
    [
        SentBeat::Ar(ar_beat(0, 0x10010, 1, 3)),
        SentBeat::Aw(aw_beat(1, 0x10008, 0, 3)),
        w_beat(0x0000665544330000, 0x3c),
        SentBeat::Ar(ar_beat(0, 0x10008, 0, 2)),
        SentBeat::Aw(aw_beat(0, 0x10008, 0, 2)),
        w_beat(0x44340000, 0x0f),
    ]
}

/// What is seen of the world at the end.
const AFTER: &[Event] = &[
    Byte(0x1000a, Some(0x34)),
    Byte(0x1000b, Some(0x44)),
    Byte(0x1000e, Some(0)),
    InFlight(0),
    Work(0),
];

/// The record of a run; none where its answers aren't those that the events have to give.
fn record_of(alloc: Global, lists: Lists, events: &[Event]) -> Option<RunRecord> {
    let setup = set_up(lists)?;
    let (steps, answers) = steps_of(alloc, events)?;
    let ran = run(alloc, &setup, steps.as_slice()).ok()?;
    if ran.answers.as_slice() == answers.as_slice() {
        Some(ran)
    } else {
        None
    }
}

/// How many of these things a world shows before one that it doesn't; none where memory was refused.
fn seen(alloc: Global, world: World, events: &[Event]) -> Option<usize> {
    let reply = ReplyBox::new(alloc).ok()?;
    let mut bench = WorldBench { world, reply };
    Some(carried_by(&mut bench, events))
}

#[test]
fn errors_and_an_atomic(rt: HostRuntime) {
    let ran = record_of(rt.alloc(), WITH_A_BAD_WORD, ERRORS_AND_AN_ATOMIC).expect(&rt, "a run");
    assert!(rt; ran.replies.as_slice() == replies().as_slice());
    assert!(rt; ran.d_beats.as_slice() == D_BEATS);
    assert!(rt; ran.sent.as_slice() == sent().as_slice());
    assert_eq!(rt; seen(rt.alloc(), ran.world, AFTER), Some(AFTER.len()));
}

/// No steps, and one that begins a message: nothing is accepted.
#[test]
fn nothing_accepted(rt: HostRuntime) {
    let begun = [Offer(0, Put(4, 0, 0, 1), More)];
    for events in [&[], begun.as_slice()] {
        let ran = record_of(rt.alloc(), PLAIN, events).expect(&rt, "a run");
        assert!(rt; ran.replies.is_empty() && ran.d_beats.is_empty() && ran.sent.is_empty());
        let after = [Byte(0x10000, Some(0)), InFlight(0), Work(0), Choices(0)];
        assert_eq!(rt; seen(rt.alloc(), ran.world, &after), Some(after.len()));
    }
}

/// A world that makes the steps by hand, by the calls whose contracts tell of the order; none where one isn't answered so.
fn stepped(alloc: Global, lists: Lists, events: &[Event]) -> Option<World> {
    let setup = set_up(lists)?;
    let mut world = opened(alloc, &setup).ok()?;
    let mut reply = ReplyBox::new(alloc).ok()?;
    for event in events {
        let (step, answer) = step_of(*event)?;
        if ordered_step(&mut world, &step, &mut reply) != answer {
            return None;
        }
    }
    Some(world)
}

#[test]
fn ordered_steps(rt: HostRuntime) {
    let world = stepped(rt.alloc(), WITH_A_BAD_WORD, ERRORS_AND_AN_ATOMIC).expect(&rt, "a world");
    assert_eq!(rt; seen(rt.alloc(), world, AFTER), Some(AFTER.len()));
}

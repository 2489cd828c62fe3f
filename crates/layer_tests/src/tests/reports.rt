//! What a threaded run received beside its steps, made once more in a second world.
use super::bench::*;
use std::alloc::{AllocError, Global};
use thread_reports::{Mismatch, Receipts, SecondWorld};
use tl_messages::{ABeat, DBeat};
use world::Step;

const PUT: ABeat = ABeat {
    opcode: 0,
    param: 0,
    size: 3,
    source: 0,
    address: 8,
    mask: 0xff,
    payload: 7,
    corrupt: false,
};

const GET: ABeat = ABeat {
    opcode: 4,
    source: 1,
    address: 0x100,
    payload: 0,
    ..PUT
};

const PUT_REPLY: DBeat = DBeat {
    opcode: 0,
    param: 0,
    size: 3,
    source: 0,
    denied: false,
    payload: 0,
    corrupt: false,
};

const GET_REPLY: DBeat = DBeat {
    opcode: 1,
    source: 1,
    ..PUT_REPLY
};

/// A Put of client 0 and a Get of client 1. The last step takes nothing.
const STEPS: [Step; 11] = [
    Step::Offer(0, PUT),
    Step::Offer(1, GET),
    Step::Pump,
    Step::Pump,
    Step::Perform(0, 0),
    Step::AnswerB(0),
    Step::Perform(1, 0),
    Step::AnswerR(1),
    Step::Take(0),
    Step::Take(1),
    Step::Take(1),
];

/// The number of each reply and how many beats it has, and the beats of all.
type Received = (&'static [(u64, u16)], &'static [DBeat]);

const FIRST: Received = (&[(0, 1)], &[PUT_REPLY]);

const SECOND: Received = (&[(1, 1)], &[GET_REPLY]);

const NOTHING: Received = (&[], &[]);

/// What is compared with so many of the steps, and the client and the index that differ.
#[derive(Clone, Copy)]
struct Case {
    name: &'static str,
    scripts: [&'static [ABeat]; 2],
    steps: usize,
    received: &'static [Received],
    differs: Option<(u8, u32)>,
}

const RIGHT: Case = Case {
    name: "as it was",
    scripts: [&[PUT], &[GET]],
    steps: 10,
    received: &[FIRST, SECOND],
    differs: None,
};

const NEVER_OFFERED: Case = Case {
    name: "a beat was never offered",
    scripts: [&[PUT, GET], &[GET]],
    differs: Some((0, 1)),
    ..RIGHT
};

const ANOTHER_OFFERED: Case = Case {
    name: "another beat was offered",
    scripts: [&[PUT], &[PUT]],
    differs: Some((1, 1)),
    ..RIGHT
};

const NO_CHANGE: Case = Case {
    name: "a step changes nothing",
    steps: 11,
    differs: Some((0, 0)),
    ..RIGHT
};

const CASES: &[Case] = &[
    RIGHT,
    Case {
        name: "a reply is left out",
        received: &[FIRST, NOTHING],
        differs: Some((1, 0)),
        ..RIGHT
    },
    Case {
        name: "a beat is invented",
        received: &[(&[(0, 1)], &[PUT_REPLY, PUT_REPLY]), SECOND],
        differs: Some((0, 1)),
        ..RIGHT
    },
    Case {
        name: "a reply under the number of the other",
        received: &[(&[(1, 1)], &[PUT_REPLY]), SECOND],
        differs: Some((0, 0)),
        ..RIGHT
    },
    Case {
        name: "the reply of the other client",
        received: &[FIRST, (&[(1, 1)], &[PUT_REPLY])],
        differs: Some((1, 0)),
        ..RIGHT
    },
    NEVER_OFFERED,
    ANOTHER_OFFERED,
    Case {
        name: "a reply that was never taken",
        steps: 9,
        differs: Some((1, 0)),
        ..RIGHT
    },
    Case {
        name: "a reply is left in the bridge",
        steps: 9,
        received: &[FIRST, NOTHING],
        differs: Some((1, 0)),
        ..RIGHT
    },
    NO_CHANGE,
    Case {
        name: "a client has no receipts",
        received: &[FIRST],
        differs: Some((0, 0)),
        ..RIGHT
    },
];

/// A list of some items.
fn list<T: Copy>(alloc: Global, items: &[T]) -> Result<Vec<T>, AllocError> {
    let mut list = Vec::new(alloc);
    list.extend_from_slice(items)?;
    Ok(list)
}

fn scripts_of(alloc: Global, case: &Case) -> Result<Vec<Vec<ABeat>>, AllocError> {
    let mut scripts = Vec::new(alloc);
    for script in case.scripts {
        scripts.push(list(alloc, script)?)?;
    }
    Ok(scripts)
}

fn receipts_of(alloc: Global, case: &Case) -> Result<Vec<Receipts>, AllocError> {
    let mut receipts = Vec::new(alloc);
    for (heads, beats) in case.received {
        receipts.push(Receipts {
            heads: list(alloc, heads)?,
            beats: list(alloc, beats)?,
        })?;
    }
    Ok(receipts)
}

/// The first steps, so many of them.
fn steps_of(case: &Case) -> &'static [Step] {
    match case.steps {
        9 => &STEPS[..9],
        10 => &STEPS[..10],
        _ => &STEPS,
    }
}

/// Whether what differs is what has to, where nothing does the world that is answered has the byte that the Put wrote; none
/// where memory was refused.
fn is_judged(alloc: Global, case: &Case) -> Option<bool> {
    let second = SecondWorld::new(alloc, &set_up(PLAIN)?).ok()?;
    let scripts = scripts_of(alloc, case).ok()?;
    let receipts = receipts_of(alloc, case).ok()?;
    match second.compared(scripts.as_slice(), steps_of(case), receipts.as_slice()) {
        Ok(world) => Some(case.differs.is_none() && world.byte(0x10008) == Some(7)),
        Err(Mismatch { client, index }) => Some(case.differs == Some((client, index))),
    }
}

#[test]
fn receipts(rt: HostRuntime) {
    for case in CASES {
        assert!(rt; is_judged(rt.alloc(), case) == Some(true), "{}", case.name);
    }
}

/// Whether a history of so many steps has no room for another.
fn fills(alloc: Global, case: &Case, room: u32) -> Option<bool> {
    let second = SecondWorld::new(alloc, &set_up(PLAIN)?).ok()?;
    let scripts = scripts_of(alloc, case).ok()?;
    let receipts = receipts_of(alloc, case).ok()?;
    Some(second.fills(
        scripts.as_slice(),
        steps_of(case),
        receipts.as_slice(),
        room,
    ))
}

/// A name, the case whose steps are stored, how many there may be, and whether these are a full history of its scripts.
const FULL: &[(&str, Case, u32, bool)] = &[
    ("as many as there may be", RIGHT, 10, true),
    ("a script goes on", NEVER_OFFERED, 10, true),
    ("there is room for one more", RIGHT, 11, false),
    ("another beat was offered", ANOTHER_OFFERED, 10, false),
    ("a step changes nothing", NO_CHANGE, 11, false),
];

#[test]
fn full_histories(rt: HostRuntime) {
    for (name, case, room, is_full) in FULL {
        assert!(rt;
            fills(rt.alloc(), case, *room) == Some(*is_full),
            "{}",
            name
        );
    }
}

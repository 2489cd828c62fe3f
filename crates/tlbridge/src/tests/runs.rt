//! Whole runs in threads.
use super::gates::{Holding, Meeting, Open, SecondFirst, Shut};
use super::given::*;
use super::same;
use bridge_threads::{Fault, Limits, Who};
use thread_reports::Report;
use tl_messages::{ABeat, DBeat};
use world::Step;

/// A Put and a Get of the second client, in another page.
const OTHER_PUT: ABeat = ABeat {
    address: 0x1008,
    payload: 0x99,
    ..PUT
};

const OTHER_GET: ABeat = ABeat {
    address: 0x1008,
    ..GET
};

/// Two clients with a Put and a Get each.
const TWO_SCRIPTS: Asked = Asked {
    config: TWO_CLIENTS,
    scripts: &[&[PUT, GET], &[OTHER_PUT, OTHER_GET]],
    words: &[&[7]],
    limits: WIDE,
};

/// The lists of words of the meetings, and a bit for each worker.
const MEETINGS: [(&[&[u64]], u64); 2] = [(&[&[7]], 0b111), (&[&[7], &[1, 2], &[], &[9]], 0b111111)];

/// The reply to the other Get.
const OTHER_REPLY: DBeat = DBeat {
    payload: 0x99,
    ..GET_REPLY
};

/// Whether the client took these beats, in a reply each.
fn received(report: &Report, client: usize, beats: &[DBeat]) -> bool {
    match report.receipts.get(client) {
        Some(receipts) => {
            receipts.heads.len() == beats.len() && receipts.beats.as_slice() == beats
        }
        None => false,
    }
}

/// How many steps and clients a run of two clients tells of, and whether each took its two replies.
fn shown(report: &Report) -> (usize, usize, bool, bool) {
    (
        report.steps.len(),
        report.receipts.len(),
        received(report, 0, &[PUT_REPLY, GET_REPLY]),
        received(report, 1, &[PUT_REPLY, OTHER_REPLY]),
    )
}

/// Two clients and one memory thread, or four, of whom each waits for all others before each of its first four turns. One
/// after another they would wait in vain.
#[test]
fn threads_meet(rt: HostRuntime) {
    let alloc = rt.alloc();
    for (words, all) in MEETINGS {
        let gate = Meeting::new(all);
        let asked = Asked {
            words,
            ..TWO_SCRIPTS
        };
        let answer = ran(&rt, alloc, asked, &gate);
        let met = (gate.met(), gate.shut());
        same(&rt, ("memory threads", words.len()), met, (4, 0));
        let report = answer.expect(&rt, "a run ends well");
        let found = shown(&report);
        same(
            &rt,
            ("memory threads", words.len()),
            found,
            (20, 2, true, true),
        );
    }
}

/// One client that puts a word.
const ONE_PUT: Asked = Asked {
    config: ONE_CLIENT,
    scripts: &[&[PUT]],
    words: &[&[7]],
    limits: WIDE,
};

const NO_STEPS: Asked = Asked {
    limits: Limits { steps: 0, ..WIDE },
    ..ONE_PUT
};

const ONE_STEP: Asked = Asked {
    limits: Limits { steps: 1, ..WIDE },
    ..ONE_PUT
};

const IMPATIENT: Asked = Asked {
    limits: Limits { idle: 10, ..WIDE },
    ..ONE_PUT
};

#[test]
fn faults(rt: HostRuntime) {
    let alloc = rt.alloc();
    for (asked, fault) in [(NO_STEPS, Fault::BadConfig), (ONE_STEP, Fault::HistoryFull)] {
        let found = ran(&rt, alloc, asked, &Open).err();
        same(&rt, "an open gate", found, Some(fault));
    }
    let found = ran(&rt, alloc, ONE_PUT, &Shut(Who::Memory(0))).err();
    same(&rt, "a shut gate", found, Some(Fault::GateShut));
    let found = ran(&rt, alloc, IMPATIENT, &Holding::new()).err();
    same(&rt, "a gate that holds", found, Some(Fault::IdleLimit));
}

/// A Get of sixteen bytes.
const WIDE_GET: ABeat = ABeat {
    size: 4,
    address: 16,
    ..GET
};

/// The words of memory thread 1, which makes all choices.
#[test]
fn words_choose(rt: HostRuntime) {
    let alloc = rt.alloc();
    let asked = Asked {
        scripts: &[&[WIDE_GET]],
        words: &[&[0], &[1]],
        ..ONE_PUT
    };
    let report = ran(&rt, alloc, asked, &SecondFirst::new()).expect(&rt, "a run ends well");
    let wanted = [
        Step::Offer(0, WIDE_GET),
        Step::Pump,
        Step::Perform(0, 1),
        Step::Perform(0, 0),
        Step::AnswerR(0),
        Step::AnswerR(0),
        Step::Take(0),
    ];
    same(&rt, "steps", report.steps.as_slice(), wanted.as_slice());
}

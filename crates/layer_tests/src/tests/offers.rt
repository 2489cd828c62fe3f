//! A bridge alone: beats that aren't taken, and requests that send nothing.
use super::bench::*;
use super::bridge_bench::BridgeBench;
use tl_checker::TlRule;

const SCRIPTS: &[Script] = &[
    Script {
        name: "a later beat with another address is refused",
        lists: PLAIN,
        events: &[
            Offer(0, Put(4, 0, 0x00, 0x11), More),
            // A begun message isn't accepted, and makes no work.
            Work(0),
            Drain(0),
            Offer(0, Put(4, 0, 0x08, 0x22), Refused(TlRule::BurstControl)),
            Work(0),
            Offer(0, Put(4, 0, 0x00, 0x22), Accepted(0)),
            Drain(4),
            Take(0, Reply(0)),
            Shows(1, 0, 4, 0, false),
        ],
    },
    // The quota counts a client's own requests, done ones too; a source is free once its reply was taken.
    Script {
        name: "a client has its quota and its sources",
        lists: PLAIN,
        events: &[
            Offer(0, Get(3, 0, 0), Accepted(0)),
            Offer(0, Get(3, 1, 0), Accepted(1)),
            Offer(0, Get(3, 2, 0), Accepted(2)),
            Offer(0, Get(3, 3, 0), Accepted(3)),
            Offer(0, Get(3, 0, 0), Refused(TlRule::SourceBusy)),
            Offer(0, Get(3, 4, 0), NotReady),
            Offer(1, Get(3, 4, 0), Accepted(4)),
            Work(15),
            Drain(15),
            Offer(0, Get(3, 4, 0), NotReady),
            Offer(0, Get(3, 0, 0), Refused(TlRule::SourceBusy)),
            Take(0, Reply(0)),
            Offer(0, Get(3, 4, 0), Accepted(5)),
            Offer(0, Get(3, 0, 0), NotReady),
            Take(0, Reply(1)),
            Offer(0, Get(3, 0, 0), Accepted(6)),
            Offer(2, Get(3, 4, 0), NoClient),
            Take(2, NoClient),
            Take(1, Reply(4)),
            Take(1, Nothing),
        ],
    },
    // Requests that send nothing.
    Script {
        name: "corrupt requests are denied, and Intents answered",
        lists: PLAIN,
        events: &[
            Offer(0, Corrupt(0, 0, 3, 0, 0x08, 0xff, 1), Accepted(0)),
            Idle,
            Work(0),
            Take(0, Reply(0)),
            Shows(1, 0, 3, 0, true),
            Payload(0, 0, false),
            Offer(0, A(5, 1, 12, 1, 0, 0xff, 0), Accepted(1)),
            Idle,
            Work(0),
            Take(0, Reply(1)),
            Shows(1, 2, 12, 1, false),
            Payload(0, 0, false),
            // An atomic whose operand is corrupt has a reply with data, which are corrupt too.
            Offer(0, Corrupt(2, 4, 3, 0, 0x08, 0xff, 1), Accepted(2)),
            Idle,
            Take(0, Reply(2)),
            Shows(1, 1, 3, 0, true),
            Payload(0, 0, true),
        ],
    },
];

#[test]
fn scripts(rt: HostRuntime) {
    assert_eq!(rt; failing::<BridgeBench>(rt.alloc(), SCRIPTS), None);
}

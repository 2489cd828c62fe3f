//! A bridge alone: answers that the free memory never gives, those that break a rule, which change nothing, what a bridge
//! counts, and one box for a thousand bursts.
use super::bench::*;
use super::bridge_bench::BridgeBench;
use axi_checker::AxiRule;
use std::alloc::Global;

const SCRIPTS: &[Script] = &[
    Script {
        name: "answers to nothing are refused",
        lists: PLAIN,
        events: &[
            WrongB(16, Okay, AxiRule::IdRange),
            WrongB(0, Okay, AxiRule::BWithoutWrite),
            WrongR(16, Okay, true, AxiRule::IdRange),
            WrongR(0, Okay, true, AxiRule::RWithoutRead),
            Work(0),
            InFlight(0),
        ],
    },
    Script {
        name: "wrong Rs are refused",
        lists: PLAIN,
        events: &[
            Offer(0, Get(4, 0, 0), Accepted(0)),
            Read(0, 0, 0x10000, 1, 3),
            Work(4),
            WrongR(0, Okay, true, AxiRule::RLast),
            WrongR(0, ExOkay, true, AxiRule::RLast),
            WrongR(0, ExOkay, false, AxiRule::ExOkay),
            WrongR(1, Okay, false, AxiRule::RWithoutRead),
            WrongB(0, Okay, AxiRule::BWithoutWrite),
            Work(4),
            R(0, 1, Okay),
            Work(2),
            WrongR(0, Okay, false, AxiRule::RLast),
            Work(2),
            Take(0, Nothing),
            LastR(0, 2, Okay),
            Work(0),
            WrongR(0, Okay, true, AxiRule::RWithoutRead),
            Take(0, Reply(0)),
            Shows(2, 1, 4, 0, false),
            Payload(0, 1, false),
            Payload(1, 2, false),
        ],
    },
    Script {
        name: "EXOKAY in a Get of two bursts is refused",
        lists: PLAIN,
        events: &[
            Offer(0, Get(8, 0, 0), Accepted(0)),
            Read(0, 0, 0x10000, 15, 3),
            Read(1, 0, 0x10080, 15, 3),
            R(0, 0, Okay),
            Work(62),
            WrongR(0, ExOkay, false, AxiRule::ExOkay),
            Work(62),
        ],
    },
    Script {
        name: "wrong Bs are refused",
        lists: PLAIN,
        events: &[
            Offer(0, Put(3, 0, 0, 1), Accepted(0)),
            WrongB(0, Okay, AxiRule::BWithoutWrite),
            Write(0, 0, 0x10000, 0, 3),
            WrongB(0, ExOkay, AxiRule::ExOkay),
            WrongB(1, Okay, AxiRule::BWithoutWrite),
            WrongR(0, Okay, true, AxiRule::RWithoutRead),
            InFlight(1),
            Work(2),
            B(0, Okay),
            InFlight(0),
            FirstDone(0, true),
            WrongB(0, Okay, AxiRule::BWithoutWrite),
            Take(0, Reply(0)),
            Shows(1, 0, 3, 0, false),
        ],
    },
    // Of a Get any slave error shows in its beat alone, and a decode error denies all of it; what came with them isn't shown.
    Script {
        name: "one R of four with an error",
        lists: PLAIN,
        events: &[
            Offer(0, Get(5, 0, 0), Accepted(0)),
            Read(0, 0, 0x10000, 3, 3),
            R(0, 1, Okay),
            R(0, 7, SlvErr),
            R(0, 3, Okay),
            LastR(0, 4, Okay),
            Take(0, Reply(0)),
            Shows(4, 1, 5, 0, false),
            Payload(0, 1, false),
            Payload(1, 0, true),
            Payload(2, 3, false),
            Payload(3, 4, false),
            Offer(0, Get(5, 0, 0), Accepted(1)),
            Read(1, 0, 0x10000, 3, 3),
            R(0, 1, Okay),
            R(0, 7, DecErr),
            R(0, 3, Okay),
            LastR(0, 4, Okay),
            Take(0, Reply(1)),
            Shows(4, 1, 5, 0, true),
            Payload(0, 0, true),
            Payload(1, 0, true),
            Payload(2, 0, true),
            Payload(3, 0, true),
        ],
    },
    // Any response other than OKAY denies the whole Put.
    Script {
        name: "one B of two with an error",
        lists: PLAIN,
        events: &[
            OfferAll(0, Put(8, 0, 0, 0), 32, Accepted(0)),
            Work(36),
            Write(0, 0, 0x10000, 15, 3),
            Data(15, 0x1010101010101010, 0xff),
            Write(1, 0, 0x10080, 15, 3),
            Data(0, 0x1111111111111111, 0xff),
            Data(15, 0x2020202020202020, 0xff),
            Work(34),
            B(0, SlvErr),
            Work(17),
            Take(0, Nothing),
            B(0, Okay),
            Take(0, Reply(0)),
            Shows(1, 0, 8, 0, true),
            Payload(0, 0, false),
            OfferAll(0, Put(8, 0, 0, 0), 32, Accepted(1)),
            Write(2, 0, 0x10000, 15, 3),
            Write(3, 0, 0x10080, 15, 3),
            B(0, Okay),
            B(0, DecErr),
            Take(0, Reply(1)),
            Shows(1, 0, 8, 0, true),
            Payload(0, 0, false),
        ],
    },
    Script {
        name: "an atomic whose write failed is denied",
        lists: PLAIN,
        events: &[
            Offer(0, A(3, 3, 3, 0, 8, 0xff, 1), Accepted(0)),
            Read(0, 0, 0x10008, 0, 3),
            LastR(0, 7, Okay),
            Write(1, 0, 0x10008, 0, 3),
            B(0, SlvErr),
            Take(0, Reply(0)),
            Shows(1, 1, 3, 0, true),
            Payload(0, 0, true),
            Offer(0, A(3, 3, 3, 0, 8, 0xff, 1), Accepted(1)),
            Read(2, 0, 0x10008, 0, 3),
            LastR(0, 7, Okay),
            Write(3, 0, 0x10008, 0, 3),
            B(0, DecErr),
            Take(0, Reply(1)),
            Shows(1, 1, 3, 0, true),
            Payload(0, 0, true),
        ],
    },
    // The other lanes of an R may hold anything.
    Script {
        name: "a narrow reply has its own lanes",
        lists: PLAIN,
        events: &[
            Offer(0, A(4, 0, 0, 0, 0x0b, 0x08, 0), Accepted(0)),
            Read(0, 0, 0x1000b, 0, 0),
            LastR(0, 0x1122334455667788, Okay),
            Take(0, Reply(0)),
            Shows(1, 1, 0, 0, false),
            Payload(0, 0x0000000055000000, false),
        ],
    },
    // One half of the eight bytes that the atomic reads.
    Script {
        name: "an atomic of which half a read failed writes nothing",
        lists: NARROW,
        events: &[
            Offer(0, A(2, 4, 3, 0, 8, 0xff, 1), Accepted(0)),
            Read(0, 0, 0x10008, 1, 2),
            R(0, 7, SlvErr),
            Idle,
            Work(6),
            LastR(0, 7, Okay),
            Idle,
            Work(0),
            Take(0, Reply(0)),
            Shows(1, 1, 3, 0, false),
            Payload(0, 0, true),
        ],
    },
    // A Put waits for earlier Gets of its bytes.
    Script {
        name: "the work as a bridge sees it",
        lists: PLAIN,
        events: &[
            CanPump(false),
            Stock(32),
            Idle,
            Offer(0, Get(4, 0, 0), Accepted(0)),
            CanPump(true),
            Work(5),
            Offer(1, Get(3, 0, 8), Accepted(1)),
            Work(8),
            Offer(1, Put(3, 1, 8, 3), Accepted(2)),
            Work(11),
            Unsent(11),
            InFlight(3),
            Read(0, 0, 0x10000, 1, 3),
            Stock(31),
            Work(10),
            Unsent(6),
            Read(1, 1, 0x10008, 0, 3),
            Stock(30),
            Work(9),
            Unsent(3),
            CanPump(false),
            Idle,
            FirstDone(1, false),
            LastR(1, 0, Okay),
            Work(7),
            InFlight(2),
            Idle,
            FirstDone(1, true),
            R(0, 0, Okay),
            Work(5),
            InFlight(2),
            Idle,
            FirstDone(0, false),
            LastR(0, 0, Okay),
            Work(3),
            InFlight(1),
            FirstDone(0, true),
            Write(2, 0, 0x10008, 0, 3),
            Data(0, 3, 0xff),
            Work(2),
            Unsent(0),
            B(0, Okay),
            Work(0),
            InFlight(0),
        ],
    },
];

#[test]
fn scripts(rt: HostRuntime) {
    assert_eq!(rt; failing::<BridgeBench>(rt.alloc(), SCRIPTS), None);
}

/// One AXI4 ID, and one burst unanswered: there is one box.
const ONE_BOX: Lists = Lists {
    limits: Limits {
        ids: 1,
        depth: 1,
        ..USUAL
    },
    ..PLAIN
};

/// A Put, and what comes of it.
fn round_of(round: u64) -> [Event; 7] {
    [
        Offer(0, Put(3, 0, 8, round), Accepted(round)),
        Write(round, 0, 0x10008, 0, 3),
        Data(0, round, 0xff),
        Perform(round, 0, Done),
        B(0, Okay),
        Take(0, Reply(round)),
        Shows(1, 0, 3, 0, false),
    ]
}

/// How many rounds go so on a fresh one before one that doesn't; none where the set-up is refused.
fn rounds<D: Driven>(alloc: Global) -> Option<u64> {
    let mut driven = D::fresh(alloc, ONE_BOX)?;
    for round in 0..1000 {
        if carried_by(&mut driven, &round_of(round)) != 7 {
            return Some(round);
        }
    }
    Some(1000)
}

/// Each round's burst goes in the one box there is, which has come back; so it is in a world too.
#[test]
fn a_thousand_puts_in_one_box(rt: HostRuntime) {
    assert_eq!(rt; rounds::<BridgeBench>(rt.alloc()), Some(1000));
    assert_eq!(rt; rounds::<WorldBench>(rt.alloc()), Some(1000));
}

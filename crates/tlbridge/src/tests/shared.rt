//! What lies under the lock, without threads.
use super::given::*;
use super::same;
use bridge_threads::{HistoryFull, Shared};
use std::test::Fail;
use tl_checker::TlRule;
use tl_messages::{ABeat, DBeat, ReplyBox};
use world::{Answer, Step};

/// A Get of eight bytes where no region is.
const OUTSIDE: ABeat = ABeat {
    address: 0x5000,
    ..GET
};

/// A Get that is not at a multiple of its size.
const UNALIGNED: ABeat = ABeat { address: 4, ..GET };

/// The reply to a Get where no region is.
const DENIED: DBeat = DBeat {
    payload: 0,
    denied: true,
    corrupt: true,
    ..GET_REPLY
};

/// Steps, what they are answered where two may be stored, and how many are stored after each.
const TURNS: [(Step, Result<Answer, HistoryFull>, usize); 7] = [
    (Step::Take(0), Ok(Answer::Nothing), 0),
    (
        Step::Offer(0, UNALIGNED),
        Ok(Answer::Refused(TlRule::Align)),
        0,
    ),
    (Step::Offer(2, GET), Ok(Answer::NoClient), 0),
    (Step::Offer(1, OUTSIDE), Ok(Answer::Accepted(0)), 1),
    (Step::Pump, Ok(Answer::Idle), 1),
    (Step::Take(1), Ok(Answer::Reply(0)), 2),
    (Step::Take(1), Err(HistoryFull), 2),
];

#[test]
fn turns(rt: HostRuntime) -> Result<(), Fail> {
    let alloc = rt.alloc();
    let mut reply = ReplyBox::new(alloc)?;
    let mut shared = Shared::new(alloc, &set_up(TWO_CLIENTS), 2).expect(&rt, "a set-up");
    for (step, answer, stored) in TURNS {
        same(&rt, step, shared.turn(&step, &mut reply), answer);
        same(&rt, ("stored", step), shared.steps().len(), stored);
    }
    let steps = [Step::Offer(1, OUTSIDE), Step::Take(1)];
    same(&rt, "steps", shared.steps(), steps.as_slice());
    same(&rt, "reply", reply.as_slice(), [DENIED].as_slice());
    same(&rt, "done", shared.world().first_done(1), false);
    Ok(())
}

//! What is seen of a run of this project's bridge and memory, and what a board says of it.
use super::{GET, PUT, REGION, SEEN, board_set_up, refused_set_up, same, set_up};
use burst_plan::MapFault;
use observed_run::observed;
use scoreboard::{Errors, Policy, Scoreboard};
use setups::SetupFault;
use std::test::Fail;
use world::Step;

/// A second offer that is refused, a Take and a Pump too early, and a Take too many show nothing.
const STEPS: [Step; 14] = [
    Step::Offer(0, PUT),
    Step::Offer(0, PUT),
    Step::Take(0),
    Step::Pump,
    Step::Pump,
    Step::Perform(0, 0),
    Step::AnswerB(0),
    Step::Take(0),
    Step::Offer(1, GET),
    Step::Pump,
    Step::Perform(1, 0),
    Step::AnswerR(0),
    Step::Take(1),
    Step::Take(1),
];

#[test]
fn what_a_run_shows(rt: HostRuntime) -> Result<(), Fail> {
    let setup = set_up(REGION).expect(&rt, "room");
    let beats = observed(rt.alloc(), &setup, &STEPS)?;
    same(&rt, "beats", beats.len(), SEEN.len());
    for (place, (seen, _, _)) in SEEN.iter().enumerate() {
        same(&rt, place, beats.get(place), Some(seen));
    }
    let judged = board_set_up(REGION).expect(&rt, "room");
    for policy in [Policy::AcceptanceOrder, Policy::RealTime] {
        let mut board = Scoreboard::new(rt.alloc(), policy, Errors::Strict, &judged)?;
        for (place, beat) in beats.iter().enumerate() {
            same(&rt, (policy, place), board.judge(beat)?, None);
        }
    }
    Ok(())
}

#[test]
fn a_region_of_no_pages(rt: HostRuntime) {
    let setup = refused_set_up().expect(&rt, "room");
    let fault = SetupFault::Map(MapFault::RegionEmpty(0));
    let refused = observed(rt.alloc(), &setup, &STEPS).err();
    same(&rt, "its fault", refused, Some(fault));
}

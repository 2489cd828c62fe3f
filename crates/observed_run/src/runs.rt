//! What an observer at the ports sees of a run of this project's bridge.
ghost use Rattle.std.specs.Prelude.{◌≡◌, ◌⊎◌, ◌++◌, ◌∷◌, [], map, Some, IfErr, IfOk, IfSome, OnOk};
ghost use Rattle.axi_beats.specs.Boxes.{w_beats_of};
ghost use Rattle.world.specs.Laws.{IsSoundWorld};
ghost use Rattle.setups.specs.Setups.{lists_of, setup_fault};
ghost use Rattle.world.specs.World.{next};
ghost use Rattle.setups.specs.declared.SetupFault.TheVariants.{NoMemory};
ghost use Rattle.scoreboard.specs.Boards.{from_zeros};
ghost use Rattle.scoreboard.specs.Right.{IsRight};
ghost use Rattle.observed_run.specs.SeenRuns.{observed, seen_by, seen_of, seen_of_burst, seen_of_reply};
ghost use Rattle.axi_checker.specs.declared.AxiBeat.TheVariants.{W as OnW};
ghost use Rattle.scoreboard.specs.declared.ObservedBeat.TheVariants.{Axi};

use axi_beats::BurstBox;
use axi_checker::AxiBeat;
use scoreboard::ObservedBeat;
use std::alloc::Global;
use tl_messages::ReplyBox;
use world::{Answer, Setup, SetupFault, Step, World};

/// Appends a beat, or tells that memory was refused.
fn put(seen: &mut Vec<ObservedBeat>, beat: ObservedBeat) -> Result<(), SetupFault>
    ensures want { IfErr result (λ fault. fault ≡ NoMemory) }
    ensures beats { OnOk result (seen.new.items ≡ seen.old.items ++ beat ∷ []) }
{
    if seen.push(beat).is_err() {
        return Err(SetupFault::NoMemory);
    }
    Ok(())
}

/// Appends the W beats of a burst.
fn see_data(seen: &mut Vec<ObservedBeat>, burst: &BurstBox) -> Result<(), SetupFault>
    ensures want { IfErr result (λ fault. fault ≡ NoMemory) }
    ensures beats { OnOk result (seen.new.items ≡ seen.old.items ++ map (λ beat. Axi (OnW beat)) (w_beats_of burst.now)) }
{
    for k in 0..burst.w_beats() {
        put(seen, ObservedBeat::Axi(AxiBeat::W(burst.w(k))))?;
    }
    Ok(())
}

/// Appends the beats of a burst as it is sent: AW and then W, or AR.
fn see_burst(seen: &mut Vec<ObservedBeat>, burst: &BurstBox) -> Result<(), SetupFault>
    ensures want { IfErr result (λ fault. fault ≡ NoMemory) }
    ensures beats { OnOk result (seen.new.items ≡ seen.old.items ++ seen_of_burst burst.now) }
{
    if burst.is_empty() {
        return Ok(());
    }
    if !burst.is_write() {
        return put(seen, ObservedBeat::Axi(AxiBeat::Ar(burst.ar())));
    }
    put(seen, ObservedBeat::Axi(AxiBeat::Aw(burst.aw())))?;
    see_data(seen, burst)
}

/// Appends the beats of a reply.
fn see_reply(seen: &mut Vec<ObservedBeat>, client: u8, reply: &ReplyBox) -> Result<(), SetupFault>
    ensures want { IfErr result (λ fault. fault ≡ NoMemory) }
    ensures beats { OnOk result (seen.new.items ≡ seen.old.items ++ seen_of_reply client reply.now) }
{
    for beat in reply.as_slice() {
        put(seen, ObservedBeat::D(client, *beat))?;
    }
    Ok(())
}

/// Appends the beats that a step shows, by its answer, the burst that it sent and the reply that it handed out.
fn see_answer(
    seen: &mut Vec<ObservedBeat>,
    step: &Step,
    answer: &Answer,
    burst: &BurstBox,
    reply: &ReplyBox,
) -> Result<(), SetupFault>
    ensures want { IfErr result (λ fault. fault ≡ NoMemory) }
    ensures beats { OnOk result (seen.new.items ≡ seen.old.items ++ seen_by step.now answer.now burst.now reply.now) }
{
    match (*step, *answer) {
        (Step::Offer(client, beat), Answer::More | Answer::Accepted(_)) => {
            put(seen, ObservedBeat::A(client, beat))
        }
        (Step::Pump, Answer::Sent(_)) => see_burst(seen, burst),
        (Step::AnswerB(_), Answer::B(beat)) => put(seen, ObservedBeat::Axi(AxiBeat::B(beat))),
        (Step::AnswerR(_), Answer::R(beat)) => put(seen, ObservedBeat::Axi(AxiBeat::R(beat))),
        (Step::Take(client), Answer::Reply(_)) => see_reply(seen, client, reply),
        _ => Ok(()),
    }
}

/// Makes a step, and appends the beats that it shows.
fn see_step(
    seen: &mut Vec<ObservedBeat>,
    world: &mut World,
    step: &Step,
    reply: &mut ReplyBox,
) -> Result<(), SetupFault>
    ensures want { IfErr result (λ fault. fault ≡ NoMemory) }
    ensures beats { OnOk result (seen.new.items ≡ seen.old.items ++ seen_of step.now (next world.old step.now)) }
    ensures state { world.new ≡ (next world.old step.now).state }
    ensures laws { IsSoundWorld world.new }
{
    let answer = world.step(step, reply);
    see_answer(seen, step, &answer, world.last_burst(), reply)
}

/// What an observer at the ports sees of a run of this project's bridge and memory: of a set-up and a list of steps, each beat
/// that is taken at a port, where it is. An offered beat that isn't taken is not seen.
///
/// A refused set-up is answered before the first step. The one other error is that memory was refused.
pub fn observed(
    alloc: Global,
    setup: &Setup,
    steps: &[Step],
) -> Result<Vec<ObservedBeat>, SetupFault>
    ensures refused { IfSome (setup_fault (lists_of setup.now)) (λ fault. result ≡ Err fault) }
    ensures want { IfErr result (λ fault. (setup_fault (lists_of setup.now) ≡ Some fault) ⊎ (fault ≡ NoMemory)) }
    ensures shows { IfOk result (λ seen. seen.items ≡ observed (lists_of setup.now) steps.now) }

    // Whatever the steps are, the scoreboard finds nothing wrong in it.
    ensures right { IfOk result (λ seen. IsRight (from_zeros (lists_of setup.now)) seen.items) }
{
    let mut world = match World::new(alloc, setup) {
        Ok(world) => world,
        Err(fault) => return Err(fault),
    };
    let Ok(mut reply) = ReplyBox::new(alloc) else {
        return Err(SetupFault::NoMemory);
    };
    let mut seen = Vec::new(alloc);
    for step in steps {
        let Ok(()) = see_step(&mut seen, &mut world, step, &mut reply) else {
            return Err(SetupFault::NoMemory);
        };
    }
    Ok(seen)
}

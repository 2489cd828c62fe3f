//! A whole run: a list of events, and what they gave.
ghost use Rattle.std.specs.Prelude.{◌≡◌, ◌⊎◌, ◌++◌, ◌∷◌, List, [], length, map, flat_map, option_to_list, Some, IfSome, IfOk, IfErr, OnOk};
ghost use Rattle.axi_beats.specs.Boxes.{w_beats_of};
ghost use Rattle.world_run.specs.Headline.{IsOneAtATime};
ghost use Rattle.world_run.specs.InOrder.{IsOrdered, order_of};
ghost use Rattle.world.specs.Laws.{AreSoundAlong, IsSoundWorld};
ghost use Rattle.world_run.specs.Runs.{handed_of, recorded_beats, IsRunOf};
ghost use Rattle.setups.specs.Setups.{SetupLists, lists_of, setup_fault};
ghost use Rattle.world.specs.World.{byte_of, in_flight, opening_world};
ghost use Rattle.world_run.specs.declared.SentBeat.TheVariants.{W};
ghost use Rattle.setups.specs.declared.SetupFault.TheVariants.{NoMemory};
ghost use Rattle.world.specs.declared.Step.{Step};

use crate::{Handed, SentBeat, opened, ordered_step};
use axi_beats::BurstBox;
use std::alloc::Global;
use tl_messages::{DBeat, ReplyBox};
use world::{Answer, Setup, SetupFault, Step, World};

/// What a run gave.
#[derive(Drop)]
pub struct RunRecord {
    /// The answer to each step.
    pub answers: Vec<Answer>,
    /// The replies that were handed out, in order, as pieces of `d_beats`.
    pub replies: Vec<Handed>,
    /// The beats of these replies, one after another.
    pub d_beats: Vec<DBeat>,
    /// The beats that Pump sent, in order.
    pub sent: Vec<SentBeat>,
    /// The world after the last step.
    pub world: World,
}

/// Appends an item, or tells that memory was refused.
fn put<T: Copy>(items: &mut Vec<T>, item: T) -> Result<(), SetupFault>
    ensures want { IfErr result (λ fault. fault ≡ NoMemory) }
    ensures items { OnOk result (items.new.items ≡ items.old.items ++ item ∷ []) }
{
    if items.push(item).is_err() {
        return Err(SetupFault::NoMemory);
    }
    Ok(())
}

/// Appends the W beats of a burst.
fn keep_data(sent: &mut Vec<SentBeat>, burst: &BurstBox) -> Result<(), SetupFault>
    ensures want { IfErr result (λ fault. fault ≡ NoMemory) }
    ensures beats { OnOk result (sent.new.items ≡ sent.old.items ++ map W (w_beats_of burst.now)) }
{
    for k in 0..burst.w_beats() {
        put(sent, SentBeat::W(burst.w(k)))?;
    }
    Ok(())
}

/// Appends the beats of a burst as they are sent: AW and then W, or AR.
fn keep_burst(sent: &mut Vec<SentBeat>, burst: &BurstBox) -> Result<(), SetupFault>
    ensures want { IfErr result (λ fault. fault ≡ NoMemory) }
    ensures beats { OnOk result (sent.new.items ≡ sent.old.items ++ flat_map recorded_beats (option_to_list burst.now)) }
{
    if burst.is_empty() {
        return Ok(());
    }
    if !burst.is_write() {
        return put(sent, SentBeat::Ar(burst.ar()));
    }
    put(sent, SentBeat::Aw(burst.aw()))?;
    keep_data(sent, burst)
}

/// Appends a reply's beats, and where they stand.
fn keep_reply(
    replies: &mut Vec<Handed>,
    d_beats: &mut Vec<DBeat>,
    client: u8,
    number: u64,
    reply: &ReplyBox,
) -> Result<(), SetupFault>
    ensures want { IfErr result (λ fault. fault ≡ NoMemory) }
    ensures replies { OnOk result (replies.new.items ≡ replies.old.items ++ record { client = client; number = number; first = length d_beats.old.items; beats = length reply.now } ∷ []) }
    ensures beats { OnOk result (d_beats.new.items ≡ d_beats.old.items ++ reply.now) }
{
    let handed = Handed {
        client,
        number,
        first: d_beats.len(),
        beats: reply.beats(),
    };
    put(replies, handed)?;
    if d_beats.extend_from_slice(reply.as_slice()).is_err() {
        return Err(SetupFault::NoMemory);
    }
    Ok(())
}

/// Makes one step: where the record was that of a run, it then is that of the run with this step at its end.
fn one_step(ran: &mut RunRecord, step: &Step, reply: &mut ReplyBox) -> Result<(), SetupFault>
    ensures want { IfErr result (λ fault. fault ≡ NoMemory) }
    ensures grows { OnOk result ((setup : SetupLists) (before : List Step) → IsRunOf setup before ran.old.answers.items ran.old.replies.items ran.old.d_beats.items ran.old.sent.items ran.old.world → IsRunOf setup (before ++ step.now ∷ []) ran.new.answers.items ran.new.replies.items ran.new.d_beats.items ran.new.sent.items ran.new.world) }
    ensures laws { OnOk result (IsSoundWorld ran.new.world) }
{
    let answer = ordered_step(&mut ran.world, step, reply);
    put(&mut ran.answers, answer)?;
    if let Answer::Sent(_) = answer {
        return keep_burst(&mut ran.sent, ran.world.last_burst());
    }
    let Answer::Reply(number) = answer else {
        return Ok(());
    };
    let Step::Take(client) = *step else {
        return Ok(());
    };
    keep_reply(&mut ran.replies, &mut ran.d_beats, client, number, reply)
}

/// Makes the world of a set-up, and takes all steps in order.
///
/// A refused set-up is answered before the first step. The one other error is that memory was refused, at the start or at
/// any step; the record of the steps before it is then dropped.
pub fn run(alloc: Global, setup: &Setup, steps: &[Step]) -> Result<RunRecord, SetupFault>
    ensures refused { IfSome (setup_fault (lists_of setup.now)) (λ fault. result ≡ Err fault) }
    ensures want { IfErr result (λ fault. (setup_fault (lists_of setup.now) ≡ Some fault) ⊎ (fault ≡ NoMemory)) }
    ensures shows { IfOk result (λ ran. IsRunOf (lists_of setup.now) steps.now ran.answers.items ran.replies.items ran.d_beats.items ran.sent.items ran.world) }
    ensures laws { IfOk result (λ ran. AreSoundAlong (opening_world (lists_of setup.now)) steps.now) }

    // For every list of steps: the replies handed out are those of the accepted requests carried out whole, one at a time, in
    // order of acceptance, each at most once; once nothing is in flight the memory is theirs too; every burst sent obeys the
    // AXI4 rules.
    ensures one_at_a_time { IfOk result (λ ran. IsOneAtATime (lists_of setup.now) steps.now ran.answers.items (handed_of ran.replies.items ran.d_beats.items) ran.sent.items (in_flight ran.world) (byte_of ran.world)) }

    // Why: at each byte those that wrote it are the first so many of its writers, and what is captured, gathered or about to be
    // written is that of its request's own turn among them.
    ensures in_order { IfOk result (λ ran. IsOrdered (order_of (lists_of setup.now) steps.now ran.answers.items) ran.world) }
{
    let world = match opened(alloc, setup) {
        Ok(world) => world,
        Err(fault) => return Err(fault),
    };
    let Ok(mut reply) = ReplyBox::new(alloc) else {
        return Err(SetupFault::NoMemory);
    };
    let Ok(answers) = Vec::with_capacity(alloc, steps.len()) else {
        return Err(SetupFault::NoMemory);
    };
    let mut ran = RunRecord {
        answers,
        replies: Vec::new(alloc),
        d_beats: Vec::new(alloc),
        sent: Vec::new(alloc),
        world,
    };
    for step in steps {
        let Ok(()) = one_step(&mut ran, step, &mut reply) else {
            return Err(SetupFault::NoMemory);
        };
    }
    Ok(ran)
}

//! The stored steps once more, in a world of their own, beside scripts and receipts.
ghost use Rattle.std.specs.Prelude.{◌≡◌, ◌≢◌, ◌⊎◌, ◌+◌, ◌^◌, ◌&&◌, not, ◌-◌, ◌++◌, ◌∷◌, ◌<◌, ◌≤◌, None, ℕ, List, [], length, Some, true, false, is_some, slice_get, if◌then◌else◌};
ghost use Rattle.tl_messages.specs.declared.ABeat.{ABeat};
ghost use Rattle.tl_messages.specs.declared.DBeat.{DBeat};
ghost use Rattle.world.specs.Laws.{AreSoundAlong, IsSoundWorld};
ghost use Rattle.world_run.specs.Runs.{handed_at};
ghost use Rattle.world.specs.World.{WorldState, after, in_flight, leaves_all, next};
ghost use Rattle.thread_reports.specs.FullHistories.{BeginScripts};
ghost use Rattle.world.specs.declared.Answer.TheVariants.{Reply};
ghost use Rattle.world.specs.declared.Step.{Step};
ghost use Rattle.world.specs.declared.Step.TheVariants.{Offer, Take};
ghost use Rattle.thread_reports.specs.Mismatches.{IsWrongClient};
ghost use Rattle.thread_reports.specs.Replays.{AreFound, HasReceipt, IsCount, IsFound, IsReplay};
ghost use Rattle.thread_reports.specs.Reports.{AreClientReports, IsClientReport, is_accepted, items_of, takes_beat};
ghost use Rattle.thread_reports.specs.declared.receipts.Receipts.{Receipts};
ghost use Rattle.thread_reports.specs.declared.replay.Found.{Found};

use crate::second_world::SecondWorld;
use crate::{Receipts, leaves_all, named_place};
use tl_messages::{ABeat, ReplyBox};
use world::{Answer, Step, World};

/// The most clients that a bridge has.
pub(crate) const MOST_CLIENTS: usize = 8;

/// What a replay finds of one client.
#[derive(Clone, Copy)]
pub(crate) struct Found {
    /// How many beats it offered as its script has them.
    pub offered: usize,
    /// Whether an Offer wasn't the script's next beat, or wasn't taken.
    pub strayed: bool,
    /// How many requests were accepted; it stays at the largest number.
    pub accepted: usize,
    /// How many replies are as its receipts have them.
    pub right: usize,
    /// How many beats these have.
    pub beats: usize,
    /// Whether the reply after these isn't as its receipts have it.
    pub differs: bool,
}

impl Found {
    pub(crate) const NOTHING: Found = Found {
        offered: 0,
        strayed: false,
        accepted: 0,
        right: 0,
        beats: 0,
        differs: false,
    };

    /// Whether an Offer is of the script's next beat, and is taken, where all before it were so.
    fn goes_on(&self, script: &[ABeat], beat: &ABeat, answer: Answer) -> bool
        ensures goes { result ≡ true → (self.now.strayed ≡ false) × (takes_beat answer ≡ true) × (slice_get script.now self.now.offered ≡ Some beat.now) × (self.now.offered + 1 < 2 ^ 64) }
        ensures strays { result ≡ false → self.now.strayed ≡ false → takes_beat answer ≡ true → slice_get script.now self.now.offered ≡ Some beat.now → ⊥ }
    {
        !self.strayed && takes_beat(answer) && is_next(script, self.offered, beat)
    }

    /// Whether a reply is the receipts' next one, where all before it were so.
    fn receives(&self, received: &Receipts, number: u64, reply: &ReplyBox) -> bool
        ensures same { result ≡ true → (self.now.differs ≡ false) × HasReceipt received.now self.now.right self.now.beats number reply.now × (self.now.right < length received.now.heads.items) × (self.now.beats + length reply.now ≤ length received.now.beats.items) }
        ensures differs { result ≡ false → self.now.differs ≡ false → self.now.beats ≤ length received.now.beats.items → HasReceipt received.now self.now.right self.now.beats number reply.now → ⊥ }
    {
        !self.differs && received.has(self.right, self.beats, number, reply)
    }

    /// After an Offer of the client.
    fn after_offer(self, script: &[ABeat], beat: &ABeat, answer: Answer) -> Found
        ensures { (start : WorldState) (past : List Step) (client : ℕ) (received : Receipts) → IsFound start past client script.now received self → answer ≡ (next (after start past) (Offer client beat.now)).answer → IsFound start (past ++ Offer client beat.now ∷ []) client script.now received result }
    {
        let accepted = accepted_with(self.accepted, answer);
        if !self.goes_on(script, beat, answer) {
            return Found {
                strayed: true,
                accepted,
                ..self
            };
        }
        Found {
            offered: self.offered + 1,
            accepted,
            ..self
        }
    }

    /// After a Take of the client that was answered by a reply.
    fn after_reply(self, received: &Receipts, number: u64, reply: &ReplyBox) -> Found
        ensures { (start : WorldState) (past : List Step) (client : ℕ) (script : List ABeat) → IsFound start past client script received.now self → (next (after start past) (Take client)).answer ≡ Reply number → reply.now ≡ (next (after start past) (Take client)).reply → IsFound start (past ++ Take client ∷ []) client script received.now result }
    {
        if !self.receives(received, number, reply) {
            return Found {
                differs: true,
                ..self
            };
        }
        Found {
            right: self.right + 1,
            beats: self.beats + usize::from(reply.beats()),
            ..self
        }
    }
}

/// Whether an answer tells that a beat was taken.
fn takes_beat(answer: Answer) -> bool
    ensures { result ≡ takes_beat answer }
{
    matches!(answer, Answer::More | Answer::Accepted(_))
}

/// Whether a beat is the one at a place of a script.
fn is_next(script: &[ABeat], place: usize, beat: &ABeat) -> bool
    ensures next { result ≡ true → (slice_get script.now place ≡ Some beat.now) × (place + 1 < 2 ^ 64) }
    ensures other { result ≡ false → slice_get script.now place ≡ Some beat.now → ⊥ }
{
    place < script.len() && script[place] == *beat
}

/// A count of accepted requests with an answer; it stays at the largest number.
fn accepted_with(count: usize, answer: Answer) -> usize
    ensures { (of : ℕ) → IsCount count of → IsCount result (if is_accepted answer then of + 1 else of) }
{
    match answer {
        Answer::Accepted(_) => count.saturating_add(1),
        _ => count,
    }
}

/// A world of its own, and what it found of the steps so far.
#[derive(Drop)]
pub(crate) struct Replay {
    pub(crate) world: World,
    reply: ReplyBox,
    pub(crate) found: [Found; MOST_CLIENTS],
    /// Whether each step changed the world.
    pub(crate) changes: bool,
    /// How many requests were accepted, and how many replies handed out; they stay at the largest number.
    accepted: usize,
    handed: usize,
}

impl Replay {
    /// A second world before the first step, of which nothing was found.
    fn new(second: SecondWorld) -> Replay
        ensures fresh { (scripts : List (List ABeat)) (receipts : List Receipts) → IsReplay second [] scripts receipts result }
        ensures sound { IsSoundWorld second }
    {
        let SecondWorld { world, reply } = second;
        Replay {
            world,
            reply,
            found: [Found::NOTHING; MOST_CLIENTS],
            changes: true,
            accepted: 0,
            handed: 0,
        }
    }

    /// Makes one step more.
    fn make(&mut self, scripts: &[Vec<ABeat>], receipts: &[Receipts], step: &Step)
        ensures grows { (start : WorldState) (past : List Step) → IsReplay start past (items_of scripts.now) receipts.now self.old → IsReplay start (past ++ step.now ∷ []) (items_of scripts.now) receipts.now self.new }
        ensures laws { IsSoundWorld self.new.world }
    {
        let answer = self.world.step(step, &mut self.reply);
        self.changes = changes_with(self.changes, answer);
        self.accepted = accepted_with(self.accepted, answer);
        self.handed = handed_with(self.handed, step, answer);
        match *step {
            Step::Offer(client, beat) => offered(&mut self.found, scripts, client, &beat, answer),
            Step::Take(client) => {
                if let Answer::Reply(number) = answer {
                    taken(&mut self.found, receipts, client, number, &self.reply);
                }
            }
            _ => {}
        }
    }

    /// Makes all steps.
    fn make_all(&mut self, scripts: &[Vec<ABeat>], receipts: &[Receipts], steps: &[Step])
        ensures replays { (start : WorldState) → IsReplay start [] (items_of scripts.now) receipts.now self.old → IsReplay start steps.now (items_of scripts.now) receipts.now self.new }
        ensures laws { (start : WorldState) → IsReplay start [] (items_of scripts.now) receipts.now self.old → IsSoundWorld start → AreSoundAlong start steps.now }
    {
        for step in steps {
            self.make(scripts, receipts, step);
        }
    }
}

/// What the stored steps, made once more in a second world, show beside scripts and receipts.
pub(crate) fn replayed(
    second: SecondWorld,
    scripts: &[Vec<ABeat>],
    receipts: &[Receipts],
    steps: &[Step],
) -> Replay
    ensures replays { IsReplay second steps.now (items_of scripts.now) receipts.now result }
    ensures laws { AreSoundAlong second steps.now }
{
    let mut replay = Replay::new(second);
    replay.make_all(scripts, receipts, steps);
    replay
}

/// Whether all steps changed the world, with one of this answer.
fn changes_with(changes: bool, answer: Answer) -> bool
    ensures { result ≡ (changes && not (leaves_all answer)) }
{
    changes && !leaves_all(answer)
}

/// How many replies were handed out, with a step and its answer; it stays at the largest number.
fn handed_with(count: usize, step: &Step, answer: Answer) -> usize
    ensures { (of : ℕ) (beats : List DBeat) → IsCount count of → IsCount result (if is_some (handed_at step.now answer beats) then of + 1 else of) }
{
    match (*step, answer) {
        (Step::Take(_), Answer::Reply(_)) => count.saturating_add(1),
        _ => count,
    }
}

/// What was found of a client.
fn found_of(found: &[Found; MOST_CLIENTS], client: usize) -> Found
    requires { client < 8 }
    ensures { slice_get found.now client ≡ Some result }
{
    found[client]
}

/// After an Offer of a client, where it has a script.
fn offered(
    found: &mut [Found; MOST_CLIENTS],
    scripts: &[Vec<ABeat>],
    client: u8,
    beat: &ABeat,
    answer: Answer,
)
    ensures { (start : WorldState) (past : List Step) (receipts : List Receipts) → AreFound start past (items_of scripts.now) receipts found.old → answer ≡ (next (after start past) (Offer client beat.now)).answer → AreFound start (past ++ Offer client beat.now ∷ []) (items_of scripts.now) receipts found.new }
{
    let client = usize::from(client);
    if client >= MOST_CLIENTS {
        return;
    }
    if client >= scripts.len() {
        return;
    }
    let before = found_of(found, client);
    let script = scripts[client].as_slice();
    found[client] = before.after_offer(script, beat, answer);
}

/// After a reply that a client took, where it has receipts.
fn taken(
    found: &mut [Found; MOST_CLIENTS],
    receipts: &[Receipts],
    client: u8,
    number: u64,
    reply: &ReplyBox,
)
    ensures { (start : WorldState) (past : List Step) (scripts : List (List ABeat)) → AreFound start past scripts receipts.now found.old → (next (after start past) (Take client)).answer ≡ Reply number → reply.now ≡ (next (after start past) (Take client)).reply → AreFound start (past ++ Take client ∷ []) scripts receipts.now found.new }
{
    let client = usize::from(client);
    if client >= MOST_CLIENTS {
        return;
    }
    if client >= receipts.len() {
        return;
    }
    let before = found_of(found, client);
    found[client] = before.after_reply(&receipts[client], number, reply);
}

/// Whether each of a client's facts holds.
fn is_right(found: &Found, script: &[ABeat], received: &Receipts) -> bool
    ensures right { result ≡ true → (start : WorldState) (steps : List Step) (client : ℕ) → IsFound start steps client script.now received.now found.now → IsClientReport start steps client script.now received.now }
    ensures wrong { result ≡ false → (start : WorldState) (steps : List Step) (client : ℕ) → IsFound start steps client script.now received.now found.now → IsClientReport start steps client script.now received.now → ⊥ }
{
    if found.strayed {
        return false;
    }
    if found.differs {
        return false;
    }
    if found.offered != script.len() {
        return false;
    }
    if found.right != received.heads.len() {
        return false;
    }
    if found.beats != received.beats.len() {
        return false;
    }
    found.accepted == found.right
}

/// The first client of whom not all is right.
pub(crate) fn first_wrong(
    found: &[Found; MOST_CLIENTS],
    scripts: &[Vec<ABeat>],
    receipts: &[Receipts],
) -> Option<usize>
    ensures none { result ≡ None → (start : WorldState) (steps : List Step) → AreFound start steps (items_of scripts.now) receipts.now found.now → AreClientReports start steps (items_of scripts.now) receipts.now }
    ensures some { (client index : ℕ) (start : WorldState) (steps : List Step) → result ≡ Some client → length scripts.now ≤ 8 → length receipts.now ≡ length scripts.now → AreFound start steps (items_of scripts.now) receipts.now found.now → ((of : Found) → slice_get found.now client ≡ Some of → of.right < 2 ^ 32 → index ≡ of.right) → IsWrongClient start steps (items_of scripts.now) receipts.now client index }
{
    for client in 0..scripts.len() {
        if client >= MOST_CLIENTS {
            return Some(client);
        }
        if client >= receipts.len() {
            return Some(client);
        }
        let its = found_of(found, client);
        if !is_right(&its, scripts[client].as_slice(), &receipts[client]) {
            return Some(client);
        }
    }
    None
}

/// Whether each client has receipts, and none strayed from its script.
pub(crate) fn none_strayed(
    found: &[Found; MOST_CLIENTS],
    scripts: &[Vec<ABeat>],
    receipts: &[Receipts],
) -> bool
    ensures { result ≡ true → (start : WorldState) (steps : List Step) → AreFound start steps (items_of scripts.now) receipts.now found.now → BeginScripts steps (items_of scripts.now) }
{
    for client in 0..scripts.len() {
        if client >= MOST_CLIENTS {
            return false;
        }
        if client >= receipts.len() {
            return false;
        }
        let its = found_of(found, client);
        if its.strayed {
            return false;
        }
    }
    true
}

impl Replay {
    /// Whether all that no client shows is right too.
    pub(crate) fn is_settled(&self) -> bool
        ensures settled { result ≡ true → (self.now.changes ≡ true) × (in_flight self.now.world ≡ 0) × (self.now.accepted ≡ self.now.handed) × (self.now.accepted < 2 ^ 64 - 1) }
        ensures unsettled { result ≡ false → (self.now.changes ≡ false) ⊎ (in_flight self.now.world ≢ 0) ⊎ (self.now.accepted ≢ self.now.handed) ⊎ (2 ^ 64 - 1 ≤ self.now.accepted) }
    {
        self.changes
            && self.world.in_flight() == 0
            && self.accepted == self.handed
            && self.accepted < usize::MAX
    }

    /// The place after the receipts of a client that are right.
    pub(crate) fn place_of(&self, client: usize) -> u32
        ensures { (of : Found) → slice_get self.now.found client ≡ Some of → of.right < 2 ^ 32 → result ≡ of.right }
    {
        if client >= MOST_CLIENTS {
            return 0;
        }
        let its = found_of(&self.found, client);
        named_place(its.right)
    }
}

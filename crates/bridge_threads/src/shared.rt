//! What lies under the lock.
ghost use Rattle.std.specs.Prelude.{◌≡◌, ◌⊎◌, ◌↔◌, ◌≤◌, ◌-◌, true, length, Some, IfErr, IfOk, IfSome, IsErr, IsTrue, if◌then◌else◌};
ghost use Rattle.bridge_threads.specs.SharedStates.{opening_shared, turned};
ghost use Rattle.thread_reports.specs.Histories.{IsHistory};
ghost use Rattle.setups.specs.Setups.{lists_of, setup_fault};
ghost use Rattle.world.specs.World.{is_reply, leaves_all, next, opening_world};
ghost use Rattle.setups.specs.declared.SetupFault.TheVariants.{NoMemory};

use std::alloc::Global;
use std::marker::Model;
use thread_reports::leaves_all;
use tl_messages::ReplyBox;
use world::{Answer, Setup, SetupFault, Step, World};

/// The history has no room for a step more.
#[derive(Clone, Copy, Debug, PartialEq, Eq)]
pub struct HistoryFull;

/// What lies under the lock: the world of a set-up, and beside it the history, which is every step that changed that world, in
/// order. So the world is the set-up's opening world after these steps, whoever made them. All room is taken by `new`; no
/// other call takes memory.
#[derive(Drop)]
pub struct Shared {
    setup: Setup,
    world: World,
    steps: Vec<Step>,
    room: usize,
    /// How many clients are still at work.
    working: u8,
    /// Whether all workers are to stop.
    stop: bool,
}

impl Model for Shared {
    ghost use Rattle.std.specs.Prelude.{◌≤◌};
    ghost use Rattle.std.specs.Vec.{vec_capacity, vec_len};
    ghost use Rattle.bridge_threads.specs.SharedStates.{SharedState};
    ghost use Rattle.thread_reports.specs.Histories.{IsHistory};
    ghost use Rattle.setups.specs.Setups.{lists_of};
    ghost use Rattle.world.specs.World.{opening_world};

    ghost Value = { SharedState };

    ghost view = { λ s. record { setup = lists_of s.setup; world = s.world; steps = s.steps.items; room = s.room; working = s.working; stop = s.stop } };

    ghost invariant = { λ s. IsHistory (opening_world (lists_of s.setup)) s.steps.items s.world × (vec_len s.steps ≤ s.room) × (s.room ≤ vec_capacity s.steps) };
}

/// A set-up with the same limits and lists.
fn copied(setup: &Setup) -> Setup
    ensures { lists_of result ≡ lists_of setup.now }
{
    let mut copy = Setup::new(setup.config);
    copy.regions
        .try_extend_from_slice(setup.regions.as_slice())
        .unwrap();
    copy.pages
        .try_extend_from_slice(setup.pages.as_slice())
        .unwrap();
    copy.bad_words
        .try_extend_from_slice(setup.bad_words.as_slice())
        .unwrap();
    copy
}

impl Shared {
    /// The opening world of a set-up, with no steps stored and room for `steps` of them, and all clients at work. Refuses what
    /// `world::setup_fault` does, with that fault; its one other error is NoMemory.
    pub fn new(alloc: Global, setup: &Setup, steps: u32) -> Result<Shared, SetupFault>
        ensures refused { IfSome (setup_fault (lists_of setup.now)) (λ fault. result ≡ Err fault) }
        ensures want { IfErr result (λ fault. (setup_fault (lists_of setup.now) ≡ Some fault) ⊎ (fault ≡ NoMemory)) }
        ensures opens { IfOk result (λ shared. shared ≡ opening_shared (lists_of setup.now) steps) }
    {
        let world = match World::new(alloc, setup) {
            Ok(world) => world,
            Err(fault) => return Err(fault),
        };
        let room = steps as usize;
        let Ok(steps) = Vec::with_capacity(alloc, room) else {
            return Err(SetupFault::NoMemory);
        };
        Ok(Shared {
            setup: copied(setup),
            world,
            steps,
            room,
            working: setup.config.clients,
            stop: false,
        })
    }

    /// The world, which is the set-up's opening world after the stored steps, each of which changed it.
    pub fn world(&self) -> &World
        ensures world { result.now ≡ self.now.world }
        ensures history { IsHistory (opening_world self.now.setup) self.now.steps result.now }
    {
        &self.world
    }

    /// The stored steps, in the order in which they were made.
    pub fn steps(&self) -> &[Step]
        ensures { result.now ≡ self.now.steps }
    {
        self.steps.as_slice()
    }

    /// Makes a step, and stores it where it changed the world: not where it was answered by NotReady, Exhausted, Refused,
    /// NoClient, Idle, NoSuch, Already or Nothing, and then nothing changes. The box changes with a reply alone.
    ///
    /// HistoryFull exactly where as many steps are stored as there is room for, whatever the step is; nothing changes then.
    pub fn turn(&mut self, step: &Step, reply: &mut ReplyBox) -> Result<Answer, HistoryFull>
        ensures full { IsErr result ↔ (self.old.room ≤ length self.old.steps) }
        ensures kept { IsErr result → (self.new ≡ self.old) × (reply.new ≡ reply.old) }
        ensures answer { IfOk result (λ answer. answer ≡ (next self.old.world step.now).answer) }
        ensures state { IfOk result (λ answer. self.new ≡ turned self.old step.now) }
        ensures idle { IfOk result (λ answer. IsTrue (leaves_all answer) → self.new ≡ self.old) }
        ensures reply { IfOk result (λ answer. reply.new ≡ (if is_reply answer then (next self.old.world step.now).reply else reply.old)) }
    {
        if self.steps.len() >= self.room {
            return Err(HistoryFull);
        }
        let answer = self.world.step(step, reply);
        if !leaves_all(answer) {
            self.steps.push_reserved(*step);
        }
        Ok(answer)
    }

    /// Whether all workers are to stop.
    pub(crate) fn is_stopped(&self) -> bool
        ensures { result ≡ self.now.stop }
    {
        self.stop
    }

    /// Tells all workers to stop.
    pub(crate) fn stop(&mut self)
        ensures { self.new ≡ record self.old { stop = true } }
    {
        self.stop = true;
    }

    /// How many clients are still at work.
    pub(crate) fn working(&self) -> u8
        ensures { result ≡ self.now.working }
    {
        self.working
    }

    /// Counts a client out.
    pub(crate) fn count_out(&mut self)
        ensures { self.new ≡ record self.old { working = self.old.working - 1 } }
    {
        self.working = self.working.saturating_sub(1);
    }

    /// The stored steps alone.
    pub(crate) fn into_steps(self) -> Vec<Step>
        ensures { result.items ≡ self.steps }
    {
        let Shared { steps, .. } = self;
        steps
    }
}

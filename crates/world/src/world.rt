//! The world: a bridge and a memory, one event at a time.
ghost use Rattle.std.specs.Prelude.{◌≡◌, ◌+◌, ◌≤◌, ◌<◌, ◌⊎◌, [], false, true, length, map, None, Some, option_map, slice_get, IfErr, IfOk, IfSome, IsTrue, if◌then◌else◌};
ghost use Rattle.world.specs.Laws.{IsSoundWorld, TakeAll};
ghost use Rattle.setups.specs.Setups.{lists_of, setup_fault};
ghost use Rattle.setups.specs.declared.SetupFault.TheVariants.{NoMemory};
ghost use Rattle.world.specs.declared.Step.TheVariants.{Offer, Pump, Perform, AnswerB, AnswerR, Take};

use crate::parts::{give_b, give_r, send};
use crate::{Answer, Setup, SetupFault, Step, setup_fault};
use axi_beats::BurstBox;
use bridge_core::{Bridge, Offered, Taken};
use burst_plan::PageMap;
use std::alloc::{AllocError, Global};
use std::marker::Model;
use subordinate::{Device, Performed};
use tl_messages::{ABeat, ReplyBox};

/// Bridge and memory as one world, one event at a time: each burst that the bridge sends goes to the memory, and each
/// answer of the memory goes to the bridge. All room is taken by `new`; no other call takes memory.
pub struct World {
    pub(crate) bridge: Bridge,
    pub(crate) device: Device,
    empty: BurstBox,
    last_sent: Option<u64>,
}

impl Model for World {
    ghost use Rattle.world.specs.World.{WorldState};
    ghost use Rattle.std.specs.Prelude.{◌≡◌, None};
    ghost use Rattle.world.specs.Inside.{world_state, ArePaired};

    ghost Value = { WorldState };

    ghost view = { λ w. world_state w.bridge w.device w.last_sent };

    ghost invariant = { λ w. ArePaired w.bridge w.device × (w.empty ≡ None) };
}

// Written out, so that what lets go of one calls this, and proves nothing of its parts.
impl Drop for World {
    fn drop(self) {
        let World {
            bridge: _,
            device: _,
            empty: _,
            last_sent: _,
        } = self;
    }
}

impl World {
    ghost use Rattle.bridge_core.specs.HeldRequests.{oldest_done};
    ghost use Rattle.std.specs.Prelude.{is_some};
    ghost use Rattle.bridge_core.specs.Bridge as bridges;
    ghost use Rattle.subordinate.specs.FreeMemory.{performed_waiting, waiting_beats};
    ghost use Rattle.world.specs.Choices.{PerformsFirst};
    ghost use Rattle.world.specs.World.{byte_of, in_flight, is_reply, leaves_all, next, opening_world, work_left};

    /// The opening world of a set-up. Refuses what `setup_fault` does, with that fault; its one other error is NoMemory, and
    /// memory is asked for only where the set-up isn't refused.
    pub fn new(alloc: Global, setup: &Setup) -> Result<World, SetupFault>
        ensures refused { IfSome (setup_fault (lists_of setup.now)) (λ fault. result ≡ Err fault) }
        ensures want { IfErr result (λ fault. (setup_fault (lists_of setup.now) ≡ Some fault) ⊎ (fault ≡ NoMemory)) }
        ensures opens { IfOk result (λ world. world ≡ opening_world (lists_of setup.now)) }
        ensures laws { IfOk result IsSoundWorld }
    {
        if let Some(fault) = setup_fault(setup) {
            return Err(fault);
        }
        match World::opening(alloc, setup) {
            Ok(world) => Ok(world),
            Err(_) => Err(SetupFault::NoMemory),
        }
    }

    fn opening(alloc: Global, setup: &Setup) -> Result<World, AllocError>
        requires { setup_fault (lists_of setup.now) ≡ None }
        ensures opens { IfOk result (λ world. world ≡ opening_world (lists_of setup.now)) }
    {
        let Ok(map) = PageMap::new(alloc, setup.regions.as_slice()) else {
            return Err(AllocError);
        };
        let Ok(bridge) = Bridge::new(alloc, setup.config, map) else {
            return Err(AllocError);
        };
        let width = setup.config.axi_bytes;
        let pages = setup.pages.as_slice();
        let Ok(device) = Device::new(alloc, width, pages, setup.bad_words.as_slice()) else {
            return Err(AllocError);
        };
        let empty = BurstBox::new(alloc)?;
        Ok(World {
            bridge,
            device,
            empty,
            last_sent: None,
        })
    }

    /// The byte at an address of a good page; none elsewhere.
    pub fn byte(&self, address: u32) -> Option<u8>
        ensures { result ≡ byte_of self.now address }
    {
        self.device.byte(address)
    }

    /// How many requests were accepted and aren't done.
    pub fn in_flight(&self) -> u16
        ensures { result ≡ in_flight self.now }
    {
        self.bridge.in_flight()
    }

    /// The work left: bursts to send, beats to perform, answers to come. A fresh atomic counts its write from the start.
    pub fn work_left(&self) -> u64
        ensures work { result ≡ work_left self.now }

        // With the performed beats that wait for their answer it is what the bridge counts, which sees no beat performed before.
        ensures bridge { result + performed_waiting self.now.memory ≡ bridges.work_left self.now.bridge }
    {
        self.bridge.unsent_work() + self.device.work_left()
    }

    /// Whether a client could take a reply.
    pub fn first_done(&self, client: u8) -> bool
        ensures { result ≡ is_some (oldest_done self.now.bridge.requests.live client) }
    {
        self.bridge.first_done(client)
    }

    /// The burst sent by the last step that changed the world, where that was a Pump; else an empty box. A `drain` that makes a
    /// step leaves it empty, since its last step is an answer.
    pub fn last_burst(&self) -> &BurstBox
        ensures { result.now ≡ self.now.last_sent }
    {
        let Some(serial) = self.last_sent else {
            return &self.empty;
        };
        match self.device.burst(serial) {
            Some(burst) => burst,
            None => &self.empty,
        }
    }

    /// One event: the next state and the answer are those that `next` defines, and the box changes with a reply alone.
    #[inline(always)]
    pub fn step(&mut self, step: &Step, reply: &mut ReplyBox) -> Answer
        ensures answer { result ≡ (next self.old step.now).answer }
        ensures state { self.new ≡ (next self.old step.now).state }
        ensures reply { reply.new ≡ (if is_reply result then (next self.old step.now).reply else reply.old) }
        ensures kept { IsTrue (leaves_all result) → self.new ≡ self.old }

        // Bridge and memory agree, before it as after it, and neither refuses what the other hands it.
        ensures laws_before { IsSoundWorld self.old }
        ensures laws { IsSoundWorld self.new }
        ensures take_all { TakeAll self.old }
    {
        self.made(step, reply)
    }

    #[inline(always)]
    fn made(&mut self, step: &Step, reply: &mut ReplyBox) -> Answer
        ensures answer { result ≡ (next self.old step.now).answer }
        ensures state { self.new ≡ (next self.old step.now).state }
        ensures reply { reply.new ≡ (if is_reply result then (next self.old step.now).reply else reply.old) }
        ensures laws { IsSoundWorld self.old × IsSoundWorld self.new }
    {
        match step {
            Step::Offer(client, beat) => self.offer(*client, beat),
            Step::Pump => self.pump(),
            Step::Perform(serial, beat) => self.perform(*serial, *beat),
            Step::AnswerB(id) => self.answer_b(*id),
            Step::AnswerR(id) => self.answer_r(*id),
            Step::Take(client) => self.take(*client, reply),
        }
    }

    #[inline(always)]
    fn offer(&mut self, client: u8, beat: &ABeat) -> Answer
        ensures answer { result ≡ (next self.old (Offer client beat.now)).answer }
        ensures state { self.new ≡ (next self.old (Offer client beat.now)).state }
        ensures laws { IsSoundWorld self.old × IsSoundWorld self.new }
    {
        let answer = match self.bridge.offer(client, beat) {
            Offered::NoClient => return Answer::NoClient,
            Offered::Refused(rule) => return Answer::Refused(rule),
            Offered::NotReady => return Answer::NotReady,
            Offered::Exhausted => return Answer::Exhausted,
            Offered::More => Answer::More,
            Offered::Accepted(number) => Answer::Accepted(number),
        };
        self.last_sent = None;
        answer
    }

    #[inline(always)]
    pub(crate) fn pump(&mut self) -> Answer
        ensures answer { result ≡ (next self.old Pump).answer }
        ensures state { self.new ≡ (next self.old Pump).state }
        ensures laws { IsSoundWorld self.old × IsSoundWorld self.new }
    {
        let Some(serial) = send(&mut self.bridge, &mut self.device) else {
            return Answer::Idle;
        };
        self.last_sent = Some(serial);
        Answer::Sent(serial)
    }

    #[inline(always)]
    pub(crate) fn perform(&mut self, serial: u64, beat: u16) -> Answer
        ensures answer { result ≡ (next self.old (Perform serial beat)).answer }
        ensures state { self.new ≡ (next self.old (Perform serial beat)).state }
        ensures laws { IsSoundWorld self.old × IsSoundWorld self.new }
    {
        match self.device.perform(serial, beat) {
            Performed::NoSuch => Answer::NoSuch,
            Performed::Already => Answer::Already,
            Performed::Done => {
                self.last_sent = None;
                Answer::Done
            }
        }
    }

    /// Performs the first beat that waits, and answers whether one did.
    #[inline(always)]
    pub(crate) fn perform_first(&mut self) -> bool
        ensures none { result ≡ false → (waiting_beats self.old.memory ≡ []) × (self.new ≡ self.old) }
        ensures first { result ≡ true → PerformsFirst self.old self.new }
        ensures laws { IsSoundWorld self.old × IsSoundWorld self.new }
    {
        if !self.device.perform_first() {
            return false;
        }
        self.last_sent = None;
        true
    }

    #[inline(always)]
    pub(crate) fn answer_b(&mut self, id: u8) -> Answer
        ensures answer { result ≡ (next self.old (AnswerB id)).answer }
        ensures state { self.new ≡ (next self.old (AnswerB id)).state }
        ensures laws { IsSoundWorld self.old × IsSoundWorld self.new }
    {
        let Some(beat) = give_b(&mut self.bridge, &mut self.device, id) else {
            return Answer::Nothing;
        };
        self.last_sent = None;
        Answer::B(beat)
    }

    #[inline(always)]
    pub(crate) fn answer_r(&mut self, id: u8) -> Answer
        ensures answer { result ≡ (next self.old (AnswerR id)).answer }
        ensures state { self.new ≡ (next self.old (AnswerR id)).state }
        ensures laws { IsSoundWorld self.old × IsSoundWorld self.new }
    {
        let Some(beat) = give_r(&mut self.bridge, &mut self.device, id) else {
            return Answer::Nothing;
        };
        self.last_sent = None;
        Answer::R(beat)
    }

    #[inline(always)]
    fn take(&mut self, client: u8, reply: &mut ReplyBox) -> Answer
        ensures answer { result ≡ (next self.old (Take client)).answer }
        ensures state { self.new ≡ (next self.old (Take client)).state }
        ensures laws { IsSoundWorld self.old × IsSoundWorld self.new }
        ensures reply { reply.new ≡ (if is_reply result then (next self.old (Take client)).reply else reply.old) }
    {
        match self.bridge.take(client, reply) {
            Taken::NoClient => Answer::NoClient,
            Taken::Nothing => Answer::Nothing,
            Taken::Reply(number) => {
                self.last_sent = None;
                Answer::Reply(number)
            }
        }
    }
}

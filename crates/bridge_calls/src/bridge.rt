//! The model as it runs: a world, the reply that was taken last, and the last step's answer.
ghost use Rattle.std.specs.Prelude.{◌≡◌, ◌⊎◌, Some, IfErr, IfOk, IfSome, slice_get};
ghost use Rattle.setups.specs.Setups.{lists_of, setup_fault};
ghost use Rattle.setups.specs.declared.SetupFault.TheVariants.{NoMemory};
ghost use Rattle.world.specs.Laws.{IsSoundWorld};
ghost use Rattle.world.specs.World.{enabled, next};
ghost use Rattle.bridge_calls.specs.Bridges.{AfterDrain, AfterStep, asked_of, opening_bridge};

use crate::answers::{
    answer_number, answer_payload, burst_address, burst_data, burst_head, burst_strobes,
    reply_fields, reply_payload, step_head, step_serial,
};
use crate::kinds::CallKind;
use call_words::{WRONG_CALL, byte_answer};
use std::alloc::Global;
use std::marker::Model;
use tl_messages::ReplyBox;
use world_run::{Answer, Setup, SetupFault, Step, World, opened, ordered_step};

/// A world that is driven step by step.
pub(crate) struct Bridge {
    world: World,
    reply: ReplyBox,
    last: Answer,
}

impl Model for Bridge {
    ghost use Rattle.bridge_calls.specs.Bridges.{BridgeState};
    ghost use Rattle.world.specs.Laws.{IsSoundWorld};

    ghost Value = { BridgeState };

    ghost view = { λ b. record { world = b.world; reply = b.reply; last = b.last } };

    ghost invariant = { λ b. IsSoundWorld b.world };
}

// Written out, so that what lets go of one calls this, and proves nothing of its parts.
impl Drop for Bridge {
    fn drop(self) {
        let Bridge {
            world: _,
            reply: _,
            last: _,
        } = self;
    }
}

impl Bridge {
    /// The opening world of a set-up. All room is taken here.
    pub(crate) fn new(alloc: Global, setup: &Setup) -> Result<Bridge, SetupFault>
        ensures refused { IfSome (setup_fault (lists_of setup.now)) (λ fault. result ≡ Err fault) }
        ensures want { IfErr result (λ fault. (setup_fault (lists_of setup.now) ≡ Some fault) ⊎ (fault ≡ NoMemory)) }
        ensures opens { IfOk result (λ bridge. bridge ≡ opening_bridge (lists_of setup.now)) }
    {
        let world = match opened(alloc, setup) {
            Ok(world) => world,
            Err(fault) => return Err(fault),
        };
        let Ok(reply) = ReplyBox::new(alloc) else {
            return Err(SetupFault::NoMemory);
        };
        Ok(Bridge {
            world,
            reply,
            last: Answer::Nothing,
        })
    }

    /// Bridge and memory agree, as they always do: it does nothing, and is there for what it says.
    pub(crate) fn agrees(&self)
        ensures { IsSoundWorld self.now.world }
    {
        let _ = &self.last;
    }

    /// Makes a step.
    pub(crate) fn step(&mut self, step: &Step) -> Answer
        ensures answer { result ≡ (next self.old.world step.now).answer }
        ensures done { AfterStep self.old step.now self.new }
    {
        let answer = ordered_step(&mut self.world, step, &mut self.reply);
        self.last = answer;
        answer
    }

    /// Makes the first step that is enabled until there is none, and answers how many steps these were. It takes no reply.
    pub(crate) fn drain(&mut self) -> u64
        ensures { AfterDrain self.old result self.new }
    {
        self.world.drain()
    }

    /// One of the steps that are enabled.
    fn choice(&self, k: u32) -> Option<Step>
        ensures { result ≡ slice_get (enabled self.now.world) k }
    {
        if k < self.world.choices() {
            return Some(self.world.choose(k));
        }
        None
    }

    /// What is asked of it, where the asking has this number.
    pub(crate) fn asked(&self, kind: CallKind, number: u32) -> u64
        ensures { result ≡ asked_of self.now kind number }
    {
        let burst = self.world.last_burst();
        match kind {
            CallKind::AnswerNumber => answer_number(self.last),
            CallKind::AnswerPayload => answer_payload(self.last),
            CallKind::Choices => u64::from(self.world.choices()),
            CallKind::Choice => step_head(self.choice(number)),
            CallKind::ChoiceSerial => step_serial(self.choice(number)),
            CallKind::Byte => byte_answer(self.world.byte(number)),
            CallKind::Work => self.world.work_left(),
            CallKind::InFlight => u64::from(self.world.in_flight()),
            CallKind::Burst => burst_head(burst),
            CallKind::BurstAddress => burst_address(burst),
            CallKind::BurstData => burst_data(burst, number),
            CallKind::BurstStrobes => burst_strobes(burst, number),
            CallKind::ReplyBeats => u64::from(self.reply.beats()),
            CallKind::ReplyFields => reply_fields(&self.reply, number),
            CallKind::ReplyPayload => reply_payload(&self.reply, number),
            _ => WRONG_CALL,
        }
    }
}

//! The set-up: lines as they stand in a script of `tlbridge run` before its first command.
ghost use Rattle.std.specs.Prelude.{◌≡◌, ◌+◌, IfOk};
ghost use Rattle.world.specs.Laws.{IsSoundWorld};
ghost use Rattle.script_text.specs.Stages.{GivesWorld, Opening, world_at};
ghost use Rattle.bridge_calls.specs.SetUps.{OpensInOrder, SetUpTold, set_up_kind, stage_in};

use crate::bridge::Bridge;
use line_text::Words;
use script_text::{Form, Kind, ScriptFault, StagedScript, take_line};
use std::alloc::Global;
use std::io::{Write, sink};
use std::marker::Model;
use world_run::{Setup, SetupFault};

/// The most lines.
const MOST: u32 = 65_536;

/// A set-up without commands.
#[derive(Drop)]
pub(crate) struct SetUpAlone;

impl Kind for SetUpAlone {
    ghost use Rattle.std.specs.Prelude.{false};
    ghost use Rattle.script_text.proofs.StageSteps.{says_itself};
    ghost use Rattle.setups.specs.Setups.{SetupLists, lists_of};
    ghost use Rattle.bridge_calls.specs.Bridges.{BridgeState};
    ghost use Rattle.bridge_calls.specs.CommandTexts.{set_up_gives};
    ghost use Rattle.bridge_calls.specs.SetUps.{set_up_kind};

    type Setup = Setup;

    type Own = ();

    type World = Bridge;

    ghost Lists = { SetupLists };

    ghost lists = { lists_of };

    ghost State = { BridgeState };

    ghost said = { λ bridge. bridge };

    ghost Command = { Unit {0} };

    ghost rules = { set_up_kind };

    ghost grows = { false };

    fn most_lines() -> u32 {
        MOST
    }

    fn takes(_form: Form) -> bool {
        true
    }

    fn own_opening() {}

    fn own_line(_own: &(), _words: &Words<'_>) -> Option<Result<(), u32>> {
        None
    }

    fn passes(_words: &Words<'_>) -> bool {
        false
    }

    fn open(alloc: Global, _own: &(), setup: &Setup) -> Result<Bridge, SetupFault> {
        Bridge::new(alloc, setup)
    }

    fn wrong_first(_own: &(), _setup: &Setup, _words: &Words<'_>) -> Option<u32> {
        Some(1)
    }

    fn carry_line<W: Write>(
        &mut self,
        _bridge: &mut Bridge,
        number: u32,
        _words: &Words<'_>,
        _writer: &mut W,
    ) -> Result<bool, ScriptFault> {
        Err(ScriptFault::at(number, 1))
    }

    fn end<W: Write>(_bridge: &mut Bridge, _writer: &mut W) -> Result<bool, ScriptFault> {
        Ok(false)
    }

    ghost gives_text = { set_up_gives };

    ghost adds_up = { says_itself _ _ };
}

/// The lines of a set-up.
#[derive(Drop)]
pub(crate) struct SetUp {
    script: StagedScript<SetUpAlone>,
    number: u32,
}

impl Model for SetUp {
    ghost use Rattle.std.specs.Prelude.{◌≤◌};
    ghost use Rattle.bridge_calls.specs.SetUps.{SetUpState};

    ghost Value = { SetUpState };

    ghost view = { λ s. record { stage = s.script; number = s.number } };

    ghost invariant = { λ s. s.number ≤ 65536 };
}

impl SetUp {
    /// No line yet.
    pub(crate) fn new() -> SetUp
        ensures stage { result.stage ≡ Opening }
        ensures number { result.number ≡ 0 }
    {
        SetUp {
            script: StagedScript::new(SetUpAlone),
            number: 0,
        }
    }

    /// Takes a line without its line feed. Behind a fault nothing is promised of it.
    pub(crate) fn line(&mut self, alloc: Global, line: &[u8]) -> Result<(), ScriptFault>
        ensures { SetUpTold self.old line.now self.new result }
    {
        let at = self.number + 1;
        if at > MOST {
            return Err(ScriptFault::at(at, 0));
        }
        take_line(&mut self.script, alloc, at, line, &mut sink())?;
        self.number = at;
        Ok(())
    }

    /// The model of this set-up.
    pub(crate) fn begin(self, alloc: Global) -> Result<Bridge, ScriptFault>
        ensures world { GivesWorld (λ bridge. bridge) (world_at set_up_kind (stage_in self) (self.number + 1)) result }
        ensures order { OpensInOrder (stage_in self) result }
        ensures laws { IfOk result (λ bridge. IsSoundWorld bridge.world) }
    {
        let SetUp { script, number } = self;
        let bridge = script.into_world(alloc, number + 1)?;
        bridge.agrees();
        Ok(bridge)
    }
}

//! What every kind of script has in common: a `config` line, other set-up lines, and then commands.
ghost use Rattle.std.specs.Prelude.{◌≡◌, ◌<◌, ◌&&◌, false, true, Err};
ghost use Rattle.script_text.specs.Forms.{told_as};
ghost use Rattle.script_text.specs.Stages.{GivesWorld, OpensAs, Opening, TakesLine, Writes, WritesEnd, early_step, is_misplaced, nothing_written, other_step, reading_of, set_up_as, set_up_with, setup_step, stage_as, stage_wants, world_at};
ghost use Rattle.script_text.specs.Steps.{TakesStep};
ghost use Rattle.script_text.specs.declared.faults.ScriptFault.TheVariants.{NoMemory};

use crate::driver::Script;
use crate::faults::ScriptFault;
use crate::keywords::Form;
use crate::setup_lines::{ScriptSetup, is_setup_form};
use line_text::Words;
use setups::SetupFault;
use std::alloc::Global;
use std::io::Write;
use std::marker::Model;

/// A kind of script: the lines that it has, and what its commands do.
pub trait Kind {
    ghost use Rattle.std.specs.Prelude.{ℕ, Bool, ◌&&◌};
    ghost use Rattle.script_text.specs.Stages.{GivesSome, Kind as Rules, SaysAlike, line_commanded, told_wants, wrong_opened};

    /// What its set-up lines add up to.
    type Setup: ScriptSetup + Drop;

    /// What its own set-up lines have said.
    type Own: Drop;

    /// What its commands work on.
    type World: Drop;

    /// What its rules say of a set-up.
    ghost Lists: { Type 0 };

    /// A set-up, as the rules say it.
    ghost lists: { Self.Setup → Lists };

    /// What its rules say of what commands work on. It may have functions, which no model's value has.
    ghost State: { Type 0 };

    /// What commands work on, as the rules say it.
    ghost said: { Self.World → State };

    /// What a line says that is a command.
    ghost Command: { Type 0 };

    /// What its lines do.
    ghost rules: { Rules Lists Self.Own State Command };

    /// Whether what commands work on may ask for memory in mid-run, at the commands that the rules say and at the input's end.
    ghost grows: { Bool };

    /// How many lines a script may have.
    fn most_lines() -> u32
        ensures most { result ≡ rules.most_lines }
        ensures small { result < 4294967295 };

    /// Whether it has set-up lines of this form.
    fn takes(form: Form) -> bool
        ensures { result ≡ rules.takes form };

    /// What its own set-up lines have said before the first of them.
    fn own_opening() -> Self::Own
        ensures { result ≡ rules.own_opening };

    /// What its own set-up lines have said with one line more, or that line's first wrong word, where it is one of them.
    fn own_line(own: &Self::Own, words: &Words<'_>) -> Option<Result<Self::Own, u32>>
        ensures { result ≡ rules.own_line own.now words.now };

    /// Whether a line is passed over where it stands before the first command.
    fn passes(words: &Words<'_>) -> bool
        ensures { result ≡ rules.passes words.now };

    /// Makes what commands work on.
    fn open(alloc: Global, own: &Self::Own, setup: &Self::Setup) -> Result<Self::World, SetupFault>
        ensures { OpensAs (rules.opened own.now (lists setup.now)) (told_as said result) };

    /// The wrong word of a line that would be the first command, by what would be made for it: word 1, where no command begins so.
    /// Where the set-up is refused, the line only has to say a command.
    fn wrong_first(own: &Self::Own, setup: &Self::Setup, words: &Words<'_>) -> Option<u32>
        ensures { (number : ℕ) → result ≡ wrong_opened rules (rules.opened own.now (lists setup.now)) number (rules.command_of words.now) };

    /// Carries out the command that a line says, by the line's number, and writes its text. The answer is whether there was any.
    /// A fault is the line's first wrong word, that of the writer, or that memory was refused.
    fn carry_line<W: Write>(
        &mut self,
        world: &mut Self::World,
        number: u32,
        words: &Words<'_>,
        writer: &mut W,
    ) -> Result<bool, ScriptFault>
        ensures { Writes (grows && told_wants rules (said world.old) (rules.command_of words.now)) number (line_commanded rules (said world.old) number (rules.command_of words.now)) (said world.new) (W.contents writer.old) (W.contents writer.new) result };

    /// Writes the text of the input's end. The answer is what the script answers; a fault is as above.
    fn end<W: Write>(world: &mut Self::World, writer: &mut W) -> Result<bool, ScriptFault>
        ensures { WritesEnd (grows && rules.wants_at_end (said world.old)) (rules.ending (said world.old)) (W.contents writer.old) (W.contents writer.new) result };

    /// A command has text, or a script that ends after it.
    ghost gives_text: { GivesSome rules };

    /// Its rules say of a set-up what that says of itself.
    ghost adds_up: { SaysAlike Self.Setup.lists Self.Setup.rules lists rules.set_up };
}

/// How far a script has come.
#[derive(Drop)]
enum Stage<Z, S, W> {
    /// No line yet.
    Opening,
    /// Set-up lines, and what the kind's own of these have said.
    SettingUp(Z, S),
    /// Commands.
    Running(W),
}

/// A script of a kind, and how far it has come.
#[derive(Drop)]
pub struct StagedScript<K: Kind> {
    kind: K,
    stage: Stage<K::Setup, K::Own, K::World>,
}

impl<K: Kind> Model for StagedScript<K> {
    ghost use Rattle.script_text.specs.Stages.{Stage as ScriptStage, stage_of};

    ghost Value = { ScriptStage K.Setup K.Own K.World };

    ghost view = { λ s. stage_of s.stage };
}

impl<K: Kind> StagedScript<K> {
    /// A script of which no line was read.
    pub fn new(kind: K) -> StagedScript<K>
        ensures { result ≡ Opening }
    {
        StagedScript {
            kind,
            stage: Stage::Opening,
        }
    }

    /// Whether a set-up line of this form may not stand here.
    fn is_misplaced(&self, form: Form, words: &Words<'_>) -> bool
        ensures { result ≡ is_misplaced K.rules (stage_as K.lists K.said self.now) form words.now }
    {
        match &self.stage {
            Stage::Opening => !matches!(form, Form::Config),
            Stage::SettingUp(setup, _) => setup.has_no_room(form, words),
            Stage::Running(_) => true,
        }
    }

    /// Takes a line of a set-up form that may stand here, or answers its first wrong word.
    fn set_up(&mut self, form: Form, words: &Words<'_>) -> Result<(), u32>
        requires { is_misplaced K.rules (stage_as K.lists K.said self.old) form words.now ≡ false }
        ensures { TakesLine (set_up_with K.rules (stage_as K.lists K.said self.old) words.now form) (stage_as K.lists K.said self.new) result }
    {
        if matches!(form, Form::Config) {
            let setup = K::Setup::of_config(words)?;
            self.stage = Stage::SettingUp(setup, K::own_opening());
            return Ok(());
        }
        let Stage::SettingUp(setup, _) = &mut self.stage else {
            return Err(1);
        };
        setup.add(form, words)
    }

    /// Takes a line of a set-up form.
    fn take_setup_line<W: Write>(
        &mut self,
        number: u32,
        words: &Words<'_>,
        form: Form,
        _writer: &mut W,
    ) -> Result<bool, ScriptFault>
        ensures { TakesStep (reading_of K.rules) (K.grows && stage_wants K.rules (stage_as K.lists K.said self.old) (K.rules.command_of words.now)) (setup_step K.rules (stage_as K.lists K.said self.old) number words.now form) nothing_written (stage_as K.lists K.said self.old) (stage_as K.lists K.said self.new) (W.contents _writer.old) (W.contents _writer.new) result }
    {
        if !K::takes(form) || self.is_misplaced(form, words) {
            return Err(ScriptFault::at(number, 1));
        }
        match self.set_up(form, words) {
            Err(word) => Err(ScriptFault::at(number, word)),
            Ok(()) => Ok(false),
        }
    }

    /// Makes what commands work on.
    fn opened(alloc: Global, own: &K::Own, setup: &K::Setup) -> Result<K::World, ScriptFault>
        ensures { GivesWorld K.said (set_up_as (K.rules.opened own.now (K.lists setup.now))) result }
    {
        match K::open(alloc, own, setup) {
            Ok(world) => Ok(world),
            Err(SetupFault::NoMemory) => Err(ScriptFault::NoMemory),
            Err(fault) => Err(ScriptFault::Setup(fault)),
        }
    }

    /// Takes a line of no set-up form: one of the kind's own, or the first command. That is checked before what it works on is made,
    /// so that want of memory hides no fault.
    fn take_other_line<W: Write>(
        &mut self,
        alloc: Global,
        number: u32,
        words: &Words<'_>,
        writer: &mut W,
    ) -> Result<bool, ScriptFault>
        ensures { TakesStep (reading_of K.rules) (K.grows && stage_wants K.rules (stage_as K.lists K.said self.old) (K.rules.command_of words.now)) (other_step K.rules (stage_as K.lists K.said self.old) number words.now) nothing_written (stage_as K.lists K.said self.old) (stage_as K.lists K.said self.new) (W.contents writer.old) (W.contents writer.new) result }
    {
        let Stage::SettingUp(setup, own) = &mut self.stage else {
            return Err(ScriptFault::at(number, 1));
        };
        match K::own_line(own, words) {
            Some(Err(word)) => return Err(ScriptFault::at(number, word)),
            Some(Ok(said)) => {
                *own = said;
                return Ok(false);
            }
            None => {}
        }
        if let Some(word) = K::wrong_first(own, setup, words) {
            return Err(ScriptFault::at(number, word));
        }
        let mut world = Self::opened(alloc, own, setup)?;
        let wrote = self.kind.carry_line(&mut world, number, words, writer);
        self.stage = Stage::Running(world);
        wrote
    }

    /// Takes a line before the first command. It is apart, since a function clears the room for its values at its entry.
    #[inline(never)]
    fn take_early<W: Write>(
        &mut self,
        alloc: Global,
        number: u32,
        words: &Words<'_>,
        writer: &mut W,
    ) -> Result<bool, ScriptFault>
        requires { nothing_written (stage_as K.lists K.said self.old) ≡ true }
        ensures { TakesStep (reading_of K.rules) (K.grows && stage_wants K.rules (stage_as K.lists K.said self.old) (K.rules.command_of words.now)) (early_step K.rules (stage_as K.lists K.said self.old) number words.now) nothing_written (stage_as K.lists K.said self.old) (stage_as K.lists K.said self.new) (W.contents writer.old) (W.contents writer.new) result }
    {
        if K::passes(words) {
            return Ok(false);
        }
        let Some(form) = Form::named(words.at(1)) else {
            return self.take_other_line(alloc, number, words, writer);
        };
        if is_setup_form(form) {
            return self.take_setup_line(number, words, form, writer);
        }
        self.take_other_line(alloc, number, words, writer)
    }
}

impl<K: Kind + Drop> StagedScript<K> {
    /// What the commands of a script work on, for one who carries them out himself, by the number of the line that is next. Where
    /// no command came it is made, and memory is asked for there alone.
    pub fn into_world(self, alloc: Global, number: u32) -> Result<K::World, ScriptFault>
        ensures world { GivesWorld K.said (world_at K.rules (stage_as K.lists K.said self) number) result }
        ensures silent { result ≡ Err NoMemory → nothing_written (stage_as K.lists K.said self) ≡ true }
    {
        let StagedScript { kind: _, stage } = self;
        match stage {
            Stage::Opening => Err(ScriptFault::at(number, 1)),
            Stage::SettingUp(setup, own) => Self::opened(alloc, &own, &setup),
            Stage::Running(world) => Ok(world),
        }
    }
}

impl<K: Kind + Drop> Script for StagedScript<K> {
    ghost use Rattle.script_text.specs.Stages.{Stage, nothing_written, reading_of, stage_as};

    /// What a script that ends answers, as its kind says it.
    type Answer = bool;

    ghost State = { Stage K.Lists K.Own K.State };

    ghost state = { λ script. stage_as K.lists K.said script };

    ghost reading = { reading_of K.rules };

    ghost is_silent = { nothing_written };

    ghost grows = { K.grows };

    fn most_lines() -> u32 {
        K::most_lines()
    }

    fn take_words<W: Write>(
        &mut self,
        alloc: Global,
        number: u32,
        words: &Words<'_>,
        writer: &mut W,
    ) -> Result<bool, ScriptFault> {
        let StagedScript { kind, stage } = self;
        if let Stage::Running(world) = stage {
            return kind.carry_line(world, number, words, writer);
        }
        self.take_early(alloc, number, words, writer)
    }

    fn end<W: Write>(
        self,
        alloc: Global,
        number: u32,
        writer: &mut W,
    ) -> Result<bool, ScriptFault> {
        let mut world = self.into_world(alloc, number)?;
        K::end(&mut world, writer)
    }
}

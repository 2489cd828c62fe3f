//! An observation, as it is read.
ghost use Rattle.std.specs.Prelude.{true};
ghost use Rattle.script_text.specs.Scripts.{EndsOrStops};
ghost use Rattle.script_text.specs.Stops.{EndsHolding};
ghost use Rattle.score_script.specs.Scores.{opening_state, score_reading};

use crate::lines::{command_of, only_settles};
use crate::profiles::Asked;
use crate::score::{Score, wrong_at_first};
use line_text::Words;
use score_setup::{ScoreSetup, score_setup_fault};
use script_text::{
    Form, Kind, ScriptFault, StagedScript, StoppedLine, read_script, read_script_with,
};
use setups::SetupFault;
use std::alloc::Global;
use std::io::{Read, Write};

/// An observation.
#[derive(Drop)]
pub(crate) struct ScoreScript;

impl Kind for ScoreScript {
    ghost use Rattle.std.specs.Prelude.{true};
    ghost use Rattle.score_setup.specs.ScoreSetups.{RangeLists, ranges_of};
    ghost use Rattle.script_text.proofs.StageSteps.{says_itself};
    ghost use Rattle.score_script.specs.CommandTexts.{score_gives};
    ghost use Rattle.score_script.specs.ScoreStates.{score_of};
    ghost use Rattle.score_script.specs.Scores.{Score, score_kind};
    ghost use Rattle.score_script.specs.declared.score.Command.{Command};

    type Setup = ScoreSetup;

    type Own = Asked;

    type World = Score;

    ghost Lists = { RangeLists };

    ghost lists = { ranges_of };

    ghost State = { Score };

    ghost said = { score_of };

    ghost Command = { Command };

    ghost rules = { score_kind };

    ghost grows = { true };

    /// The line after the last has a number.
    fn most_lines() -> u32 {
        4_294_967_294
    }

    fn takes(_form: Form) -> bool {
        true
    }

    fn own_opening() -> Asked {
        Asked::nothing()
    }

    fn own_line(asked: &Asked, words: &Words<'_>) -> Option<Result<Asked, u32>> {
        asked.own_line(words)
    }

    fn passes(words: &Words<'_>) -> bool {
        only_settles(words)
    }

    fn open(alloc: Global, asked: &Asked, setup: &ScoreSetup) -> Result<Score, SetupFault> {
        Score::new(alloc, *asked, setup)
    }

    fn wrong_first(_asked: &Asked, setup: &ScoreSetup, words: &Words<'_>) -> Option<u32> {
        let read = command_of(words);
        let command = match &read {
            Err(word) => return Some(*word),
            Ok(command) => command,
        };
        if score_setup_fault(setup).is_some() {
            return None;
        }
        wrong_at_first(setup, command)
    }

    #[inline(always)]
    fn carry_line<W: Write>(
        &mut self,
        score: &mut Score,
        number: u32,
        words: &Words<'_>,
        writer: &mut W,
    ) -> Result<bool, ScriptFault> {
        score.carry_line(number, words, writer)
    }

    fn end<W: Write>(score: &mut Score, writer: &mut W) -> Result<bool, ScriptFault> {
        score.close(writer)
    }

    ghost gives_text = { score_gives };

    ghost adds_up = { says_itself _ _ };
}

/// Judges what was observed at the ports of a bridge, and writes a line for each beat that can't be right, for each question, and
/// at the end. The answer is whether a beat is wrong. A beat on channel A is judged once the line straight behind it, empty ones
/// and comments aside, was read without fault and doesn't withdraw it, or at the input's end; each other beat with its own line.
/// Each line's text stands before more is read. A page takes room when it is first given a byte: by a `fill`, or at a beat of the
/// first request that does so, its last in order of acceptance, its first in real time. Where memory is refused there, the call
/// ends with that fault, behind the text of the lines before.
pub fn score_text<R: Read, W: Write>(
    alloc: Global,
    reader: &mut R,
    writer: &mut W,
) -> Result<bool, ScriptFault>
    ensures { EndsOrStops true score_reading opening_state (R.remaining reader.old) (R.remaining reader.new) (W.contents writer.old) (W.contents writer.new) result }
{
    let script = StagedScript::new(ScoreScript);
    read_script(script, alloc, reader, writer)
}

/// The same. At a fault of the text it also holds the line at which it stopped, or none where the input's end has the fault.
pub fn score_text_with<R: Read, W: Write>(
    alloc: Global,
    reader: &mut R,
    writer: &mut W,
    stopped: &mut StoppedLine,
) -> Result<bool, ScriptFault>
    ensures { EndsHolding true score_reading opening_state stopped.new (R.remaining reader.old) (R.remaining reader.new) (W.contents writer.old) (W.contents writer.new) result }
{
    let script = StagedScript::new(ScoreScript);
    read_script_with(script, alloc, reader, writer, stopped)
}

//! How a script is read and carried out, line by line, whatever its lines do.
ghost use Rattle.std.specs.Prelude.{◌≡◌, ◌≤◌, ◌<◌, ◌++◌, ◌∷◌, ◌&&◌, [], true, false, MatchOption, OnErr};
ghost use Rattle.std.specs.Str.Lines.{strip_carriage_return};
ghost use Rattle.script_text.specs.Reads.{IsOneLine};
ghost use Rattle.line_text.specs.Words.{is_plain_line};
ghost use Rattle.script_text.specs.Scripts.{line_step, line_wants, rest_wants, text_failing_from, text_from, EndsOrStops};
ghost use Rattle.script_text.specs.Steps.{TakesStep, TakesRest};
ghost use Rattle.script_text.specs.Stops.{EndsHolding, StopsWithin, held_of};
ghost use Rattle.line_text.specs.Words.{lines_of};

use crate::faults::ScriptFault;
use crate::reader::{Block, Ending};
use crate::stopped::StoppedLine;
use line_text::{Words, is_comment, may_stand};
use std::alloc::Global;
use std::io::{Read, Write};

/// The state of a script that is read line by line.
pub trait Script {
    ghost use Rattle.std.specs.Prelude.{Bool, ◌&&◌, []};
    ghost use Rattle.script_text.specs.Scripts.{Reading};

    /// What a script that ends answers.
    type Answer: Drop;

    /// What its lines are said of. It may have functions, which no model's value has.
    ghost State: { Type 0 };

    /// What a script is as such a state.
    ghost state: { Self → State };

    /// What its lines do.
    ghost reading: { Reading State Self.Answer };

    /// Whether nothing was written so far, so that memory may still be asked for.
    ghost is_silent: { State → Bool };

    /// Whether memory may be asked for also where something was written, at the lines that its reading says.
    ghost grows: { Bool };

    /// How many lines it may have.
    fn most_lines() -> u32
        ensures most { result ≡ reading.most_lines }
        ensures small { result < 4294967295 };

    /// Carries out a line, by its number from 1 and its words, which aren't skipped. The answer is whether it wrote something.
    fn take_words<W: Write>(
        &mut self,
        alloc: Global,
        number: u32,
        words: &Words<'_>,
        writer: &mut W,
    ) -> Result<bool, ScriptFault>
        ensures { TakesStep reading (grows && reading.wants (state self.old) words.now) (reading.step (state self.old) number words.now) is_silent (state self.old) (state self.new) (W.contents writer.old) (W.contents writer.new) result };

    /// Ends the script, by the number of the line after the last.
    fn end<W: Write>(
        self,
        alloc: Global,
        number: u32,
        writer: &mut W,
    ) -> Result<Self::Answer, ScriptFault>
        ensures { TakesRest (reading.ending (state self) number) [] (grows && reading.wants_at_end (state self)) (is_silent (state self)) (W.contents writer.old) (W.contents writer.new) result };
}

/// A line without the carriage return at its end, if it has one.
pub fn without_return(line: &[u8]) -> &[u8]
    ensures { result.now ≡ strip_carriage_return line.now }
{
    line.strip_suffix(b"\r").unwrap_or(line)
}

/// Carries out a line that may stand. The answer is whether it wrote something.
fn take_plain<S: Script, W: Write>(
    script: &mut S,
    alloc: Global,
    number: u32,
    text: &[u8],
    writer: &mut W,
) -> Result<bool, ScriptFault>
    requires number { number ≤ S.reading.most_lines }
    requires plain { is_plain_line text.now ≡ true }
    ensures { TakesStep S.reading (S.grows && line_wants S.reading (S.state script.old) text.now) (line_step S.reading (S.state script.old) number text.now) S.is_silent (S.state script.old) (S.state script.new) (W.contents writer.old) (W.contents writer.new) result }
{
    if is_comment(text) {
        return Ok(false);
    }
    let mut words = Words::new();
    words.read(text);
    if words.are_skipped() {
        return Ok(false);
    }
    script.take_words(alloc, number, &words, writer)
}

/// Carries out one line by its number, as `read_script` does: it has no line feed, but may end with a carriage return. The answer
/// is whether it wrote something. Behind a fault nothing is promised of the script.
pub fn take_line<S: Script, W: Write>(
    script: &mut S,
    alloc: Global,
    number: u32,
    line: &[u8],
    writer: &mut W,
) -> Result<bool, ScriptFault>
    requires { number ≤ S.reading.most_lines }
    ensures { TakesStep S.reading (S.grows && line_wants S.reading (S.state script.old) (strip_carriage_return line.now)) (line_step S.reading (S.state script.old) number (strip_carriage_return line.now)) S.is_silent (S.state script.old) (S.state script.new) (W.contents writer.old) (W.contents writer.new) result }
{
    let text = without_return(line);
    if !may_stand(text) {
        return Err(ScriptFault::at(number, 0));
    }
    take_plain(script, alloc, number, text, writer)
}

/// Carries out the line of a block that was read last.
fn take_read<S: Script, W: Write>(
    script: &mut S,
    alloc: Global,
    number: u32,
    block: &Block,
    writer: &mut W,
) -> Result<bool, ScriptFault>
    requires { number ≤ S.reading.most_lines }
    ensures { TakesStep S.reading (S.grows && line_wants S.reading (S.state script.old) (strip_carriage_return block.now.line)) (line_step S.reading (S.state script.old) number (strip_carriage_return block.now.line)) S.is_silent (S.state script.old) (S.state script.new) (W.contents writer.old) (W.contents writer.new) result }
{
    if block.has_plain_line() {
        return take_plain(script, alloc, number, block.line(), writer);
    }
    take_line(script, alloc, number, block.line(), writer)
}

/// The same, with the line held where it has a fault.
#[inline(always)]
fn take_held<S: Script, W: Write>(
    script: &mut S,
    alloc: Global,
    number: u32,
    block: &Block,
    writer: &mut W,
    stopped: &mut StoppedLine,
) -> Result<bool, ScriptFault>
    requires { number ≤ S.reading.most_lines }
    ensures step { TakesStep S.reading (S.grows && line_wants S.reading (S.state script.old) (strip_carriage_return block.now.line)) (line_step S.reading (S.state script.old) number (strip_carriage_return block.now.line)) S.is_silent (S.state script.old) (S.state script.new) (W.contents writer.old) (W.contents writer.new) result }
    ensures held { OnErr result (stopped.new ≡ held_of (strip_carriage_return block.now.line)) }
{
    match take_read(script, alloc, number, block, writer) {
        Ok(wrote) => Ok(wrote),
        Err(fault) => {
            stopped.hold(without_return(block.line()));
            Err(fault)
        }
    }
}

/// Carries out the line that the input's end ended, if there is one, and ends the script. A line with a fault is held.
fn take_rest<S: Script + Drop, W: Write>(
    script: S,
    alloc: Global,
    number: u32,
    line: &[u8],
    writer: &mut W,
    stopped: &mut StoppedLine,
) -> Result<S::Answer, ScriptFault>
    requires number { number ≤ S.reading.most_lines }
    requires small { number < 4294967295 }
    requires line { IsOneLine line.now }
    ensures rest { TakesRest (text_from S.reading (S.state script) number line.now) (text_failing_from S.reading (S.state script) number (line.now ++ 10 ∷ [])).output (S.grows && rest_wants S.reading (S.state script) number line.now) (S.is_silent (S.state script)) (W.contents writer.old) (W.contents writer.new) result }
    ensures held { StopsWithin S.reading (S.state script) number (lines_of line.now) stopped.new result }
{
    if line.is_empty() {
        stopped.clear();
        return script.end(alloc, number, writer);
    }
    let mut script = script;
    if let Err(fault) = take_line(&mut script, alloc, number, line, writer) {
        stopped.hold(without_return(line));
        return Err(fault);
    }
    stopped.clear();
    script.end(alloc, number + 1, writer)
}

/// Reads a script to its end or its first fault, and answers what the script does. Each line is carried out before the next
/// is looked at, and its text is flushed before the reader is asked for more. At a script fault the line is held at which it
/// stopped, or none where the script's end has the fault.
pub fn read_script_with<S: Script + Drop, R: Read, W: Write>(
    script: S,
    alloc: Global,
    reader: &mut R,
    writer: &mut W,
    stopped: &mut StoppedLine,
) -> Result<S::Answer, ScriptFault>
    requires { S.is_silent (S.state script) ≡ true }
    ensures { EndsHolding S.grows S.reading (S.state script) stopped.new (R.remaining reader.old) (R.remaining reader.new) (W.contents writer.old) (W.contents writer.new) result }
{
    let Ok(mut block) = Block::new(alloc) else {
        return Err(ScriptFault::NoMemory);
    };
    let mut script = script;
    let late = S::most_lines() + 1;
    for number in 1..late {
        match block.read_line(reader, writer)? {
            Ending::LineFeed => {}
            Ending::Input => {
                return take_rest(script, alloc, number, block.line(), writer, stopped);
            }
            Ending::Room => {
                stopped.hold(block.line());
                return Err(ScriptFault::at(number, 0));
            }
        }
        if take_held(&mut script, alloc, number, &block, writer, stopped)? {
            block.note_text();
        }
    }
    stopped.clear();
    if let Some(_) = block.next_byte(reader, writer)? {
        return Err(ScriptFault::at(late, 0));
    }
    script.end(alloc, late, writer)
}

/// The same, where nobody asks at which line it stopped.
pub fn read_script<S: Script + Drop, R: Read, W: Write>(
    script: S,
    alloc: Global,
    reader: &mut R,
    writer: &mut W,
) -> Result<S::Answer, ScriptFault>
    requires { S.is_silent (S.state script) ≡ true }
    ensures { EndsOrStops S.grows S.reading (S.state script) (R.remaining reader.old) (R.remaining reader.new) (W.contents writer.old) (W.contents writer.new) result }
{
    let mut stopped = StoppedLine::new();
    read_script_with(script, alloc, reader, writer, &mut stopped)
}

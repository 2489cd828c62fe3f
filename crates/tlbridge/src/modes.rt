//! What the program is asked to do, and the calls that do it.
ghost use Rattle.std.specs.Prelude.{◌≡◌, ◌≢◌, ◌⊎◌, [], Some, Err};
ghost use Rattle.std.specs.Io.Buffered.{writer_buffer, writer_contents};
ghost use Rattle.std.specs.Io.KnownBytes.{Keeps};
ghost use Rattle.check_script.specs.Check as check;
ghost use Rattle.run_script.specs.Run as run;
ghost use Rattle.tlbridge.specs.Modes.{Flushes};
ghost use Rattle.tlbridge.specs.Threads.{EndsAsRead};
ghost use Rattle.script_text.specs.Scripts.{text_of, text_before_failure};
ghost use Rattle.script_text.specs.Stages.{Opening};
ghost use Rattle.tlbridge.specs.Endings.{EndsAs};
ghost use Rattle.tlbridge.specs.Words.{task_named};

use crate::faults::TextFault;
use crate::threads::threads_text;
use std::alloc::Global;
use std::io::{BufWriter, Read, Write};
use std::sync::Wait;
use std::thread::Threads;

/// What the program is asked to do with a script by itself.
#[derive(Clone, Copy, Debug, PartialEq, Eq)]
pub enum Mode {
    /// Carry out a script.
    Run,
    /// Judge a script's beats.
    Check,
}

/// What the program is asked to do.
#[derive(Clone, Copy, Debug, PartialEq, Eq)]
pub enum Task {
    /// Read a script in a mode.
    Script(Mode),
    /// Run what a script asks for in threads.
    Threads,
}

/// What a word of the command line asks for, if anything.
pub fn task_named(word: &[u8]) -> Option<Task>
    ensures { result ≡ task_named word.now }
{
    match word {
        b"run" => Some(Task::Script(Mode::Run)),
        b"check" => Some(Task::Script(Mode::Check)),
        b"threads" => Some(Task::Threads),
        _ => None,
    }
}

/// Carries out a script of `run`.
fn run_text<R: Read, W: Write>(
    alloc: Global,
    reader: &mut R,
    writer: &mut W,
) -> Result<bool, TextFault>
    ensures { EndsAs (text_of run.run_reading Opening) (text_before_failure run.run_reading Opening) (R.remaining reader.old) (R.remaining reader.new) (W.contents writer.old) (W.contents writer.new) result }
{
    Ok(run_script::run_text(alloc, reader, writer)?)
}

/// Judges a script of `check`.
fn check_text<R: Read, W: Write>(
    alloc: Global,
    reader: &mut R,
    writer: &mut W,
) -> Result<bool, TextFault>
    ensures { EndsAs (text_of check.check_reading Opening) (text_before_failure check.check_reading Opening) (R.remaining reader.old) (R.remaining reader.new) (W.contents writer.old) (W.contents writer.new) result }
{
    Ok(check_script::check_text(alloc, reader, writer)?)
}

/// Carries out a script in a mode.
fn ending_in<R: Read, W: Write>(
    mode: Mode,
    alloc: Global,
    reader: &mut R,
    writer: &mut W,
) -> Result<bool, TextFault>
    ensures run { mode ≡ Mode.Run → EndsAs (text_of run.run_reading Opening) (text_before_failure run.run_reading Opening) (R.remaining reader.old) (R.remaining reader.new) (W.contents writer.old) (W.contents writer.new) result }
    ensures check { mode ≡ Mode.Check → EndsAs (text_of check.check_reading Opening) (text_before_failure check.check_reading Opening) (R.remaining reader.old) (R.remaining reader.new) (W.contents writer.old) (W.contents writer.new) result }
{
    match mode {
        Mode::Run => run_text(alloc, reader, writer),
        Mode::Check => check_text(alloc, reader, writer),
    }
}

/// Flushes the output of a script that ended so, where the buffer isn't empty. Output that can't be flushed is a write fault.
#[tactic(auto, using(crate::proofs::Held::no_byte))]
fn flushed<W: Write + Drop>(
    ending: Result<bool, TextFault>,
    writer: &mut BufWriter<W>,
) -> Result<bool, TextFault>
    ensures kept { Keeps (writer_contents W.contents writer.old) (writer_contents W.contents writer.new) }
    ensures told { (result ≡ ending) ⊎ ((result ≡ Err TextFault.Write) × (writer_contents W.contents writer.old ≢ Some [])) }
    ensures flushed { (result ≡ Err TextFault.Write) ⊎ (writer_buffer writer.new ≡ []) }
{
    if writer.buffer().is_empty() {
        return ending;
    }
    match writer.flush() {
        Ok(()) => ending,
        Err(_) => Err(TextFault::Write),
    }
}

/// Carries out a script in a mode, and flushes the output. Output that can't be flushed is a write fault, whatever the
/// script ended with.
pub fn carried_out<R: Read, W: Write + Drop>(
    mode: Mode,
    alloc: Global,
    reader: &mut R,
    writer: &mut BufWriter<W>,
) -> Result<bool, TextFault>
    ensures run { mode ≡ Mode.Run → Flushes (λ held. EndsAs (text_of run.run_reading Opening) (text_before_failure run.run_reading Opening) (R.remaining reader.old) (R.remaining reader.new) (writer_contents W.contents writer.old) held) (writer_contents W.contents writer.new) result }
    ensures check { mode ≡ Mode.Check → Flushes (λ held. EndsAs (text_of check.check_reading Opening) (text_before_failure check.check_reading Opening) (R.remaining reader.old) (R.remaining reader.new) (writer_contents W.contents writer.old) held) (writer_contents W.contents writer.new) result }

    // Nothing is left in the buffer, but where a write failed.
    ensures flushed { (result ≡ Err TextFault.Write) ⊎ (writer_buffer writer.new ≡ []) }
{
    let ending = ending_in(mode, alloc, reader, writer);
    flushed(ending, writer)
}

/// Runs what a script asks for in threads, and flushes the output. Output that can't be flushed is a write fault, whatever the
/// script ended with.
pub fn carried_out_in_threads<T: Threads + Wait + Sync, R: Read, W: Write + Drop>(
    rt: &T,
    alloc: Global,
    reader: &mut R,
    writer: &mut BufWriter<W>,
) -> Result<bool, TextFault>
    ensures ending { Flushes (λ held. EndsAsRead (R.remaining reader.old) (R.remaining reader.new) (writer_contents W.contents writer.old) held) (writer_contents W.contents writer.new) result }

    // Nothing is left in the buffer, but where a write failed.
    ensures flushed { (result ≡ Err TextFault.Write) ⊎ (writer_buffer writer.new ≡ []) }
{
    let ending = threads_text(rt, alloc, reader, writer);
    flushed(ending, writer)
}

//! How the program ends.
ghost use Rattle.std.specs.Prelude.{◌≡◌, ◌≢◌, ◌⊎◌, [], Some, Err, true};
ghost use Rattle.std.specs.Io.Buffered.{writer_buffer, writer_contents};
ghost use Rattle.std.specs.Io.KnownBytes.{Keeps};
ghost use Rattle.script_text.specs.Stops.{EndsHolding};
ghost use Rattle.score_script.specs.Scores.{opening_state, score_reading};
ghost use Rattle.tlscore.specs.Endings.{Flushes, status_of};

use burst_plan::MapFault;
use score_script::score_text_with;
use script_text::{ScriptFault, StoppedLine};
use setups::SetupFault;
use std::alloc::Global;
use std::io::{BufWriter, Read, Write};
use subordinate::DeviceFault;

/// Flushes the output of what ended so, where the buffer isn't empty. Output that can't be flushed is a write fault.
#[tactic(auto, using(crate::proofs::Held::no_byte))]
pub(crate) fn flushed<W: Write + Drop>(
    ending: Result<bool, ScriptFault>,
    writer: &mut BufWriter<W>,
) -> Result<bool, ScriptFault>
    ensures kept { Keeps (writer_contents W.contents writer.old) (writer_contents W.contents writer.new) }
    ensures told { (result ≡ ending) ⊎ ((result ≡ Err ScriptFault.Write) × (writer_contents W.contents writer.old ≢ Some [])) }
    ensures flushed { (result ≡ Err ScriptFault.Write) ⊎ (writer_buffer writer.new ≡ []) }
{
    if writer.buffer().is_empty() {
        return ending;
    }
    match writer.flush() {
        Ok(()) => ending,
        Err(_) => Err(ScriptFault::Write),
    }
}

/// Judges an observation, and flushes the output. Output that can't be flushed is a write fault, whatever the input ended
/// with. At a fault of the text the line is held at which it stopped, or none where the input's end has the fault.
pub(crate) fn scored<R: Read, W: Write + Drop>(
    alloc: Global,
    reader: &mut R,
    writer: &mut BufWriter<W>,
    stopped: &mut StoppedLine,
) -> Result<bool, ScriptFault>
    ensures ends { Flushes (λ held. EndsHolding true score_reading opening_state stopped.new (R.remaining reader.old) (R.remaining reader.new) (writer_contents W.contents writer.old) held) (writer_contents W.contents writer.new) result }

    // Nothing is left in the buffer, but where a write failed.
    ensures flushed { (result ≡ Err ScriptFault.Write) ⊎ (writer_buffer writer.new ≡ []) }
{
    let ending = score_text_with(alloc, reader, writer, stopped);
    flushed(ending, writer)
}

/// The exit status of a result: 0 where nothing is wrong, 1 where something is, 2 for a fault of the input or its set-up, 3
/// for one of the reader or writer, 4 where allocation failed.
pub(crate) fn status_of(ending: &Result<bool, ScriptFault>) -> u8
    ensures { result ≡ status_of ending.now }
{
    match ending {
        Ok(is_wrong) => u8::from(*is_wrong),
        Err(ScriptFault::Script { .. }) => 2,
        Err(
            ScriptFault::Setup(
                SetupFault::NoMemory
                | SetupFault::Map(MapFault::NoMemory)
                | SetupFault::Device(DeviceFault::NoMemory),
            ),
        ) => 4,
        Err(ScriptFault::Setup(_)) => 2,
        Err(ScriptFault::Read | ScriptFault::Write) => 3,
        Err(ScriptFault::NoMemory) => 4,
    }
}

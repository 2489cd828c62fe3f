//! Which version this is.
ghost use Rattle.std.specs.Prelude.{◌≡◌, ◌⊎◌, [], Err};
ghost use Rattle.std.specs.Io.Buffered.{writer_buffer, writer_contents};
ghost use Rattle.tlscore.specs.Version.{TellsVersion};

use crate::endings::flushed;
use line_text::write_text;
use script_text::ScriptFault;
use std::io::{BufWriter, Write};

/// The line of the version, which is that of the file `VERSION`.
const VERSION_LINE: &[u8] = b"tlscore 0.1.0\n";

/// Writes which version this is, and flushes it. Output that can't be written or flushed is a write fault; nothing else is wrong.
pub(crate) fn version_told<W: Write + Drop>(writer: &mut BufWriter<W>) -> Result<bool, ScriptFault>
    ensures told { TellsVersion (writer_contents W.contents writer.old) (writer_contents W.contents writer.new) result }

    // Nothing is left in the buffer, but where a write failed.
    ensures flushed { (result ≡ Err ScriptFault.Write) ⊎ (writer_buffer writer.new ≡ []) }
{
    write_text(VERSION_LINE, writer)?;
    flushed(Ok(false), writer)
}

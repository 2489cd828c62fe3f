//! Writing a text, and what was written of it where the writer fails.
ghost use Rattle.std.specs.Prelude.{◌≤◌, ◌≢◌, [], IfErr, IfOk, OnErr, OnOk, length, take};
ghost use Rattle.std.specs.Io.KnownBytes.{Appends};
ghost use Rattle.std.specs.IoError.{error_kind};
ghost use Rattle.line_text.specs.Writing.{StopsShort};

use std::io;
use std::io::{ErrorKind, Write};
use thiserror::Error;

/// The writer refused: what it took is a front of the text. Its own error is dropped, since each is told as the same fault.
#[derive(Clone, Copy, Debug, PartialEq, Eq, Error)]
#[error("write fault")]
pub struct WriteFault;

impl From<io::Error> for WriteFault {
    fn from(_: io::Error) -> WriteFault {
        WriteFault
    }
}

/// Writes some of a text that isn't empty, none where the write was interrupted. A writer that takes nothing of it is at fault.
#[inline(always)]
fn write_some<W: Write>(text: &[u8], writer: &mut W) -> io::Result<usize>
    ensures within { IfOk result (λ count. count ≤ length text.now) }
    ensures ok { IfOk result (λ count. Appends (W.contents writer.old) (W.contents writer.new) (take count text.now)) }
    ensures err { OnErr result (Appends (W.contents writer.old) (W.contents writer.new) []) }

    // An interrupted write is no fault: its caller tries again.
    ensures retried { IfErr result (λ e. error_kind e ≢ ErrorKind.Interrupted) }
{
    match writer.write(text) {
        Ok(0) => Err(io::Error::from(ErrorKind::WriteZero)),
        Ok(count) => Ok(count),
        Err(error) if error.kind() == ErrorKind::Interrupted => Ok(0),
        Err(error) => Err(error),
    }
}

/// Writes what is left of a text, in as many writes as it takes.
#[inline(never)]
fn write_rest<W: Write>(text: &[u8], writer: &mut W) -> Result<(), WriteFault>
    ensures all { OnOk result (Appends (W.contents writer.old) (W.contents writer.new) text.now) }
    ensures front { OnErr result (StopsShort text.now (W.contents writer.old) (W.contents writer.new)) }
{
    let mut rest = text;
    for _ in 0..u64::MAX {
        if rest.is_empty() {
            return Ok(());
        }
        let Ok(count) = write_some(rest, writer) else {
            return Err(WriteFault);
        };
        rest = &rest[count..];
    }
    if rest.is_empty() {
        return Ok(());
    }
    Err(WriteFault)
}

/// Writes a text. A write that was interrupted is tried again; where the writer fails, it took a front of the text that isn't
/// all of it.
#[inline(always)]
pub fn write_text<W: Write>(text: &[u8], writer: &mut W) -> Result<(), WriteFault>
    ensures all { OnOk result (Appends (W.contents writer.old) (W.contents writer.new) text.now) }
    ensures front { OnErr result (StopsShort text.now (W.contents writer.old) (W.contents writer.new)) }
{
    if text.is_empty() {
        return Ok(());
    }
    let Ok(count) = write_some(text, writer) else {
        return Err(WriteFault);
    };
    if count == text.len() {
        return Ok(());
    }
    write_rest(&text[count..], writer)
}

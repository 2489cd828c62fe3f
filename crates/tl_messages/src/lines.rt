//! The lines of TileLink beats in a trace. Each ends with LF; numbers are decimal, and addresses, masks and payloads are
//! hexadecimal of 8, 2 and 16 digits. A fault of the writer is answered as it is.
ghost use Rattle.std.specs.Prelude.{OnOk};
ghost use Rattle.std.specs.Io.KnownBytes.{Appends};
ghost use Rattle.tl_messages.specs.Lines.{a_text, d_text, d_words};

use crate::{ABeat, DBeat};
use bus_words::flag_text;
use std::io;
use std::io::Write;

/// Writes `A CLIENT OPCODE PARAM SIZE SOURCE ADDRESS MASK PAYLOAD CORRUPT`.
pub fn a_line<W: Write>(client: u8, beat: &ABeat, writer: &mut W) -> io::Result<()>
    ensures { OnOk result (Appends (W.contents writer.old) (W.contents writer.new) (a_text client beat.now)) }
{
    let ABeat {
        opcode,
        param,
        size,
        source,
        address,
        mask,
        payload,
        corrupt,
    } = *beat;
    let corrupt = flag_text(corrupt);
    write!(writer, "A {client} {opcode} {param} {size} {source} ")?;
    writeln!(writer, "{address:08x} {mask:02x} {payload:016x} {corrupt}")
}

/// Writes `D CLIENT OPCODE PARAM SIZE SOURCE DENIED PAYLOAD CORRUPT`.
pub fn d_line<W: Write>(client: u8, beat: &DBeat, writer: &mut W) -> io::Result<()>
    ensures { OnOk result (Appends (W.contents writer.old) (W.contents writer.new) (d_text client beat.now)) }
{
    d_words(client, beat, writer)?;
    writeln!(writer)
}

/// Writes the same words, and no LF behind them.
pub fn d_words<W: Write>(client: u8, beat: &DBeat, writer: &mut W) -> io::Result<()>
    ensures { OnOk result (Appends (W.contents writer.old) (W.contents writer.new) (d_words client beat.now)) }
{
    let DBeat {
        opcode,
        param,
        size,
        source,
        denied,
        payload,
        corrupt,
    } = *beat;
    let denied = flag_text(denied);
    let corrupt = flag_text(corrupt);
    write!(writer, "D {client} {opcode} {param} {size} {source} ")?;
    write!(writer, "{denied} {payload:016x} {corrupt}")
}

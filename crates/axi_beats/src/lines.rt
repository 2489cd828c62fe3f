//! The lines of AXI beats in a trace. Each ends with LF; numbers are decimal, and addresses, payloads and strobes are
//! hexadecimal of 8, 16 and 2 digits. A fault of the writer is answered as it is.
ghost use Rattle.std.specs.Prelude.{◌≡◌, OnOk};
ghost use Rattle.std.specs.Io.KnownBytes.{Appends};
ghost use Rattle.axi_beats.specs.Lines.{resp_text, aw_text, ar_text, w_text, b_text, r_text};

use crate::{ArBeat, AwBeat, BBeat, RBeat, Resp, WBeat};
use bus_words::flag_text;
use std::io;
use std::io::Write;

fn resp_text(resp: Resp) -> &'static str
    ensures { result.now ≡ resp_text resp }
{
    match resp {
        Resp::Okay => "OKAY",
        Resp::ExOkay => "EXOKAY",
        Resp::SlvErr => "SLVERR",
        Resp::DecErr => "DECERR",
    }
}

/// Writes `AW ID ADDRESS LEN SIZE BURST`.
pub fn aw_line<W: Write>(beat: &AwBeat, writer: &mut W) -> io::Result<()>
    ensures { OnOk result (Appends (W.contents writer.old) (W.contents writer.new) (aw_text beat.now)) }
{
    let AwBeat {
        id,
        address,
        len,
        size,
        burst,
    } = *beat;
    writeln!(writer, "AW {id} {address:08x} {len} {size} {burst}")
}

/// Writes `AR ID ADDRESS LEN SIZE BURST`.
pub fn ar_line<W: Write>(beat: &ArBeat, writer: &mut W) -> io::Result<()>
    ensures { OnOk result (Appends (W.contents writer.old) (W.contents writer.new) (ar_text beat.now)) }
{
    let ArBeat {
        id,
        address,
        len,
        size,
        burst,
    } = *beat;
    writeln!(writer, "AR {id} {address:08x} {len} {size} {burst}")
}

/// Writes `W PAYLOAD STROBES LAST`.
pub fn w_line<W: Write>(beat: &WBeat, writer: &mut W) -> io::Result<()>
    ensures { OnOk result (Appends (W.contents writer.old) (W.contents writer.new) (w_text beat.now)) }
{
    let WBeat {
        payload,
        strobes,
        ..
    } = *beat;
    let last = flag_text(beat.last);
    writeln!(writer, "W {payload:016x} {strobes:02x} {last}")
}

/// Writes `B ID RESP`.
pub fn b_line<W: Write>(beat: &BBeat, writer: &mut W) -> io::Result<()>
    ensures { OnOk result (Appends (W.contents writer.old) (W.contents writer.new) (b_text beat.now)) }
{
    let id = beat.id;
    let resp = resp_text(beat.resp);
    writeln!(writer, "B {id} {resp}")
}

/// Writes `R ID PAYLOAD RESP LAST`.
pub fn r_line<W: Write>(beat: &RBeat, writer: &mut W) -> io::Result<()>
    ensures { OnOk result (Appends (W.contents writer.old) (W.contents writer.new) (r_text beat.now)) }
{
    let RBeat { id, payload, .. } = *beat;
    let resp = resp_text(beat.resp);
    let last = flag_text(beat.last);
    writeln!(writer, "R {id} {payload:016x} {resp} {last}")
}

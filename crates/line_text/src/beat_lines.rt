//! The lines of beats in a trace.
ghost use Rattle.std.specs.Prelude.{◌≡◌, ◌≤◌, ◌+◌, ◌∷◌, ◌++◌, [], OnErr, OnOk, length};
ghost use Rattle.std.specs.Io.KnownBytes.{Appends};
ghost use Rattle.line_text.specs.Writing.{StopsShort};
ghost use Rattle.line_text.specs.Traces.{d_front};
ghost use Rattle.tl_messages.specs.Lines.{a_text, d_text};
ghost use Rattle.axi_beats.specs.Lines.{ar_text, aw_text, b_text, r_text, resp_text, w_text};

use crate::line::LineText;
use crate::writing::{WriteFault, write_text};
use axi_beats::{ArBeat, AwBeat, BBeat, RBeat, Resp, WBeat};
use std::io::Write;
use tl_messages::{ABeat, DBeat};

/// `A CLIENT OPCODE PARAM SIZE SOURCE ADDRESS MASK PAYLOAD CORRUPT`.
fn a_text(text: &mut LineText, client: u8, beat: &ABeat)
    requires start { text.old ≡ 10 ∷ [] }
    ensures { text.new ≡ a_text client beat.now }
{
    text.put_last_flag(beat.corrupt);
    text.put_hex(16, beat.payload);
    text.put_hex(2, u64::from(beat.mask));
    text.put_hex(8, u64::from(beat.address));
    text.put_byte(beat.source);
    text.put_byte(beat.size);
    text.put_byte(beat.param);
    text.put_byte(beat.opcode);
    text.put_byte(client);
    text.put_word(b"A");
}

/// Writes the line of a beat that a client offers.
pub fn a_line<W: Write>(client: u8, beat: &ABeat, writer: &mut W) -> Result<(), WriteFault>
    ensures all { OnOk result (Appends (W.contents writer.old) (W.contents writer.new) (a_text client beat.now)) }
    ensures front { OnErr result (StopsShort (a_text client beat.now) (W.contents writer.old) (W.contents writer.new)) }
{
    let mut text = LineText::new();
    a_text(&mut text, client, beat);
    write_text(text.as_slice(), writer)
}

/// `D CLIENT OPCODE PARAM SIZE SOURCE DENIED`, in front of a payload and what follows it.
#[inline(always)]
pub(crate) fn d_front(text: &mut LineText, client: u8, beat: &DBeat)
    requires { length text.old ≤ 32 }
    ensures is { text.new ≡ d_front client beat.now text.old }
    ensures short { length text.new ≤ length text.old + 24 }
{
    text.put_flag(beat.denied);
    text.put_byte(beat.source);
    text.put_byte(beat.size);
    text.put_byte(beat.param);
    text.put_byte(beat.opcode);
    text.put_byte(client);
    text.put_word(b"D");
}

/// `D CLIENT OPCODE PARAM SIZE SOURCE DENIED PAYLOAD CORRUPT`.
fn d_text(text: &mut LineText, client: u8, beat: &DBeat)
    requires start { text.old ≡ 10 ∷ [] }
    ensures { text.new ≡ d_text client beat.now }
{
    text.put_last_flag(beat.corrupt);
    text.put_hex(16, beat.payload);
    d_front(text, client, beat);
}

/// Writes the line of a beat of a reply.
pub(crate) fn d_line<W: Write>(client: u8, beat: &DBeat, writer: &mut W) -> Result<(), WriteFault>
    ensures all { OnOk result (Appends (W.contents writer.old) (W.contents writer.new) (d_text client beat.now)) }
    ensures front { OnErr result (StopsShort (d_text client beat.now) (W.contents writer.old) (W.contents writer.new)) }
{
    let mut text = LineText::new();
    d_text(&mut text, client, beat);
    write_text(text.as_slice(), writer)
}

/// A response's name.
fn resp_word(resp: Resp) -> &'static [u8]
    ensures is { result.now ≡ resp_text resp }
    ensures short { length result.now ≤ 6 }
{
    match resp {
        Resp::Okay => b"OKAY",
        Resp::ExOkay => b"EXOKAY",
        Resp::SlvErr => b"SLVERR",
        Resp::DecErr => b"DECERR",
    }
}

/// Puts a response's name and a space in front. Each name has code of its own, in which its length is known.
#[inline(always)]
fn put_resp(text: &mut LineText, resp: Resp)
    requires { length text.old ≤ 32 }
    ensures is { text.new ≡ resp_text resp ++ 32 ∷ text.old }
    ensures short { length text.new ≤ length text.old + 7 }
{
    match resp {
        Resp::Okay => text.put_word(b"OKAY"),
        Resp::ExOkay => text.put_word(b"EXOKAY"),
        Resp::SlvErr => text.put_word(b"SLVERR"),
        Resp::DecErr => text.put_word(b"DECERR"),
    }
}

/// `AW ID ADDRESS LEN SIZE BURST`.
fn aw_text(text: &mut LineText, beat: &AwBeat)
    requires start { text.old ≡ 10 ∷ [] }
    ensures { text.new ≡ aw_text beat.now }
{
    text.put_decimal(u64::from(beat.burst));
    text.put_byte(beat.size);
    text.put_byte(beat.len);
    text.put_hex(8, u64::from(beat.address));
    text.put_byte(beat.id);
    text.put_word(b"AW");
}

/// Writes the line of a write's address.
pub(crate) fn aw_line<W: Write>(beat: &AwBeat, writer: &mut W) -> Result<(), WriteFault>
    ensures all { OnOk result (Appends (W.contents writer.old) (W.contents writer.new) (aw_text beat.now)) }
    ensures front { OnErr result (StopsShort (aw_text beat.now) (W.contents writer.old) (W.contents writer.new)) }
{
    let mut text = LineText::new();
    aw_text(&mut text, beat);
    write_text(text.as_slice(), writer)
}

/// `AR ID ADDRESS LEN SIZE BURST`.
fn ar_text(text: &mut LineText, beat: &ArBeat)
    requires start { text.old ≡ 10 ∷ [] }
    ensures { text.new ≡ ar_text beat.now }
{
    text.put_decimal(u64::from(beat.burst));
    text.put_byte(beat.size);
    text.put_byte(beat.len);
    text.put_hex(8, u64::from(beat.address));
    text.put_byte(beat.id);
    text.put_word(b"AR");
}

/// Writes the line of a read's address.
pub(crate) fn ar_line<W: Write>(beat: &ArBeat, writer: &mut W) -> Result<(), WriteFault>
    ensures all { OnOk result (Appends (W.contents writer.old) (W.contents writer.new) (ar_text beat.now)) }
    ensures front { OnErr result (StopsShort (ar_text beat.now) (W.contents writer.old) (W.contents writer.new)) }
{
    let mut text = LineText::new();
    ar_text(&mut text, beat);
    write_text(text.as_slice(), writer)
}

/// `W PAYLOAD STROBES LAST`.
fn w_text(text: &mut LineText, beat: &WBeat)
    requires start { text.old ≡ 10 ∷ [] }
    ensures { text.new ≡ w_text beat.now }
{
    text.put_last_flag(beat.last);
    text.put_hex(2, u64::from(beat.strobes));
    text.put_hex(16, beat.payload);
    text.put_word(b"W");
}

/// Writes the line of a write's data.
pub(crate) fn w_line<W: Write>(beat: &WBeat, writer: &mut W) -> Result<(), WriteFault>
    ensures all { OnOk result (Appends (W.contents writer.old) (W.contents writer.new) (w_text beat.now)) }
    ensures front { OnErr result (StopsShort (w_text beat.now) (W.contents writer.old) (W.contents writer.new)) }
{
    let mut text = LineText::new();
    w_text(&mut text, beat);
    write_text(text.as_slice(), writer)
}

/// `B ID RESP`.
fn b_text(text: &mut LineText, beat: &BBeat)
    requires start { text.old ≡ 10 ∷ [] }
    ensures { text.new ≡ b_text beat.now }
{
    text.put_text(resp_word(beat.resp));
    text.put_byte(beat.id);
    text.put_word(b"B");
}

/// Writes the line of a write's response.
#[inline(never)]
pub fn b_line<W: Write>(beat: &BBeat, writer: &mut W) -> Result<(), WriteFault>
    ensures all { OnOk result (Appends (W.contents writer.old) (W.contents writer.new) (b_text beat.now)) }
    ensures front { OnErr result (StopsShort (b_text beat.now) (W.contents writer.old) (W.contents writer.new)) }
{
    let mut text = LineText::new();
    b_text(&mut text, beat);
    write_text(text.as_slice(), writer)
}

/// `R ID PAYLOAD RESP LAST`.
fn r_text(text: &mut LineText, beat: &RBeat)
    requires start { text.old ≡ 10 ∷ [] }
    ensures { text.new ≡ r_text beat.now }
{
    text.put_last_flag(beat.last);
    put_resp(text, beat.resp);
    text.put_hex(16, beat.payload);
    text.put_byte(beat.id);
    text.put_word(b"R");
}

/// Writes the line of a read's data.
#[inline(never)]
pub fn r_line<W: Write>(beat: &RBeat, writer: &mut W) -> Result<(), WriteFault>
    ensures all { OnOk result (Appends (W.contents writer.old) (W.contents writer.new) (r_text beat.now)) }
    ensures front { OnErr result (StopsShort (r_text beat.now) (W.contents writer.old) (W.contents writer.new)) }
{
    let mut text = LineText::new();
    r_text(&mut text, beat);
    write_text(text.as_slice(), writer)
}

//! The lines of a trace that are no beats, and those of whole bursts and replies.
ghost use Rattle.std.specs.Prelude.{◌≡◌, ◌≤◌, ◌∷◌, [], OnErr, OnOk, decimal, flat_map, length};
ghost use Rattle.std.specs.Io.KnownBytes.{Appends};
ghost use Rattle.line_text.specs.Writing.{StopsShort};
ghost use Rattle.line_text.specs.Traces.{accepted_text, answer_line, client_text, drained_text, held_text, mem_text, ok_text, refused_text, reply_line_text, reply_text, sent_text, work_text};
ghost use Rattle.axi_beats.specs.Boxes.{w_beats_of};
ghost use Rattle.axi_beats.specs.Lines.{w_text};

use crate::alike_lines;
use crate::alike_lines::{alike_lines, are_alike};
use crate::beat_lines::{ar_line, aw_line, d_line, w_line};
use crate::line::LineText;
use crate::writing::{WriteFault, write_text};
use axi_beats::BurstBox;
use std::io::Write;
use tl_checker::TlRule;
use tl_messages::DBeat;

/// `= refused NUMBER NAME`.
#[tactic(auto, using(crate::proofs::TraceTexts::short_name))]
fn refused_text(text: &mut LineText, rule: TlRule)
    requires start { text.old ≡ 10 ∷ [] }
    ensures { text.new ≡ refused_text rule }
{
    text.put_text(rule.name().as_bytes());
    text.put_byte(rule.number());
    text.put_word(b"refused");
    text.put_word(b"=");
}

/// Writes the line of a refused beat.
#[inline(never)]
pub fn refused_line<W: Write>(rule: TlRule, writer: &mut W) -> Result<(), WriteFault>
    ensures all { OnOk result (Appends (W.contents writer.old) (W.contents writer.new) (refused_text rule)) }
    ensures front { OnErr result (StopsShort (refused_text rule) (W.contents writer.old) (W.contents writer.new)) }
{
    let mut text = LineText::new();
    refused_text(&mut text, rule);
    write_text(text.as_slice(), writer)
}

/// `= WORD NUMBER`.
#[inline(always)]
fn number_text(text: &mut LineText, word: &[u8], number: u64)
    requires start { text.old ≡ 10 ∷ [] }
    requires short { length word.now ≤ 8 }
    ensures { text.new ≡ answer_line (word.now ∷ decimal number ∷ []) }
{
    text.put_decimal(number);
    text.put_word(word);
    text.put_word(b"=");
}

/// Writes a line of a word and a number.
#[inline(always)]
fn number_line<W: Write>(word: &[u8], number: u64, writer: &mut W) -> Result<(), WriteFault>
    requires { length word.now ≤ 8 }
    ensures all { OnOk result (Appends (W.contents writer.old) (W.contents writer.new) (answer_line (word.now ∷ decimal number ∷ []))) }
    ensures front { OnErr result (StopsShort (answer_line (word.now ∷ decimal number ∷ [])) (W.contents writer.old) (W.contents writer.new)) }
{
    let mut text = LineText::new();
    number_text(&mut text, word, number);
    write_text(text.as_slice(), writer)
}

/// Writes the line of a request that was accepted, by its number. It is apart, as other lines with fields are, since a
/// function clears the room for its values at its entry; each word has code of its own, in which its length is known.
#[inline(never)]
pub fn accepted_line<W: Write>(number: u64, writer: &mut W) -> Result<(), WriteFault>
    ensures all { OnOk result (Appends (W.contents writer.old) (W.contents writer.new) (accepted_text number)) }
    ensures front { OnErr result (StopsShort (accepted_text number) (W.contents writer.old) (W.contents writer.new)) }
{
    number_line(b"accepted", number, writer)
}

/// Writes the line of a burst that was sent, by its serial.
#[inline(never)]
pub fn sent_line<W: Write>(serial: u64, writer: &mut W) -> Result<(), WriteFault>
    ensures all { OnOk result (Appends (W.contents writer.old) (W.contents writer.new) (sent_text serial)) }
    ensures front { OnErr result (StopsShort (sent_text serial) (W.contents writer.old) (W.contents writer.new)) }
{
    number_line(b"sent", serial, writer)
}

/// Writes the line of a reply, by its request's number.
#[inline(never)]
pub fn reply_line<W: Write>(number: u64, writer: &mut W) -> Result<(), WriteFault>
    ensures all { OnOk result (Appends (W.contents writer.old) (W.contents writer.new) (reply_line_text number)) }
    ensures front { OnErr result (StopsShort (reply_line_text number) (W.contents writer.old) (W.contents writer.new)) }
{
    number_line(b"reply", number, writer)
}

/// Writes the line of a run that went well.
pub fn ok_line<W: Write>(writer: &mut W) -> Result<(), WriteFault>
    ensures all { OnOk result (Appends (W.contents writer.old) (W.contents writer.new) ok_text) }
    ensures front { OnErr result (StopsShort ok_text (W.contents writer.old) (W.contents writer.new)) }
{
    write_text(b"= ok\n", writer)
}

/// `client NUMBER`.
fn client_text(text: &mut LineText, client: u8)
    requires start { text.old ≡ 10 ∷ [] }
    ensures { text.new ≡ client_text client }
{
    text.put_decimal(u64::from(client));
    text.put_word(b"client");
}

/// Writes the line that names a client, whose lines follow.
pub fn client_line<W: Write>(client: u8, writer: &mut W) -> Result<(), WriteFault>
    ensures all { OnOk result (Appends (W.contents writer.old) (W.contents writer.new) (client_text client)) }
    ensures front { OnErr result (StopsShort (client_text client) (W.contents writer.old) (W.contents writer.new)) }
{
    let mut text = LineText::new();
    client_text(&mut text, client);
    write_text(text.as_slice(), writer)
}

/// Writes the line of each W beat of a write, many together where there are many.
fn w_lines<W: Write>(burst: &BurstBox, writer: &mut W) -> Result<(), WriteFault>
    ensures all { OnOk result (Appends (W.contents writer.old) (W.contents writer.new) (flat_map w_text (w_beats_of burst.now))) }
    ensures front { OnErr result (StopsShort (flat_map w_text (w_beats_of burst.now)) (W.contents writer.old) (W.contents writer.new)) }
{
    if burst.w_beats() >= 4 {
        return alike_lines::w_lines(burst, writer);
    }
    for k in 0..burst.w_beats() {
        w_line(&burst.w(k), writer)?;
    }
    Ok(())
}

/// Writes the lines of a burst that was sent: its address, and the beats of a write.
pub fn burst_lines<W: Write>(burst: &BurstBox, writer: &mut W) -> Result<(), WriteFault>
    ensures all { OnOk result (Appends (W.contents writer.old) (W.contents writer.new) (held_text burst.now)) }
    ensures front { OnErr result (StopsShort (held_text burst.now) (W.contents writer.old) (W.contents writer.new)) }
{
    if burst.is_empty() {
        return Ok(());
    }
    if !burst.is_write() {
        return ar_line(&burst.ar(), writer);
    }
    aw_line(&burst.aw(), writer)?;
    w_lines(burst, writer)
}

/// Writes the lines of a reply's beats.
pub fn reply_lines<W: Write>(client: u8, beats: &[DBeat], writer: &mut W) -> Result<(), WriteFault>
    ensures all { OnOk result (Appends (W.contents writer.old) (W.contents writer.new) (reply_text client beats.now)) }
    ensures front { OnErr result (StopsShort (reply_text client beats.now) (W.contents writer.old) (W.contents writer.new)) }
{
    if beats.len() >= 4 && are_alike(&beats[0], beats) {
        return alike_lines(client, &beats[0], beats, writer);
    }
    for beat in beats {
        d_line(client, beat, writer)?;
    }
    Ok(())
}

/// `= mem BYTE`.
fn byte_text(text: &mut LineText, byte: u8)
    requires start { text.old ≡ 10 ∷ [] }
    ensures { text.new ≡ mem_text (Some byte) }
{
    text.put_digits(2, u64::from(byte));
    text.put_word(b"mem");
    text.put_word(b"=");
}

/// Writes the line of a byte of the memory.
pub fn mem_line<W: Write>(byte: Option<u8>, writer: &mut W) -> Result<(), WriteFault>
    ensures all { OnOk result (Appends (W.contents writer.old) (W.contents writer.new) (mem_text byte)) }
    ensures front { OnErr result (StopsShort (mem_text byte) (W.contents writer.old) (W.contents writer.new)) }
{
    match byte {
        Some(byte) => {
            let mut text = LineText::new();
            byte_text(&mut text, byte);
            write_text(text.as_slice(), writer)
        }
        None => write_text(b"= mem --\n", writer),
    }
}

/// Writes the line of a drain.
#[inline(never)]
pub fn drained_line<W: Write>(steps: u64, writer: &mut W) -> Result<(), WriteFault>
    ensures all { OnOk result (Appends (W.contents writer.old) (W.contents writer.new) (drained_text steps)) }
    ensures front { OnErr result (StopsShort (drained_text steps) (W.contents writer.old) (W.contents writer.new)) }
{
    number_line(b"drained", steps, writer)
}

/// Writes the line of the work left.
#[inline(never)]
pub fn work_line<W: Write>(work: u64, writer: &mut W) -> Result<(), WriteFault>
    ensures all { OnOk result (Appends (W.contents writer.old) (W.contents writer.new) (work_text work)) }
    ensures front { OnErr result (StopsShort (work_text work) (W.contents writer.old) (W.contents writer.new)) }
{
    number_line(b"work", work, writer)
}

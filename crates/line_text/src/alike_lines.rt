//! Lines that are put together and written many at a time: those of a reply's beats that differ in their data alone, and those
//! of a write's data.
ghost use Rattle.std.specs.Prelude.{◌≡◌, ◌≤◌, ◌<◌, ◌+◌, ◌∷◌, ◌++◌, [], true, OnErr, OnOk, flat_map, length, take};
ghost use Rattle.std.specs.Io.KnownBytes.{Appends};
ghost use Rattle.std.specs.List.{list_all};
ghost use Rattle.axi_beats.specs.Boxes.{w_beats_of};
ghost use Rattle.axi_beats.specs.Lines.{w_text};
ghost use Rattle.bus_words.specs.Text.{flag, hex};
ghost use Rattle.line_text.specs.Traces.{d_front, is_alike, reply_text};
ghost use Rattle.line_text.specs.Writing.{StopsShort, WritesSome};

use crate::beat_lines::d_front;
use crate::line::{LineText, digits_of, sixteen_digits};
use crate::writing::{WriteFault, write_text};
use axi_beats::{BurstBox, WBeat};
use std::io::Write;
use std::marker::Model;
use tl_messages::DBeat;

/// What each of the lines begins with: its words in front of the payload, with a space behind each.
#[derive(Drop)]
struct Front {
    bytes: [u8; 32],
    length: usize,
}

impl Model for Front {
    ghost use Rattle.std.specs.Prelude.{◌≤◌, ℕ, List, take};

    ghost Value = { List ℕ };

    ghost view = { λ f. take f.length f.bytes };

    ghost invariant = { λ f. f.length ≤ 32 };
}

impl Front {
    /// That of a beat's line.
    fn new(client: u8, beat: &DBeat) -> Front
        ensures { result ≡ d_front client beat.now [] }
    {
        let mut text = LineText::new();
        d_front(&mut text, client, beat);
        let line = text.as_slice();
        let length = line.len() - 1;
        let mut bytes = [0; 32];
        bytes[..length].copy_from_slice(&line[..length]);
        Front { bytes, length }
    }
}

/// The byte of a flag.
#[inline(always)]
fn flag_byte(is_set: bool) -> u8
    ensures { result ∷ [] ≡ flag is_set }
{
    if is_set { b'1' } else { b'0' }
}

/// Puts a text among some bytes.
#[inline(always)]
fn put(bytes: &mut [u8; 512], at: usize, text: &[u8])
    requires { at + length text.now ≤ 512 }
    ensures { take (at + length text.now) bytes.new ≡ take at bytes.old ++ text.now }
{
    bytes[at..at + text.len()].copy_from_slice(text);
}

/// Lines that aren't written yet.
#[derive(Drop)]
struct Lines {
    bytes: [u8; 512],
    length: usize,
}

impl Model for Lines {
    ghost use Rattle.std.specs.Prelude.{◌≤◌, ℕ, List, take};

    ghost Value = { List ℕ };

    ghost view = { λ l. take l.length l.bytes };

    ghost invariant = { λ l. l.length ≤ 512 };
}

impl Lines {
    /// No lines.
    #[inline(always)]
    fn new() -> Lines
        ensures { result ≡ [] }
    {
        Lines {
            bytes: [0; 512],
            length: 0,
        }
    }

    /// The bytes of the lines.
    fn as_slice(&self) -> &[u8]
        ensures { result.now ≡ self.now }
    {
        &self.bytes[..self.length]
    }

    /// Puts a line behind.
    #[inline(always)]
    fn push(&mut self, front: &Front, payload: u64, is_corrupt: bool)
        requires { length self.old ≤ 448 }
        ensures { self.new ≡ self.old ++ (front.now ++ (hex 16 payload ++ (32 ∷ (flag is_corrupt ++ 10 ∷ [])))) }
    {
        let digits = self.length + front.length;
        put(&mut self.bytes, self.length, &front.bytes);
        put(&mut self.bytes, digits, &sixteen_digits(payload));
        put(
            &mut self.bytes,
            digits + 16,
            &[b' ', flag_byte(is_corrupt), b'\n'],
        );
        self.length = digits + 19;
    }

    /// Puts the line of a write's data behind.
    #[inline(always)]
    fn push_w(&mut self, beat: &WBeat)
        requires { length self.old ≤ 448 }
        ensures { self.new ≡ self.old ++ w_text beat.now }
    {
        let start = self.length;
        let (first, second) = digits_of(usize::from(beat.strobes));
        put(&mut self.bytes, start, b"W ");
        put(&mut self.bytes, start + 2, &sixteen_digits(beat.payload));
        put(
            &mut self.bytes,
            start + 18,
            &[b' ', first, second, b' ', flag_byte(beat.last), b'\n'],
        );
        self.length = start + 24;
    }

    /// Writes the lines where there is no room for one more.
    #[inline(always)]
    fn make_room<W: Write>(&mut self, writer: &mut W) -> Result<(), WriteFault>
        ensures room { OnOk result (length self.new ≤ 448) }
        ensures some { OnOk result (WritesSome self.old self.new (W.contents writer.old) (W.contents writer.new)) }
        ensures front { OnErr result (StopsShort self.old (W.contents writer.old) (W.contents writer.new)) }
    {
        if self.length <= 448 {
            return Ok(());
        }
        write_text(self.as_slice(), writer)?;
        self.length = 0;
        Ok(())
    }
}

/// Whether the lines of two beats differ in their data alone.
#[inline(always)]
fn is_alike(first: &DBeat, beat: &DBeat) -> bool
    ensures { result ≡ is_alike first.now beat.now }
{
    (first.opcode == beat.opcode)
        & (first.param == beat.param)
        & (first.size == beat.size)
        & (first.source == beat.source)
        & (first.denied == beat.denied)
}

/// Whether the lines of some beats differ from that of one in their data alone.
pub(crate) fn are_alike(first: &DBeat, beats: &[DBeat]) -> bool
    ensures { result ≡ list_all (is_alike first.now) beats.now }
{
    let mut alike = true;
    for beat in beats {
        alike = alike & is_alike(first, beat);
    }
    alike
}

/// Writes the lines of such beats.
#[inline(never)]
pub(crate) fn alike_lines<W: Write>(
    client: u8,
    first: &DBeat,
    beats: &[DBeat],
    writer: &mut W,
) -> Result<(), WriteFault>
    requires { list_all (is_alike first.now) beats.now ≡ true }
    ensures all { OnOk result (Appends (W.contents writer.old) (W.contents writer.new) (reply_text client beats.now)) }
    ensures front { OnErr result (StopsShort (reply_text client beats.now) (W.contents writer.old) (W.contents writer.new)) }
{
    let front = Front::new(client, first);
    let mut lines = Lines::new();
    for beat in beats {
        lines.make_room(writer)?;
        lines.push(&front, beat.payload, beat.corrupt);
    }
    write_text(lines.as_slice(), writer)
}

/// Writes the line of each W beat of a write.
#[inline(never)]
pub(crate) fn w_lines<W: Write>(burst: &BurstBox, writer: &mut W) -> Result<(), WriteFault>
    ensures all { OnOk result (Appends (W.contents writer.old) (W.contents writer.new) (flat_map w_text (w_beats_of burst.now))) }
    ensures front { OnErr result (StopsShort (flat_map w_text (w_beats_of burst.now)) (W.contents writer.old) (W.contents writer.new)) }
{
    let mut lines = Lines::new();
    for k in 0..burst.w_beats() {
        lines.make_room(writer)?;
        lines.push_w(&burst.w(k));
    }
    write_text(lines.as_slice(), writer)
}

//! The input as it is read: by blocks, and of these by lines. A read that fails, an interrupted one too, is a fault.
ghost use Rattle.std.specs.Prelude.{◌≡◌, ◌≢◌, ◌≤◌, ◌<◌, [], true, false, length, take, slice_index_or, IfOk, IfSome};
ghost use Rattle.std.specs.Vec.{vec_capacity, vec_len};
ghost use Rattle.std.specs.Io.KnownBytes.{Keeps};
ghost use Rattle.arrayvec.specs.ArrayVec.{array_vec_len};
ghost use Rattle.script_text.specs.Reads.{Fills, IsPart, IsSmall, ReadsLine, Refills, TakesByte, TakesPart, TakesWhole};
ghost use Rattle.line_text.specs.Words.{is_plain_line};

use crate::faults::ScriptFault;
use arrayvec::ArrayVec;
use line_text::plain_line_in;
use std::alloc::{AllocError, Global};
use std::io::{Read, Write};
use std::marker::Model;

/// The most bytes of a block.
const BLOCK_BYTES: usize = 65_536;

/// The bytes that are read until all of them are filled by one read: what a short input doesn't need isn't cleared.
const FIRST_BYTES: usize = 4_096;

/// A line's bytes without its line feed: at most 128 and a carriage return.
type Line = ArrayVec<u8, 129>;

/// The most bytes of a line without its line feed.
const LINE_BYTES: usize = 129;

/// What ended a line.
#[derive(Clone, Copy)]
pub(crate) enum Ending {
    /// A line feed.
    LineFeed,
    /// The input's end.
    Input,
    /// A byte more than there is room for: the line is at fault whatever follows.
    Room,
}

/// How many of the bytes ahead are of a line that has room for so many more, and what ends it behind them, if anything does.
fn part_of(ahead: &[u8], room: usize) -> (usize, Option<Ending>)
    requires { room ≤ 129 }
    ensures { IsPart ahead.now room result.0 result.1 }
{
    let most = if ahead.len() > room {
        room + 1
    } else {
        ahead.len()
    };
    for count in 0..most {
        if ahead[count] == b'\n' {
            return (count, Some(Ending::LineFeed));
        }
    }
    if most > room {
        return (room, Some(Ending::Room));
    }
    (most, None)
}

/// Fills up with zeros to so many bytes, for which there is room.
fn pad(bytes: &mut Vec<u8>, count: usize)
    requires fewer { vec_len bytes.old ≤ count }
    requires room { count ≤ vec_capacity bytes.old }
    ensures len { vec_len bytes.new ≡ count }
    ensures capacity { vec_capacity bytes.old ≤ vec_capacity bytes.new }
{
    bytes.resize(count, 0).unwrap();
}

/// The block of the input that was read last, at most 4,096 bytes until one has so many and at most 65,536 from then on, and the
/// line that was read last, which stands in the block or, where it doesn't lie whole in one, apart.
#[derive(Drop)]
pub(crate) struct Block {
    bytes: Vec<u8>,
    filled: usize,
    taken: usize,
    has_text: bool,
    start: usize,
    end: usize,
    is_apart: bool,
    apart: Line,
}

impl Model for Block {
    ghost use Rattle.std.specs.Prelude.{◌≡◌, ◌≤◌, ◌<◌, true, false, drop, take, length, slice_range, if◌then◌else◌};
    ghost use Rattle.std.specs.Vec.{vec_capacity};
    ghost use Rattle.script_text.specs.Reads.{BlockState};
    ghost use Rattle.line_text.specs.Words.{is_plain_line};

    ghost Value = { BlockState };

    ghost view = { λ b. record { ahead = drop b.taken (take b.filled b.bytes.items); taken = b.taken; has_text = b.has_text; line = if b.is_apart then b.apart.items else slice_range b.bytes.items b.start b.end } };

    ghost invariant = { λ b. (b.taken ≤ b.filled) × (b.filled ≤ length b.bytes.items) × (0 < length b.bytes.items) × (length b.bytes.items ≤ 65536)
        × (65536 ≤ vec_capacity b.bytes) × (b.start ≤ b.end) × (b.end ≤ length b.bytes.items)
        × (b.is_apart ≡ false → is_plain_line (slice_range b.bytes.items b.start b.end) ≡ true) };
}

impl Block {
    /// No block and no line yet. The one error is that memory was refused.
    pub(crate) fn new(alloc: Global) -> Result<Block, AllocError>
        ensures { IfOk result (λ block. block ≡ record { ahead = []; taken = 0; has_text = false; line = [] }) }
    {
        let mut bytes = Vec::with_capacity(alloc, BLOCK_BYTES)?;
        pad(&mut bytes, FIRST_BYTES);
        Ok(Block {
            bytes,
            filled: 0,
            taken: 0,
            has_text: false,
            start: 0,
            end: 0,
            is_apart: true,
            apart: Line::new(),
        })
    }

    /// Notes that text was written since it was read.
    pub(crate) fn note_text(&mut self)
        ensures { self.new ≡ record self.old { has_text = true } }
    {
        self.has_text = true;
    }

    /// Whether the line that was read last is known to be one that may stand.
    pub(crate) fn has_plain_line(&self) -> bool
        ensures { result ≡ true → is_plain_line self.now.line ≡ true }
    {
        !self.is_apart
    }

    /// The line that was read last.
    pub(crate) fn line(&self) -> &[u8]
        ensures { result.now ≡ self.now.line }
    {
        if self.is_apart {
            return self.apart.as_slice();
        }
        &self.bytes[self.start..self.end]
    }

    /// Reads the next block. Text that was written since the last one is flushed before the reader is asked.
    #[inline(never)]
    fn fill<R: Read, W: Write>(&mut self, reader: &mut R, writer: &mut W) -> Result<(), ScriptFault>
        requires { self.old.ahead ≡ [] }
        ensures input { Fills self.old self.new (R.remaining reader.old) (R.remaining reader.new) result }
        ensures small { IsSmall self.new }
        ensures output { Keeps (W.contents writer.old) (W.contents writer.new) }
    {
        if self.has_text {
            if writer.flush().is_err() {
                return Err(ScriptFault::Write);
            }
            self.has_text = false;
        }
        self.is_apart = true;
        if self.filled == self.bytes.len() {
            pad(&mut self.bytes, BLOCK_BYTES);
        }
        self.taken = 0;
        self.filled = 0;
        match reader.read(self.bytes.as_mut_slice()) {
            Ok(count) => {
                self.filled = count;
                Ok(())
            }
            Err(_) => Err(ScriptFault::Read),
        }
    }

    /// Reads the next block where nothing is left of this one. The answer is whether anything is left then: nothing is at the
    /// input's end.
    #[inline(always)]
    fn refill<R: Read, W: Write>(
        &mut self,
        reader: &mut R,
        writer: &mut W,
    ) -> Result<bool, ScriptFault>
        ensures input { Refills self.old self.new (R.remaining reader.old) (R.remaining reader.new) result }
        ensures small { IsSmall self.new }
        ensures output { Keeps (W.contents writer.old) (W.contents writer.new) }
    {
        if self.taken < self.filled {
            return Ok(true);
        }
        self.fill(reader, writer)?;
        Ok(self.taken < self.filled)
    }

    /// Takes the next byte; none at the input's end.
    pub(crate) fn next_byte<R: Read, W: Write>(
        &mut self,
        reader: &mut R,
        writer: &mut W,
    ) -> Result<Option<u8>, ScriptFault>
        ensures input { TakesByte self.old self.new (R.remaining reader.old) (R.remaining reader.new) result }
        ensures small { IsSmall self.new }
        ensures output { Keeps (W.contents writer.old) (W.contents writer.new) }
    {
        if !self.refill(reader, writer)? {
            return Ok(None);
        }
        let byte = self.bytes[self.taken];
        self.taken += 1;
        Ok(Some(byte))
    }

    /// Takes the next line where all of it lies in what is left of the block, with its line feed, and it may stand as it is. The
    /// answer is whether it does.
    fn take_whole(&mut self) -> bool
        ensures whole { TakesWhole self.old self.new result }
        ensures small { IsSmall self.new }
    {
        let Some(count) = plain_line_in(&self.bytes[self.taken..self.filled]) else {
            return false;
        };
        self.start = self.taken;
        self.end = self.taken + count;
        self.is_apart = false;
        self.taken += count + 1;
        true
    }

    /// Takes of what is left of the block what a line has room for, up to a line feed and it too. The answer is what ended
    /// the line, if anything did.
    fn take_part(&mut self, line: &mut Line) -> Option<Ending>
        requires { array_vec_len line.old ≤ 129 }
        ensures { TakesPart self.old self.new line.old.items line.new.items result }
    {
        let ahead = &self.bytes[self.taken..self.filled];
        let (count, ending) = part_of(ahead, LINE_BYTES - line.len());
        line.try_extend_from_slice(&ahead[..count]).unwrap();
        self.taken += count + usize::from(ending.is_some());
        ending
    }

    /// Takes the bytes up to the next line feed, and it too, block by block.
    fn take_parts<R: Read, W: Write>(
        &mut self,
        reader: &mut R,
        writer: &mut W,
        line: &mut Line,
    ) -> Result<Ending, ScriptFault>
        requires { line.old.items ≡ [] }
        ensures input { ReadsLine self.old self.new (R.remaining reader.old) (R.remaining reader.new) line.new.items result }
        ensures small { IsSmall self.new }
        ensures output { Keeps (W.contents writer.old) (W.contents writer.new) }
    {
        for _ in 0..=LINE_BYTES {
            if !self.refill(reader, writer)? {
                return Ok(Ending::Input);
            }
            if let Some(ending) = self.take_part(line) {
                return Ok(ending);
            }
        }
        Ok(Ending::Room)
    }

    /// Holds a line apart from the block.
    fn hold(&mut self, line: Line)
        ensures { self.new ≡ record self.old { line = line.items } }
    {
        self.apart = line;
        self.is_apart = true;
    }

    /// Reads a line that doesn't lie whole in the block. It is apart, since few lines do so.
    #[inline(never)]
    fn read_apart<R: Read, W: Write>(
        &mut self,
        reader: &mut R,
        writer: &mut W,
    ) -> Result<Ending, ScriptFault>
        ensures input { ReadsLine self.old self.new (R.remaining reader.old) (R.remaining reader.new) self.new.line result }
        ensures small { IsSmall self.new }
        ensures output { Keeps (W.contents writer.old) (W.contents writer.new) }
    {
        let mut line = Line::new();
        let ending = self.take_parts(reader, writer, &mut line);
        self.hold(line);
        ending
    }

    /// Takes the bytes up to the next line feed, and it too. They are the line that was read last.
    #[inline(always)]
    pub(crate) fn read_line<R: Read, W: Write>(
        &mut self,
        reader: &mut R,
        writer: &mut W,
    ) -> Result<Ending, ScriptFault>
        ensures input { ReadsLine self.old self.new (R.remaining reader.old) (R.remaining reader.new) self.new.line result }
        ensures small { IsSmall self.new }
        ensures output { Keeps (W.contents writer.old) (W.contents writer.new) }
    {
        if self.take_whole() {
            return Ok(Ending::LineFeed);
        }
        self.read_apart(reader, writer)
    }
}

//! The lines that say what the memory began with.
ghost use Rattle.std.specs.Prelude.{◌≡◌, ◌⊎◌, ◌++◌, ◌<◌, ◌≤◌, [], ◌∷◌, MatchOption, length};
ghost use Rattle.line_text.specs.Fields.{Reads, first_wrong, unless_wrong};
ghost use Rattle.line_text.specs.Words.{hex_at, word_at};
ghost use Rattle.score_script.specs.FillLines.{fill_byte_field, fill_byte_fields, fill_bytes_in, fill_count, fill_line};

use crate::score::Command;
use arrayvec::ArrayVec;
use line_text::Words;
use std::marker::Model;

/// The most bytes of a line.
const MOST: u32 = 32;

/// The bytes of a filling, 1 to 32.
#[derive(Drop)]
pub struct FillBytes {
    bytes: ArrayVec<u8, 32>,
}

impl Model for FillBytes {
    ghost use Rattle.std.specs.Prelude.{ℕ, List};

    ghost Value = { List ℕ };

    ghost view = { λ b. b.bytes.items };
}

impl FillBytes {
    /// No bytes.
    fn new() -> FillBytes
        ensures { result ≡ [] }
    {
        FillBytes {
            bytes: ArrayVec::new(),
        }
    }

    /// One byte more.
    fn push(&mut self, byte: u8)
        requires { length self.old < 32 }
        ensures { self.new ≡ self.old ++ byte ∷ [] }
    {
        self.bytes.push(byte);
    }

    /// These bytes, where they are 1 to 32.
    pub fn of(bytes: &[u8]) -> Option<FillBytes>
        ensures { MatchOption result ((length bytes.now ≡ 0) ⊎ (32 < length bytes.now)) (λ held. (held ≡ bytes.now) × (0 < length bytes.now) × (length bytes.now ≤ 32)) }
    {
        if bytes.is_empty() || bytes.len() > 32 {
            return None;
        }
        let mut held = FillBytes::new();
        held.bytes.try_extend_from_slice(bytes).unwrap();
        Some(held)
    }

    /// All bytes.
    pub(crate) fn as_slice(&self) -> &[u8]
        ensures { result.now ≡ self.now }
    {
        self.bytes.as_slice()
    }
}

/// How many bytes a line has: as many as there are words behind its address, 1 to 32.
fn fill_count(words: &Words<'_>) -> u32
    ensures value { result ≡ fill_count words.now }
    ensures most { result ≤ 32 }
{
    for count in 1..MOST {
        if words.end(2 + count).is_ok() {
            return count;
        }
    }
    MOST
}

/// A byte of one or two digits.
fn fill_byte(words: &Words<'_>, n: u32) -> Result<u8, u32>
    requires { 0 < n }
    ensures { Reads (fill_byte_field (word_at words.now n)) (hex_at words.now n) n result }
{
    if words.at(n).len() > 2 {
        return Err(n);
    }
    words.mask(n)
}

/// So many bytes of a line, which then ends.
fn fill_bytes(words: &Words<'_>, count: u32) -> Result<FillBytes, u32>
    requires { count ≤ 32 }
    ensures { result ≡ unless_wrong (fill_bytes_in words.now count) (first_wrong (fill_byte_fields count) words.now 3) }
{
    let mut bytes = FillBytes::new();
    for k in 0..count {
        bytes.push(fill_byte(words, 3 + k)?);
    }
    words.end(2 + count)?;
    Ok(bytes)
}

/// `fill ADDRESS BYTE ..`. It is apart, since a function clears the room for its values at its entry.
#[inline(never)]
pub(crate) fn fill_line(words: &Words<'_>) -> Result<Command, u32>
    ensures { result ≡ fill_line words.now }
{
    let address = words.address(2)?;
    let bytes = fill_bytes(words, fill_count(words))?;
    Ok(Command::Fill(address, bytes))
}

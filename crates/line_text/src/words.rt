//! The words of a line, by their places in it, and the fields that they write.
ghost use Rattle.std.specs.Prelude.{[], ◌≡◌, ◌≢◌, ◌≤◌, ◌<◌, ◌+◌, ℕ, true, false, drop, length, nat_eq, nat_le, slice_index, codes, MatchResult, IfOk};
ghost use Rattle.std.specs.List.{starts_with};
ghost use Rattle.line_text.specs.Words.{words_of, word_at, is_skipped, dec_at, hex_at, is_dec_to, is_hex_to};
ghost use Rattle.line_text.specs.Fields.{Reads, byte_field, short_field, long_field, address_field, flag_field, is_set};

use crate::numbers::{decimal, hexadecimal};
use crate::word_mask::in_words;
use std::marker::Model;

/// How many words have their places held. Those behind them are looked for.
const HELD: usize = 16;

/// The words of a line, parted by spaces. Words are counted from 1, and one that isn't there reads as empty.
///
/// A field answers the number of its word where the word isn't as the field says.
#[derive(Drop)]
pub struct Words<'a> {
    line: &'a [u8],
    starts: [u8; HELD],
    ends: [u8; HELD],
    count: usize,
}

impl<'a> Model for Words<'a> {
    ghost use Rattle.std.specs.Prelude.{ℕ, List};
    ghost use Rattle.line_text.specs.Words.{ArePlaces, words_of};

    ghost Value = { List (List ℕ) };

    ghost view = { λ w. words_of w.line.now };

    ghost invariant = { λ w. ArePlaces w.line.now w.starts w.ends w.count };
}

/// Where the next word begins, or the line's end where there is none.
fn word_from(line: &[u8], at: usize) -> usize
    requires { at ≤ length line.now }
    ensures within { (at ≤ result) × (result ≤ length line.now) }
    ensures same { words_of (drop at line.now) ≡ words_of (drop result line.now) }
    ensures found { result < length line.now → slice_index line.now result ≢ 32 }
{
    for place in at..line.len() {
        if line[place] != b' ' {
            return place;
        }
    }
    line.len()
}

/// Where the next space stands, or the line's end where there is none.
fn space_from(line: &[u8], at: usize) -> usize
    requires { at ≤ length line.now }
    ensures within { (at ≤ result) × (result ≤ length line.now) }
    ensures before { (k : ℕ) → at ≤ k → k < result → slice_index line.now k ≢ 32 }
    ensures found { result < length line.now → slice_index line.now result ≡ 32 }
{
    for place in at..line.len() {
        if line[place] == b' ' {
            return place;
        }
    }
    line.len()
}

/// Where the word ends that begins at a place.
#[inline(always)]
fn word_end(line: &[u8], start: usize) -> usize
    requires within { start < length line.now }
    requires found { slice_index line.now start ≢ 32 }
    ensures within { (start ≤ result) × (result ≤ length line.now) }
    ensures before { (k : ℕ) → start ≤ k → k < result → slice_index line.now k ≢ 32 }
    ensures found { result < length line.now → slice_index line.now result ≡ 32 }
{
    space_from(line, start + 1)
}

/// Where the next word begins behind one that ends at a place, or the line's end where there is none.
#[inline(always)]
fn word_after(line: &[u8], end: usize) -> usize
    requires within { end ≤ length line.now }
    requires found { end < length line.now → slice_index line.now end ≡ 32 }
    ensures within { (end ≤ result) × (result ≤ length line.now) }
    ensures same { words_of (drop end line.now) ≡ words_of (drop result line.now) }
    ensures found { result < length line.now → slice_index line.now result ≢ 32 }
{
    if end == line.len() {
        return end;
    }
    word_from(line, end + 1)
}

/// How many words there are from a place on, at which one begins if any does.
fn words_from(line: &[u8], at: usize) -> usize
    requires short { length line.now ≤ 128 }
    requires within { at ≤ length line.now }
    requires found { at < length line.now → slice_index line.now at ≢ 32 }
    ensures { result ≡ length (words_of (drop at line.now)) }
{
    let mut count = 0;
    let mut start = at;
    while start < line.len() {
        count += 1;
        start = word_from(line, space_from(line, start));
    }
    count
}

/// The word behind so many others.
#[inline(never)]
fn word_behind(line: &[u8], others: usize) -> &[u8]
    requires { others < length (words_of line.now) }
    ensures { result.now ≡ word_at (words_of line.now) (others + 1) }
{
    let mut start = word_from(line, 0);
    for _ in 0..others {
        start = word_from(line, space_from(line, start));
    }
    &line[start..space_from(line, start)]
}

/// Whether a text begins with `#`.
pub fn is_comment(text: &[u8]) -> bool
    ensures { result ≡ starts_with nat_eq text.now (codes "#") }
{
    text.starts_with(b"#")
}

impl<'a> Words<'a> {
    /// No words: those of an empty line.
    pub fn new() -> Words<'a>
        ensures { result ≡ [] }
    {
        Words {
            line: &[],
            starts: [0; HELD],
            ends: [0; HELD],
            count: 0,
        }
    }

    /// Holds the words of a line of at most 128 bytes, in place of those that it held.
    pub fn read(&mut self, line: &'a [u8])
        requires { length line.now ≤ 128 }
        ensures { self.new ≡ words_of line.now }
    {
        if line.len() < 4 || line.len() > 63 {
            self.read_apart(line);
        } else {
            self.read_together(line);
        }
    }

    /// The same for a line of 4 to 63 bytes, which are looked at together.
    #[inline(always)]
    fn read_together(&mut self, line: &'a [u8])
        requires { (4 ≤ length line.now) × (length line.now ≤ 63) }
        ensures { self.new ≡ words_of line.now }
    {
        self.line = line;
        let mask = in_words(line);
        let mut edges = mask ^ (mask << 1);
        let mut end = 0;
        for count in 0..HELD {
            if edges == 0 {
                self.count = count;
                return;
            }
            let start = edges.trailing_zeros();
            edges = edges & (edges - 1);
            end = edges.trailing_zeros() as usize;
            edges = edges & (edges - 1);
            self.starts[count] = start as u8;
            self.ends[count] = end as u8;
        }
        self.count = HELD + words_from(line, word_from(line, end));
    }

    /// The same byte by byte.
    #[inline(always)]
    fn read_apart(&mut self, line: &'a [u8])
        requires { length line.now ≤ 128 }
        ensures { self.new ≡ words_of line.now }
    {
        self.line = line;
        let mut start = word_from(line, 0);
        for count in 0..HELD {
            if start >= line.len() {
                self.count = count;
                return;
            }
            let end = word_end(line, start);
            self.starts[count] = start as u8;
            self.ends[count] = end as u8;
            start = word_after(line, end);
        }
        self.count = HELD + words_from(line, start);
    }

    /// Whether a line of these words is skipped: it has none, or its first begins with `#`.
    pub fn are_skipped(&self) -> bool
        ensures { result ≡ is_skipped self.now }
    {
        self.count == 0 || is_comment(self.at(1))
    }

    /// Word `n`.
    pub fn at(&self, n: u32) -> &'a [u8]
        requires { 0 < n }
        ensures { result.now ≡ word_at self.now n }
    {
        let place = n as usize - 1;
        if place >= self.count {
            return &[];
        }
        if place >= HELD {
            return word_behind(self.line, place);
        }
        let start = usize::from(self.starts[place]);
        let end = usize::from(self.ends[place]);
        &self.line[start..end]
    }

    /// That word `n` is the last.
    pub fn end(&self, n: u32) -> Result<(), u32>
        requires { n < 64 }
        ensures { MatchResult result (λ _. nat_le (n + 1) (length self.now) ≡ false) (λ e. (nat_le (n + 1) (length self.now) ≡ true) × (e ≡ n + 1)) }
    {
        if self.count > n as usize {
            return Err(n + 1);
        }
        Ok(())
    }

    /// A decimal number to a limit: 1 to 20 digits.
    #[inline(always)]
    pub fn dec(&self, n: u32, limit: u64) -> Result<u64, u32>
        requires { 0 < n }
        ensures reads { Reads (is_dec_to limit (word_at self.now n)) (dec_at self.now n) n result }
        ensures small { IfOk result (λ v. v ≤ limit) }
    {
        match decimal(self.at(n)) {
            Some(value) if value <= limit => Ok(value),
            _ => Err(n),
        }
    }

    /// A hexadecimal number to a limit: 1 to 16 digits of either case.
    #[inline(always)]
    pub fn hex(&self, n: u32, limit: u64) -> Result<u64, u32>
        requires { 0 < n }
        ensures reads { Reads (is_hex_to limit (word_at self.now n)) (hex_at self.now n) n result }
        ensures small { IfOk result (λ v. v ≤ limit) }
    {
        match hexadecimal(self.at(n)) {
            Some(value) if value <= limit => Ok(value),
            _ => Err(n),
        }
    }

    /// A decimal number to 255.
    #[inline(always)]
    pub fn byte(&self, n: u32) -> Result<u8, u32>
        requires { 0 < n }
        ensures { Reads (byte_field (word_at self.now n)) (dec_at self.now n) n result }
    {
        Ok(self.dec(n, 255)? as u8)
    }

    /// A decimal number to 65,535.
    #[inline(always)]
    pub fn short(&self, n: u32) -> Result<u16, u32>
        requires { 0 < n }
        ensures { Reads (short_field (word_at self.now n)) (dec_at self.now n) n result }
    {
        Ok(self.dec(n, 65_535)? as u16)
    }

    /// A decimal number to 2^32 - 1.
    pub fn long(&self, n: u32) -> Result<u32, u32>
        requires { 0 < n }
        ensures { Reads (long_field (word_at self.now n)) (dec_at self.now n) n result }
    {
        Ok(self.dec(n, 0xffff_ffff)? as u32)
    }

    /// An address or a page: a hexadecimal number to 2^32 - 1.
    #[inline(always)]
    pub fn address(&self, n: u32) -> Result<u32, u32>
        requires { 0 < n }
        ensures { Reads (address_field (word_at self.now n)) (hex_at self.now n) n result }
    {
        Ok(self.hex(n, 0xffff_ffff)? as u32)
    }

    /// A mask: a hexadecimal number to ff.
    #[inline(always)]
    pub fn mask(&self, n: u32) -> Result<u8, u32>
        requires { 0 < n }
        ensures { Reads (is_hex_to 255 (word_at self.now n)) (hex_at self.now n) n result }
    {
        Ok(self.hex(n, 255)? as u8)
    }

    /// `0` or `1`, as it stands.
    #[inline(always)]
    pub fn flag(&self, n: u32) -> Result<bool, u32>
        requires { 0 < n }
        ensures { Reads (flag_field (word_at self.now n)) (is_set (word_at self.now n)) n result }
    {
        match self.at(n) {
            b"0" => Ok(false),
            b"1" => Ok(true),
            _ => Err(n),
        }
    }
}

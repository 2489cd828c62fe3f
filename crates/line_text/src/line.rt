//! The text of a line, put together from its end.
ghost use Rattle.std.specs.Prelude.{◌≡◌, ◌≤◌, ◌<◌, ◌+◌, ◌/◌, ◌%◌, ◌^◌, ◌∷◌, ◌++◌, [], false, length, decimal};
ghost use Rattle.std.specs.Fmt.{digit_glyph};
ghost use Rattle.bus_words.specs.Text.{flag, hex};

use itoa::write_digits;
use std::marker::Model;
use std::simd::prelude::*;

/// The two hexadecimal digits of each byte.
const PAIRS: &[u8; 512] =
    b"000102030405060708090a0b0c0d0e0f101112131415161718191a1b1c1d1e1f202122232425262728292a2b2c2d2e2f303132333435363738393a3b3c3d3e3f404142434445464748494a4b4c4d4e4f505152535455565758595a5b5c5d5e5f606162636465666768696a6b6c6d6e6f707172737475767778797a7b7c7d7e7f808182838485868788898a8b8c8d8e8f909192939495969798999a9b9c9d9e9fa0a1a2a3a4a5a6a7a8a9aaabacadaeafb0b1b2b3b4b5b6b7b8b9babbbcbdbebfc0c1c2c3c4c5c6c7c8c9cacbcccdcecfd0d1d2d3d4d5d6d7d8d9dadbdcdddedfe0e1e2e3e4e5e6e7e8e9eaebecedeeeff0f1f2f3f4f5f6f7f8f9fafbfcfdfeff";

/// A line of which nothing stands but its line feed.
const EMPTY: &[u8; 64] = b"                                                               \n";

/// The two hexadecimal digits of a byte.
#[inline(always)]
pub(crate) fn digits_of(byte: usize) -> (u8, u8)
    requires { byte < 256 }
    ensures first { result.0 ≡ digit_glyph false (byte / 16) }
    ensures second { result.1 ≡ digit_glyph false (byte % 16) }
{
    (PAIRS[2 * byte], PAIRS[2 * byte + 1])
}

/// The 16 hexadecimal digits of a number, made together.
#[inline(always)]
pub(crate) fn sixteen_digits(number: u64) -> [u8; 16]
    ensures { result ≡ hex 16 number }
{
    let bytes = u64x1::splat(number).to_le_bytes();
    let high = bytes >> u8x8::splat(4);
    let low = bytes & u8x8::splat(15);
    let digits = high.shuffle(low, [7, 15, 6, 14, 5, 13, 4, 12, 3, 11, 2, 10, 1, 9, 0, 8]);
    let are_letters = digits.simd_gt(u8x16::splat(9));
    let glyphs = digits + are_letters.select(u8x16::splat(87), u8x16::splat(48));
    glyphs.to_array()
}

/// The last words of a line of at most 64 bytes, with a space between each two, and its line feed. What puts some in front
/// moves the start once, since it is read anew after a store among the bytes.
#[derive(Drop)]
pub(crate) struct LineText {
    bytes: [u8; 64],
    start: usize,
}

impl Model for LineText {
    ghost use Rattle.std.specs.Prelude.{◌≤◌, ℕ, List, drop};

    ghost Value = { List ℕ };

    ghost view = { λ t. drop t.start t.bytes };

    ghost invariant = { λ t. t.start ≤ 64 };
}

impl LineText {
    /// A line of which nothing stands but its line feed.
    #[inline(always)]
    pub(crate) fn new() -> LineText
        ensures { result ≡ 10 ∷ [] }
    {
        LineText {
            bytes: *EMPTY,
            start: 63,
        }
    }

    /// Puts a flag in front, with no space behind it.
    pub(crate) fn put_last_flag(&mut self, is_set: bool)
        requires { length self.old < 64 }
        ensures text { self.new ≡ flag is_set ++ self.old }
        ensures short { length self.new ≡ length self.old + 1 }
    {
        self.put(if is_set { b'1' } else { b'0' });
    }

    /// The bytes of the text.
    pub(crate) fn as_slice(&self) -> &[u8]
        ensures { result.now ≡ self.now }
    {
        &self.bytes[self.start..]
    }

    /// Puts a byte in front.
    #[inline(always)]
    fn put(&mut self, byte: u8)
        requires { length self.old < 64 }
        ensures { self.new ≡ byte ∷ self.old }
    {
        self.start -= 1;
        self.bytes[self.start] = byte;
    }

    /// Puts a text in front.
    #[inline(always)]
    pub(crate) fn put_text(&mut self, text: &[u8])
        requires { length text.now + length self.old ≤ 64 }
        ensures { self.new ≡ text.now ++ self.old }
    {
        let start = self.start - text.len();
        self.bytes[start..self.start].copy_from_slice(text);
        self.start = start;
    }

    /// Puts a word and a space in front.
    #[inline(always)]
    pub(crate) fn put_word(&mut self, word: &[u8])
        requires { length word.now + length self.old < 64 }
        ensures { self.new ≡ word.now ++ 32 ∷ self.old }
    {
        let end = self.start - 1;
        self.bytes[end] = b' ';
        let start = end - word.len();
        self.bytes[start..end].copy_from_slice(word);
        self.start = start;
    }

    /// Puts a decimal number in front.
    pub(crate) fn put_decimal(&mut self, number: u64)
        requires { length self.old ≤ 44 }
        ensures text { self.new ≡ decimal number ++ self.old }
        ensures short { length self.new ≤ length self.old + 20 }
    {
        self.start = write_digits(number, &mut self.bytes, self.start);
    }

    /// Puts a decimal number up to 255, and a space, in front. Most have one digit.
    #[inline(always)]
    pub(crate) fn put_byte(&mut self, number: u8)
        requires { length self.old ≤ 60 }
        ensures text { self.new ≡ decimal number ++ 32 ∷ self.old }
        ensures short { length self.new ≤ length self.old + 4 }
    {
        if number < 10 {
            self.put_two(b'0' + number, b' ');
            return;
        }
        self.put_long_byte(number);
    }

    /// Puts a decimal number up to 255 in front, of however many digits, and a space.
    #[inline(never)]
    fn put_long_byte(&mut self, number: u8)
        requires { length self.old ≤ 60 }
        ensures text { self.new ≡ decimal number ++ 32 ∷ self.old }
        ensures short { length self.new ≤ length self.old + 4 }
    {
        let end = self.start - 1;
        self.bytes[end] = b' ';
        self.start = write_digits(u64::from(number), &mut self.bytes, end);
    }

    /// Puts a flag and a space in front.
    pub(crate) fn put_flag(&mut self, is_set: bool)
        requires { length self.old ≤ 62 }
        ensures text { self.new ≡ flag is_set ++ 32 ∷ self.old }
        ensures short { length self.new ≡ length self.old + 2 }
    {
        self.put_two(if is_set { b'1' } else { b'0' }, b' ');
    }

    /// Puts two bytes in front.
    #[inline(always)]
    fn put_two(&mut self, first: u8, second: u8)
        requires { length self.old < 63 }
        ensures { self.new ≡ first ∷ second ∷ self.old }
    {
        let start = self.start - 2;
        self.bytes[start] = first;
        self.bytes[start + 1] = second;
        self.start = start;
    }

    /// Puts a number in so many hexadecimal digits, an even count of them, in front.
    #[inline(always)]
    pub(crate) fn put_digits(&mut self, digits: usize, number: u64)
        requires some { 0 < digits }
        requires even { digits % 2 ≡ 0 }
        requires fits { number < 16 ^ digits }
        requires room { digits + length self.old ≤ 64 }
        ensures text { self.new ≡ hex digits number ++ self.old }
        ensures short { length self.new ≡ length self.old + digits }
    {
        if digits == 16 {
            return self.put_text(&sixteen_digits(number));
        }
        if digits == 8 {
            return self.put_text(&sixteen_digits(number)[8..]);
        }
        let mut rest = number;
        for _ in 0..digits / 2 {
            let (first, second) = digits_of((rest % 256) as usize);
            self.put_two(first, second);
            rest /= 256;
        }
    }

    /// Puts a number in so many hexadecimal digits, an even count of them, and a space, in front.
    #[inline(always)]
    pub(crate) fn put_hex(&mut self, digits: usize, number: u64)
        requires some { 0 < digits }
        requires even { digits % 2 ≡ 0 }
        requires fits { number < 16 ^ digits }
        requires room { digits + length self.old < 64 }
        ensures text { self.new ≡ hex digits number ++ 32 ∷ self.old }
        ensures short { length self.new ≡ length self.old + digits + 1 }
    {
        self.put(b' ');
        self.put_digits(digits, number);
    }
}

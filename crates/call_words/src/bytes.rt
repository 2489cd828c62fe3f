//! Bytes that stand in words by eights.
ghost use Rattle.std.specs.Prelude.{◌≡◌, ◌≤◌, ◌<◌, ◌++◌, [], ◌∷◌, length};
ghost use Rattle.call_words.specs.CallWords.{byte_of, bytes_of, line_words};

use crate::words::{byte_in, word_at};
use arrayvec::ArrayVec;

/// How many words so many bytes are, at most 16; of a number of bytes that is 129 or more, its remainder by 129 counts.
pub fn words_of(length: u8) -> u32
    ensures value { result ≡ line_words length }
    ensures most { result ≤ 16 }
{
    (u32::from(length % 129) + 7) / 8
}

/// The byte of some words at a place, the lowest of each word first.
fn byte_of(words: &[u64], place: u32) -> u8
    ensures { result ≡ byte_of words.now place }
{
    let word = word_at(words, (place / 8) as usize);
    byte_in(word >> (place % 8 * 8))
}

/// One byte more.
fn put(bytes: &mut ArrayVec<u8, 128>, byte: u8)
    requires { length bytes.old.items < 128 }
    ensures { bytes.new.items ≡ bytes.old.items ++ byte ∷ [] }
{
    bytes.push(byte);
}

/// The first bytes of some words, at most 128; of a number of bytes that is 129 or more, its remainder by 129 counts.
pub fn bytes_of(words: &[u64], length: u8) -> ArrayVec<u8, 128>
    ensures { result.items ≡ bytes_of words.now length }
{
    let mut bytes = ArrayVec::new();
    for place in 0..u32::from(length % 129) {
        put(&mut bytes, byte_of(words, place));
    }
    bytes
}

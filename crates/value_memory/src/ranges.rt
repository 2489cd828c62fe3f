//! The words of a range of bytes.
ghost use Rattle.std.specs.Prelude.{◌≡◌, ◌+◌, ◌*◌, ◌/◌, ◌%◌, ◌^◌, ◌<◌, ℕ};
ghost use Rattle.bus_words.specs.Lanes.{has_lane};
ghost use Rattle.data_unit.specs.Words.{full_mask};
ghost use Rattle.value_memory.specs.ValueMemory.{IsByteRange, is_in, word_count};

use crate::ByteRange;
use data_unit::full_mask;

/// How many words of eight bytes have a byte of a range.
#[inline]
pub fn word_count(range: ByteRange) -> u32
    requires { IsByteRange range }
    ensures { result ≡ word_count range }
{
    ((1 << range.size) + 7) / 8
}

/// The address of one of these words, which are counted from 0.
#[inline]
pub fn word_at(range: ByteRange, place: u32) -> u32
    requires range { IsByteRange range }
    requires place { place < word_count range }
    ensures address { result ≡ range.address + place * 8 }
    ensures word { result / 8 ≡ range.address / 8 + place }
    ensures page { result / 4096 ≡ range.address / 4096 }
{
    range.address + place * 8
}

/// The address so many bytes behind another.
#[inline]
pub(crate) fn address_behind(address: u32, k: usize) -> u32
    requires { address + k < 2 ^ 32 }
    ensures { result ≡ address + k }
{
    address + k as u32
}

/// The lanes that the range has of each of these words, bit i for byte i.
#[inline]
pub(crate) fn lanes_of(range: ByteRange) -> u8
    requires { IsByteRange range }
    ensures lanes { (x place : ℕ) → place < word_count range → x / 8 ≡ range.address / 8 + place → has_lane result (x % 8) ≡ is_in range x }
    ensures mask { result ≡ full_mask range.address range.size }
{
    full_mask(range.address, range.size)
}

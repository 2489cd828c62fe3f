//! Which bytes of a line stand in its words, bit by bit.
ghost use Rattle.std.specs.Prelude.{◌≡◌, ◌≤◌, ◌<◌, ◌+◌, ◌^◌, ◌*◌, ℕ, if◌then◌else◌, length};
ghost use Rattle.std.specs.Int.{bit_at};
ghost use Rattle.line_text.specs.Words.{is_in_word};

use std::simd::prelude::*;

/// Which of `N` bytes from a place on, at most 32, are no spaces.
#[inline(always)]
fn lanes<const N: usize>(line: &[u8], at: usize) -> u64
    requires few { N ≤ 32 }
    requires within { at + N ≤ length line.now }
    ensures here { (k : ℕ) → k < N → bit_at result k ≡ (if is_in_word line.now (at + k) then 1 else 0) }
    ensures small { result < 2 ^ N }
{
    Simd::<u8, N>::from_slice(&line[at..])
        .simd_ne(Simd::splat(b' '))
        .to_bitmask()
}

/// Which bytes of a line of `N` to `2 * N` are no spaces. Those in the middle are looked at twice.
#[inline(always)]
fn ends<const N: usize>(line: &[u8]) -> u64
    requires few { N ≤ 32 }
    requires within { (N ≤ length line.now) × (length line.now ≤ 63) × (length line.now ≤ N * 2) }
    ensures { ((k : ℕ) → bit_at result k ≡ (if is_in_word line.now k then 1 else 0)) × (result < 2 ^ 63) }
{
    let behind = line.len() - N;
    lanes::<N>(line, 0) | (lanes::<N>(line, behind) << behind)
}

/// Which bytes of a line of 4 to 63 are no spaces.
#[inline(always)]
pub(crate) fn in_words(line: &[u8]) -> u64
    requires { (4 ≤ length line.now) × (length line.now ≤ 63) }
    ensures { ((k : ℕ) → bit_at result k ≡ (if is_in_word line.now k then 1 else 0)) × (result < 2 ^ 63) }
{
    match line.len() {
        32.. => ends::<32>(line),
        16.. => ends::<16>(line),
        8.. => ends::<8>(line),
        _ => ends::<4>(line),
    }
}

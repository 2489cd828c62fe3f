//! Bytes in a row, of which 64 are moved together.
ghost use Rattle.std.specs.Prelude.{◌≡◌, ◌+◌, ◌≤◌, ◌++◌, drop, length, take};

use std::simd::prelude::*;

/// Moves the 64 bytes behind a place over it.
#[inline(always)]
pub(crate) fn close_gap(bytes: &mut [u8], place: usize)
    requires { place + 65 ≤ length bytes.old }
    ensures { take (place + 64) bytes.new ≡ take place bytes.old ++ take 64 (drop (place + 1) bytes.old) }
{
    let behind = u8x64::from_slice(&bytes[place + 1..]);
    behind.copy_to_slice(&mut bytes[place..]);
}

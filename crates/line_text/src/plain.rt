//! Which bytes may stand in a line.
ghost use Rattle.std.specs.Prelude.{◌≡◌, ◌≤◌, ◌<◌, ◌+◌, true, length, take, slice_index_or, IfSome};
ghost use Rattle.std.specs.List.{list_all};
ghost use Rattle.line_text.specs.PlainRuns.{PassesIn, first_set};
ghost use Rattle.line_text.specs.Words.{is_plain_byte, is_plain_line};

use std::simd::prelude::*;

/// How many bytes are looked at together.
const LANES: usize = 32;

/// The most bytes of a line without its line feed.
const LINE_BYTES: usize = 129;

/// Whether a byte may stand in a line.
#[inline(always)]
fn is_plain(byte: u8) -> bool
    ensures { result ≡ is_plain_byte byte }
{
    (0x20 <= byte) & (byte <= 0x7e)
}

fn are_plain(bytes: &[u8]) -> bool
    ensures { result ≡ list_all is_plain_byte bytes.now }
{
    let mut plain = true;
    for byte in bytes {
        plain = plain & is_plain(*byte);
    }
    plain
}

/// Whether a line may stand: it has at most 128 bytes, each from 0x20 to 0x7e.
pub fn may_stand(line: &[u8]) -> bool
    ensures { result ≡ is_plain_line line.now }
{
    line.len() <= 128 && are_plain(line)
}

/// The place of a mask's lowest bit that is set, or the number of lanes.
#[inline(always)]
fn first_set(mask: u64) -> usize
    ensures { result ≡ first_set mask LANES }
{
    if mask == 0 {
        LANES
    } else {
        mask.trailing_zeros() as usize
    }
}

/// How many of the 32 bytes from a place on come before the first of them that may not stand.
#[inline(always)]
fn plain_run(bytes: &[u8], at: usize) -> usize
    requires { at + LANES ≤ length bytes.now }
    ensures { PassesIn is_plain_byte bytes.now at LANES result }
{
    let lanes = u8x32::from_slice(&bytes[at..]);
    let stops = lanes.simd_lt(u8x32::splat(0x20)) | lanes.simd_gt(u8x32::splat(0x7e));
    first_set(stops.to_bitmask())
}

/// Where the first byte from a place on is that may not stand, or the end.
fn plain_from(bytes: &[u8], at: usize) -> usize
    requires within { at ≤ length bytes.now }
    requires plain { list_all is_plain_byte (take at bytes.now) ≡ true }
    ensures within { result ≤ length bytes.now }
    ensures plain { list_all is_plain_byte (take result bytes.now) ≡ true }
{
    for place in at..bytes.len() {
        if !is_plain(bytes[place]) {
            return place;
        }
    }
    bytes.len()
}

/// Where the first byte is that may not stand, or the end.
#[inline(always)]
fn plain_until(bytes: &[u8]) -> usize
    ensures within { result ≤ length bytes.now }
    ensures plain { list_all is_plain_byte (take result bytes.now) ≡ true }
{
    let mut at = 0;
    while bytes.len() - at >= LANES {
        let run = plain_run(bytes, at);
        at += run;
        if run < LANES {
            return at;
        }
    }
    plain_from(bytes, at)
}

/// How many bytes the line has that some bytes begin with, where its line feed is among them and it may stand as it is.
pub fn plain_line_in(ahead: &[u8]) -> Option<usize>
    ensures { IfSome result (λ count. (count < length ahead.now) × (is_plain_line (take count ahead.now) ≡ true) × (slice_index_or ahead.now count 0 ≡ 10)) }
{
    let most = if ahead.len() > LINE_BYTES {
        LINE_BYTES
    } else {
        ahead.len()
    };
    let count = plain_until(&ahead[..most]);
    if count < most && ahead[count] == b'\n' {
        return Some(count);
    }
    None
}

//! How much replies tell, and how much of that is looked at.
ghost use Rattle.std.specs.Prelude.{◌≡◌, ◌<◌, ◌≤◌, ◌-◌, ℕ, true};
ghost use Rattle.bus_words.specs.Lanes.{has_lane, mask_of};
ghost use Rattle.tl_messages.specs.Operations.{beats_of};
ghost use Rattle.scoreboard.specs.InTurn.{is_unknown_in};
ghost use Rattle.scoreboard.specs.InsideBoards.{footprint_of};
ghost use Rattle.scoreboard.specs.Telling.{bytes_compared, bytes_told, due_telling, is_compared, is_sure, is_told, lanes_with, nothing_told, one_if};

use crate::Policy;
use crate::footprint::Footprint;
use crate::in_turn::unknown_lanes;
use bus_words::has_lane;
use tl_messages::{DBeat, beats_of};

/// Of a beat on channel D how many bytes of its request it tells, and how many of these are compared with what is due.
#[derive(Clone, Copy, Debug, PartialEq, Eq)]
pub struct Telling {
    /// The bytes of its request that it tells.
    pub told: u8,
    /// Those of them that are compared.
    pub compared: u8,
    /// The lanes that they are in, bit k for lane k.
    pub lanes: u8,
    /// The payload of the beat that is due.
    pub due: u64,
}

/// 1 where it holds, else 0.
pub(crate) fn one_if(holds: bool) -> u8
    ensures value { result ≡ one_if holds }
    ensures most { result ≤ 1 }
{
    if holds { 1 } else { 0 }
}

/// How many lanes a mask has.
fn lanes_in(mask: u8) -> u8
    ensures value { result ≡ lanes_with (has_lane mask) }
    ensures most { result ≤ 8 }
{
    if mask == 0 {
        return 0;
    }
    if mask == 255 {
        return 8;
    }
    one_if(has_lane(mask, 0))
        + one_if(has_lane(mask, 1))
        + one_if(has_lane(mask, 2))
        + one_if(has_lane(mask, 3))
        + one_if(has_lane(mask, 4))
        + one_if(has_lane(mask, 5))
        + one_if(has_lane(mask, 6))
        + one_if(has_lane(mask, 7))
}

/// How many bytes that beat `k` of a reply tells are determined.
fn sure_lanes(footprint: &Footprint, k: u16) -> u8
    ensures value { result ≡ lanes_with (is_sure (footprint_of footprint.now) k) }
    ensures most { result ≤ 8 }
{
    if !footprint.reads() || u32::from(k) >= footprint.words() {
        return 0;
    }
    lanes_in(footprint.determined_in(footprint.word_at(u32::from(k))))
}

/// Of how many bytes that beat `k` of a reply tells it isn't known what is due there.
fn unknown_count(footprint: &Footprint, k: u16, due: &DBeat) -> u8
    ensures { result ≡ lanes_with (is_unknown_in (footprint_of footprint.now) k due.now) }
{
    lanes_in(unknown_lanes(footprint, k, due))
}

/// How many bytes of a request of `2^size` bytes a beat tells.
fn bytes_told(size: u8) -> u8
    ensures { result ≡ bytes_told size }
{
    1 << size.min(3)
}

/// How many of them are compared, as beat `k` of the reply.
fn bytes_compared(policy: Policy, footprint: &Footprint, k: u16, due: &DBeat) -> u8
    ensures { result ≡ bytes_compared policy (footprint_of footprint.now) k due.now }
{
    match policy {
        Policy::AcceptanceOrder => {
            bytes_told(due.size).saturating_sub(unknown_count(footprint, k, due))
        }
        Policy::RealTime if due.corrupt || footprint.failed() => 0,
        Policy::RealTime => sure_lanes(footprint, k),
    }
}

/// The lanes of beat `k` of a reply that tell a byte of its request.
fn told_lanes(footprint: &Footprint, k: u16) -> u8
    ensures { (lane : ℕ) → lane < 8 → has_lane result lane ≡ is_told (footprint_of footprint.now) k lane }
{
    let number = u32::from(k);
    if number >= footprint.words() {
        return 0;
    }
    footprint.lanes_in(footprint.word_at(number))
}

/// The lanes of beat `k` of a reply that tell a determined byte.
fn determined_lanes(footprint: &Footprint, k: u16) -> u8
    ensures { (lane : ℕ) → lane < 8 → has_lane result lane ≡ is_sure (footprint_of footprint.now) k lane }
{
    let number = u32::from(k);
    if !footprint.reads() || number >= footprint.words() {
        return 0;
    }
    footprint.determined_in(footprint.word_at(number))
}

/// The lanes of beat `k` of a reply that are compared.
fn lanes_compared(policy: Policy, footprint: &Footprint, k: u16, due: &DBeat) -> u8
    ensures { result ≡ mask_of (is_compared policy (footprint_of footprint.now) k due.now) }
{
    if due.corrupt {
        return 0;
    }
    match policy {
        Policy::AcceptanceOrder => told_lanes(footprint, k) & !unknown_lanes(footprint, k, due),
        Policy::RealTime if footprint.failed() => 0,
        Policy::RealTime => determined_lanes(footprint, k),
    }
}

impl Telling {
    /// That of a beat that tells nothing.
    pub(crate) fn nothing() -> Telling
        ensures { result ≡ nothing_told }
    {
        Telling {
            told: 0,
            compared: 0,
            lanes: 0,
            due: 0,
        }
    }

    /// That of a beat where this one is due, and so many are left of the reply to a request with this footprint.
    #[inline(always)]
    pub(crate) fn of_due(policy: Policy, footprint: &Footprint, left: u16, due: &DBeat) -> Telling
        ensures { result ≡ due_telling policy (footprint_of footprint.now) (beats_of footprint.now.size true - left) due.now }
    {
        if due.opcode != 1 {
            return Telling::nothing();
        }
        let k = beats_of(footprint.size(), true).saturating_sub(left);
        Telling {
            told: bytes_told(due.size),
            compared: bytes_compared(policy, footprint, k, due),
            lanes: lanes_compared(policy, footprint, k, due),
            due: due.payload,
        }
    }
}

//! What is held of a word, in order of the writers' beginnings.
ghost use Rattle.std.specs.Prelude.{◌≡◌, ◌+◌, ◌<◌, ◌≤◌, [], ◌∷◌, ◌++◌, filter, if◌then◌else◌, length, map};
ghost use Rattle.byte_values.specs.Parts.{found_lanes, hiding_by, told_by, unknown_by, with_all};
ghost use Rattle.byte_values.specs.Words.{all_joined, beginning_of, changed_by, closed_by, gives_lanes, parted, seen_lanes, seen_of, settling_lanes};

use crate::change::Change;
use crate::holding::WordHolding;
use crate::known::SettledBytes;
use crate::lanes::without;
use arrayvec::ArrayVec;

/// Each as a change leaves it.
pub(crate) fn change_each(held: &mut [WordHolding], change: Change)
    ensures { held.new ≡ map (changed_by change) held.old }
{
    for holding in held.iter_mut() {
        *holding = holding.changed(change);
    }
}

/// Each that stands for many is over if none of them is in flight, by the oldest request in flight, when so many have begun.
pub(crate) fn close_each(held: &mut [WordHolding], oldest: u64, now: u64)
    ensures { held.new ≡ map (closed_by oldest now) held.old }
{
    for holding in held.iter_mut() {
        *holding = holding.closed(oldest, now);
    }
}

/// Each without these lanes.
pub(crate) fn part_each(held: &mut [WordHolding], lanes: u8)
    ensures { held.new ≡ map (parted lanes) held.old }
{
    for holding in held.iter_mut() {
        *holding = holding.parted(lanes);
    }
}

/// Without those that give no lane.
pub(crate) fn keep_given(held: &mut ArrayVec<WordHolding, 12>)
    ensures { held.new.items ≡ filter gives_lanes held.old.items }
{
    held.retain(|holding| holding.gives_lanes());
}

/// One more, if it gives a lane.
pub(crate) fn keep_if_given(left: &mut ArrayVec<WordHolding, 12>, holding: WordHolding)
    requires { length left.old.items < 12 }
    ensures items { left.new.items ≡ left.old.items ++ filter gives_lanes (holding ∷ []) }
    ensures room { length left.new.items ≤ length left.old.items + 1 }
{
    if !holding.gives_lanes() {
        return;
    }
    left.push(holding);
}

/// The lanes in which one of them hides a holding from a reader that began at a number, or later.
fn hiding_lanes(held: &[WordHolding], reader: u64, holding: &WordHolding) -> u8
    ensures { result ≡ with_all (hiding_by reader holding.now) 0 held.now }
{
    let mut lanes = 0;
    for other in held {
        lanes |= holding.hiding_by(reader, other);
    }
    lanes
}

/// The lanes of a holding in which none of them hides it from a reader that began at a number, or later.
pub(crate) fn seen_lanes(held: &[WordHolding], reader: u64, holding: &WordHolding) -> u8
    ensures { result ≡ seen_lanes held.now reader holding.now }
{
    without(holding.lanes(), hiding_lanes(held, reader, holding))
}

/// Each in the lanes that aren't hidden from a reader that began at a number; without those of which none is left.
pub(crate) fn seen_by(held: &[WordHolding], oldest: u64) -> ArrayVec<WordHolding, 12>
    requires { length held.now ≤ 12 }
    ensures { result.items ≡ filter gives_lanes (map (seen_of held.now oldest) held.now) }
{
    let mut left = ArrayVec::new();
    for holding in held {
        keep_if_given(
            &mut left,
            holding.with_lanes(seen_lanes(held, oldest, holding)),
        );
    }
    left
}

/// The lanes that settle, of those that haven't yet: only one holding is left of them, which is over.
pub(crate) fn settling_lanes(settled: u8, held: &[WordHolding]) -> u8
    ensures { result ≡ settling_lanes settled held.now }
{
    let mut taken = settled;
    let mut shared = 0;
    let mut over = 0;
    for holding in held {
        shared |= taken & holding.lanes();
        taken |= holding.lanes();
        over |= holding.lanes_if_over();
    }
    without(over, shared)
}

/// What has settled, with the bytes that they give to some lanes.
pub(crate) fn join_all(settled: SettledBytes, held: &[WordHolding], lanes: u8) -> SettledBytes
    ensures { result ≡ all_joined lanes settled held.now }
{
    let mut joined = settled;
    for holding in held {
        joined = joined.joined(lanes, holding);
    }
    joined
}

/// The lanes in which the request that began at a number may find a holding: it isn't its own, nor hidden from it.
fn found_lanes(held: &[WordHolding], number: u64, holding: &WordHolding) -> u8
    ensures { result ≡ found_lanes held.now number holding.now }
{
    if holding.is_own(number) {
        return 0;
    }
    seen_lanes(held, number, holding)
}

/// The lanes in which it may be told a holding as a payload has it.
fn told_by(held: &[WordHolding], number: u64, payload: u64, holding: &WordHolding) -> u8
    ensures { result ≡ told_by held.now number payload holding.now }
{
    found_lanes(held, number, holding) & holding.showing_lanes(payload)
}

/// The lanes in which it may find a holding that nobody knows.
fn unknown_by(held: &[WordHolding], number: u64, holding: &WordHolding) -> u8
    ensures { result ≡ unknown_by held.now number holding.now }
{
    without(found_lanes(held, number, holding), holding.known())
}

/// The lanes in which it may be told a payload, by what has settled or by one of them.
pub(crate) fn told_lanes(
    settled: SettledBytes,
    held: &[WordHolding],
    number: u64,
    payload: u64,
) -> u8
    ensures { result ≡ with_all (told_by held.now number payload) 0 (beginning_of settled ∷ held.now) }
{
    let mut lanes = told_by(held, number, payload, &WordHolding::beginning(settled));
    for holding in held {
        lanes |= told_by(held, number, payload, holding);
    }
    lanes
}

/// The lanes in which it may find what nobody knows, of what has settled or of one of them.
pub(crate) fn unknown_lanes(settled: SettledBytes, held: &[WordHolding], number: u64) -> u8
    ensures { result ≡ with_all (unknown_by held.now number) 0 (beginning_of settled ∷ held.now) }
{
    let mut lanes = unknown_by(held, number, &WordHolding::beginning(settled));
    for holding in held {
        lanes |= unknown_by(held, number, holding);
    }
    lanes
}

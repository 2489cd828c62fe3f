//! What is found of the payload of a beat on channel D, by the values that its request may be told.
ghost use Rattle.std.specs.Prelude.{◌≡◌, ◌<◌};
ghost use Rattle.value_memory.specs.States.{contents_of};
ghost use Rattle.value_memory.specs.ValueMemory.{IsByteRange};
ghost use Rattle.value_board.specs.Found.{compared_in, found_in, found_of, is_right_as_known, nothing_found, tells, with_due, wrong_in, wrong_payload, wrong_with};

use crate::unknown::some_unknown;
use crate::values::range_at;
use data_unit::{full_mask, merge};
use scoreboard::{ReplyRule, ReplyView, Wrong};
use tl_messages::{DBeat, beats_of};
use value_memory::{ByteRange, ValueMemory, word_at};

/// What is found of a payload: the lanes that are wrong, those that are compared, and all that it tells, bit k for lane k.
#[derive(Clone, Copy, Debug, PartialEq, Eq)]
pub(crate) struct Found {
    /// The lanes that its request may not be told so.
    pub(crate) wrong: u8,
    /// The lanes in which that says something.
    pub(crate) compared: u8,
    /// The lanes that it tells.
    pub(crate) told: u8,
}

/// Nothing is told.
const NOTHING: Found = Found {
    wrong: 0,
    compared: 0,
    told: 0,
};

/// Of some lanes of the word at an address those that the request of a number may not be told as a payload has them.
fn wrong_in(memory: &ValueMemory, number: u64, address: u32, payload: u64, lanes: u8) -> u8
    ensures { result ≡ wrong_in (contents_of memory.now) number address payload lanes }
{
    memory.wrong_lanes(number, address, payload, lanes)
}

/// And those in which that says something.
fn compared_in(memory: &ValueMemory, number: u64, address: u32, lanes: u8) -> u8
    ensures { result ≡ compared_in (contents_of memory.now) number address lanes }
{
    memory.compared_lanes(number, address, lanes)
}

/// Whether the next beat of a reply tells bytes of its request that are looked at.
fn tells(view: &ReplyView) -> bool
    ensures { result ≡ tells view.now }
{
    view.reads && !view.failed && view.due.opcode == 1 && !view.due.corrupt && view.left != 0
}

/// What is found of a payload, of which nobody knows some lanes, in the word of a range of which so many are left, by the number of its
/// request.
fn found_in(
    memory: &ValueMemory,
    range: ByteRange,
    left: u16,
    number: u64,
    payload: u64,
    lanes: u8,
) -> Found
    requires range { IsByteRange range }
    requires left { 0 < left }
    ensures { result ≡ found_in (contents_of memory.now) range left number payload lanes }
{
    let word = beats_of(range.size, true).saturating_sub(left);
    let address = word_at(range, u32::from(word));
    let told = full_mask(range.address, range.size);
    Found {
        wrong: wrong_in(memory, number, address, payload, told & !lanes),
        compared: compared_in(memory, number, address, told),
        told,
    }
}

/// What is found of a payload, of which nobody knows some lanes, in the next beat of a reply to the request of a number.
pub(crate) fn found_of(
    memory: &ValueMemory,
    view: &ReplyView,
    number: u64,
    payload: u64,
    lanes: u8,
) -> Found
    ensures { result ≡ found_of (contents_of memory.now) view.now number payload lanes }
{
    if !tells(view) {
        return NOTHING;
    }
    let Some(range) = range_at(view.address, view.size) else {
        return NOTHING;
    };
    found_in(memory, range, view.left, number, payload, lanes)
}

/// Whether a beat is right, but for lanes that nobody knows, by what is wrong with it.
fn is_right_as_known(verdict: &Option<Wrong>) -> bool
    ensures { result ≡ is_right_as_known verdict.now }
{
    matches!(verdict, None | Some(Wrong::Reply(ReplyRule::Unknown, _)))
}

/// A beat with the payload that is due in some lanes.
fn with_due(beat: &DBeat, due: u64, lanes: u8) -> DBeat
    ensures { result ≡ with_due beat.now due lanes }
{
    DBeat {
        payload: merge(beat.payload, due, lanes),
        ..*beat
    }
}

/// What is wrong with a beat that a board finds right as far as it is known.
fn wrong_payload(
    verdict: Option<Wrong>,
    found: &Found,
    beat: &DBeat,
    due: u64,
    lanes: u8,
) -> Option<Wrong>
    ensures { result ≡ wrong_payload verdict found.now beat.now due lanes }
{
    if found.wrong != 0 {
        let shown = with_due(beat, due, found.wrong | lanes);
        return Some(Wrong::Reply(ReplyRule::Payload, Some(shown)));
    }
    match verdict {
        None if some_unknown(lanes, found.compared) => Some(Wrong::Reply(
            ReplyRule::Unknown,
            Some(with_due(beat, due, lanes)),
        )),
        verdict => verdict,
    }
}

/// What is wrong with a beat, by what a board says, and what is found of its payload where another payload is due.
pub(crate) fn wrong_with(
    verdict: Option<Wrong>,
    found: &Found,
    beat: &DBeat,
    due: u64,
    lanes: u8,
) -> Option<Wrong>
    ensures { result ≡ wrong_with verdict found.now beat.now due lanes }
{
    if !is_right_as_known(&verdict) {
        return verdict;
    }
    wrong_payload(verdict, found, beat, due, lanes)
}

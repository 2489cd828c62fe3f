//! The beats of replies where requests take effect in order of acceptance: what nobody knows isn't compared.
ghost use Rattle.std.specs.Prelude.{◌≡◌, ◌<◌, ◌-◌, ℕ, Some, not, true};
ghost use Rattle.bus_words.specs.Lanes.{has_lane};
ghost use Rattle.bus_words.specs.Tables.{first_broken};
ghost use Rattle.tl_messages.specs.Operations.{beats_of};
ghost use Rattle.scoreboard.specs.Boards.{reply_rules, unless_indeterminate, wrong_by};
ghost use Rattle.scoreboard.specs.InTurn.{agrees_where_known, differs_known, is_unknown_in};
ghost use Rattle.scoreboard.specs.InsideBoards.{footprint_of};

use crate::footprint::Footprint;
use crate::in_flight::{beat_number, difference, is_payload};
use crate::{ReplyRule, Wrong};
use bus_words::{has_lane, lane_byte};
use tl_messages::DBeat;

/// The lanes of beat `k` of a reply of which it isn't known what is due there, bit i for lane i.
pub(crate) fn unknown_lanes(footprint: &Footprint, k: u16, due: &DBeat) -> u8
    ensures { (lane : ℕ) → lane < 8 → has_lane result lane ≡ is_unknown_in (footprint_of footprint.now) k due.now lane }
{
    if !footprint.reads() || due.opcode != 1 || due.corrupt {
        return 0;
    }
    let number = u32::from(k);
    if number >= footprint.words() {
        return 0;
    }
    let word = footprint.word_at(number);
    footprint.lanes_in(word) & !footprint.determined_in(word)
}

/// Whether two payloads differ in a lane of which it is known what is due there.
fn differs_known(unknown: u8, due: u64, payload: u64, lane: u8) -> bool
    requires { lane < 8 }
    ensures { result ≡ differs_known (has_lane unknown) due payload lane }
{
    !has_lane(unknown, lane) && lane_byte(due, lane) != lane_byte(payload, lane)
}

/// Whether some lane of a beat isn't known, by these lanes, and another beat tells what is due in all others.
fn agrees_where_known(unknown: u8, due: &DBeat, beat: &DBeat) -> bool
    ensures { result ≡ agrees_where_known (record { beat = due.now; unknown = has_lane unknown }) beat.now }
{
    if unknown == 0 {
        return false;
    }
    for lane in 0..8u8 {
        if differs_known(unknown, due.payload, beat.payload, lane) {
            return false;
        }
    }
    true
}

/// Whether a beat, as beat `k` of a reply, doesn't only tell something else of what isn't known.
fn differs_where_known(footprint: &Footprint, k: u16, due: &DBeat, beat: &DBeat) -> bool
    ensures { result ≡ not (agrees_where_known (record { beat = due.now; unknown = is_unknown_in (footprint_of footprint.now) k due.now }) beat.now) }
{
    let unknown = unknown_lanes(footprint, k, due);
    !agrees_where_known(unknown, due, beat)
}

/// What is wrong with a beat where another is due of the reply to a request with this footprint, of which so many are left, and requests
/// take effect in order of acceptance.
#[inline(always)]
pub(crate) fn wrong_in_turn(
    footprint: &Footprint,
    left: u16,
    due: &DBeat,
    beat: &DBeat,
) -> Option<Wrong>
    ensures { result ≡ wrong_by due.now
        (unless_indeterminate (not (agrees_where_known (record { beat = due.now; unknown = is_unknown_in (footprint_of footprint.now) (beats_of footprint.now.size true - left) due.now }) beat.now))
        (first_broken (reply_rules due.now beat.now))) }
{
    let rule = difference(due, beat)?;
    wrong_by_rule(rule, footprint, left, due, beat)
}

/// The same where the beat differs from the one that is due, by this rule. It is apart, since nearly all beats are right.
#[inline(never)]
fn wrong_by_rule(
    rule: ReplyRule,
    footprint: &Footprint,
    left: u16,
    due: &DBeat,
    beat: &DBeat,
) -> Option<Wrong>
    requires { first_broken (reply_rules due.now beat.now) ≡ Some rule }
    ensures { result ≡ wrong_by due.now
        (unless_indeterminate (not (agrees_where_known (record { beat = due.now; unknown = is_unknown_in (footprint_of footprint.now) (beats_of footprint.now.size true - left) due.now }) beat.now))
        (first_broken (reply_rules due.now beat.now))) }
{
    let number = beat_number(footprint, left);
    if is_payload(rule) && !differs_where_known(footprint, number, due, beat) {
        return None;
    }
    Some(Wrong::Reply(rule, Some(*due)))
}

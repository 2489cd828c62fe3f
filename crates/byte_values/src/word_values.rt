//! The list of one word.
ghost use Rattle.std.specs.Prelude.{◌≡◌, ◌<◌, ◌&&◌, ℕ, IfSome, [], ◌∷◌, true, not, if◌then◌else◌, length, nat_lt};
ghost use Rattle.bus_words.specs.Lanes.{has_lane, lane_byte};
ghost use Rattle.byte_orders.specs.Exact.{AnswersAsWhole};
ghost use Rattle.byte_orders.specs.Holdings.{beginning, crowd, is_compared, may_be_told, pruned_at, with_begun, with_settled};
ghost use Rattle.byte_orders.specs.Keeping.{IsRightlyBlamed};
ghost use Rattle.byte_orders.specs.Runs.{IsBlamedInRuns};
ghost use Rattle.byte_values.specs.Words.{begun_word, changed_in, changed_word, compared_lanes, known_byte, lane_list, lost_word, new_word, pruned_word, seen_word, settled_bytes, settled_word, wrong_lanes};

use crate::change::Change;
use crate::held::{
    change_each, close_each, join_all, keep_given, keep_if_given, part_each, seen_by, seen_lanes,
    settling_lanes, told_lanes, unknown_lanes,
};
use crate::holding::WordHolding;
use crate::known::{KnownBytes, SettledBytes};
use crate::lanes::without;
use arrayvec::ArrayVec;
use std::marker::Model;

/// How many holdings of writers a word has at most.
const MOST: usize = 12;

/// Which values the bytes of one word may have: what it was, or has settled as, and of each writer that still counts what it gives, in order
/// of their beginnings, at most twelve. A thirteenth makes all of them one that stands for whichever value. A request is named by its number:
/// how many had begun as it began, itself counted.
#[derive(Drop)]
pub struct WordValues {
    settled: SettledBytes,
    held: ArrayVec<WordHolding, 12>,
}

impl Model for WordValues {
    ghost use Rattle.byte_values.specs.Words.{WordList};

    ghost Value = { WordList };

    ghost view = { λ v. record { settled = v.settled; held = v.held.items } };
}

impl WordValues {
    /// The list of a word that nothing was given to, or that has settled: what it is, as far as that is known.
    pub fn new(known: KnownBytes) -> Self
        ensures word { result ≡ new_word known }
        ensures lanes { (lane : ℕ) → lane < 8 → lane_list lane result ≡ beginning (known_byte lane known) ∷ [] }
    {
        WordValues {
            settled: SettledBytes {
                value: known.value,
                known: known.lanes,
                lanes: 255,
            },
            held: ArrayVec::new(),
        }
    }

    /// The list of a word whose bytes, where they aren't known, may be what a writer gave that found no place, of those that began no later
    /// than `lost`: there any value is allowed until all of them have ended.
    pub fn with_lost(known: KnownBytes, lost: u64) -> Self
        ensures word { result ≡ lost_word known lost }
        ensures lanes { (lane : ℕ) → lane < 8 → lane_list lane result ≡ (if has_lane known.lanes lane then beginning (known_byte lane known) else crowd lost) ∷ [] }
    {
        let mut held = ArrayVec::new();
        keep_if_given(
            &mut held,
            WordHolding::crowd(lost, without(255, known.lanes)),
        );
        WordValues {
            settled: SettledBytes {
                value: known.value,
                known: known.lanes,
                lanes: known.lanes,
            },
            held,
        }
    }

    /// Whether there is no room for one more writer.
    #[inline]
    pub fn is_full(&self) -> bool
        ensures { result ≡ not (nat_lt (length self.now.held) 12) }
    {
        self.held.len() >= MOST
    }

    /// A request begins that may give these lanes, bit k for lane k: nobody knows yet what, nor whether it takes effect. Where twelve are
    /// held already, they and it become one that allows any value in each lane, and is over once all that have begun have ended.
    pub fn begin(&mut self, number: u64, lanes: u8)
        ensures word { self.new ≡ begun_word number lanes self.old }
        ensures lanes { (lane : ℕ) → lane < 8 → lane_list lane self.new
            ≡ (if nat_lt (length self.old.held) 12
            then (if has_lane lanes lane then with_begun number (lane_list lane self.old) else lane_list lane self.old)
            else crowd number ∷ []) }
    {
        if self.held.len() < MOST {
            self.held.push(WordHolding::just_begun(number, lanes));
        } else {
            self.held.clear();
            self.held.push(WordHolding::crowd(number, 255));
            self.settled = SettledBytes {
                value: 0,
                known: 0,
                lanes: 0,
            };
        }
    }

    /// What becomes of a request that has begun, or of all of them at a reset.
    pub fn apply(&mut self, change: Change)
        ensures word { self.new ≡ changed_word change self.old }
        ensures lanes { (lane : ℕ) → lane < 8 → lane_list lane self.new ≡ changed_in lane change (lane_list lane self.old) }
    {
        change_each(self.held.as_mut_slice(), change);
        keep_given(&mut self.held);
    }

    /// Forgets what can't be told any more, by the number of the oldest request in flight, when so many have begun; what stands for many is
    /// over if none of them is in flight; and a lane that only one is left of, which is over, has settled. No answer to that request
    /// changes, or to a later one.
    pub fn prune(&mut self, oldest: u64, now: u64)
        ensures word { self.new ≡ pruned_word oldest now self.old }
        ensures lanes { (lane : ℕ) → lane < 8 → lane_list lane self.new ≡ with_settled (pruned_at oldest now (lane_list lane self.old)) }
    {
        close_each(self.held.as_mut_slice(), oldest, now);
        self.keep_seen(oldest);
        self.settle();
    }

    /// Each in the lanes that aren't hidden from a reader that began at a number; without those of which none is left.
    fn keep_seen(&mut self, oldest: u64)
        ensures { self.new ≡ seen_word oldest self.old }
    {
        let held = self.held.as_slice();
        let seen = seen_lanes(held, oldest, &WordHolding::beginning(self.settled));
        self.held = seen_by(held, oldest);
        self.settled.lanes = seen;
    }

    /// The lanes settle that only one is left of, which is over.
    fn settle(&mut self)
        ensures { self.new ≡ settled_word self.old }
    {
        let lanes = settling_lanes(self.settled.lanes, self.held.as_slice());
        self.settled = join_all(self.settled, self.held.as_slice(), lanes);
        part_each(self.held.as_mut_slice(), lanes);
        keep_given(&mut self.held);
    }

    /// Of some lanes those in which the byte of a payload may not be told to the request that began at a number. For such a byte no order
    /// in which the requests may have taken effect explains it, with all that was told before. A list in which there always was
    /// room answers as if nothing had been forgotten.
    pub fn wrong_lanes(&self, number: u64, payload: u64, lanes: u8) -> u8
        ensures word { result ≡ wrong_lanes self.now number payload lanes }
        ensures told { (lane : ℕ) → lane < 8 → has_lane result lane ≡ (has_lane lanes lane && not (may_be_told (lane_list lane self.now) number (lane_byte payload lane))) }
        ensures rightly { (lane : ℕ) → lane < 8 → has_lane result lane ≡ true → IsRightlyBlamed (lane_list lane self.now) number (lane_byte payload lane) }
        ensures runs { (lane : ℕ) → lane < 8 → has_lane result lane ≡ true → IsBlamedInRuns (lane_list lane self.now) number (lane_byte payload lane) }
        ensures whole { (lane : ℕ) → lane < 8 → AnswersAsWhole (lane_list lane self.now) number (lane_byte payload lane) }
    {
        let told = told_lanes(self.settled, self.held.as_slice(), number, payload);
        without(lanes, told)
    }

    /// Of some lanes those in which that says something: all values that the request may be told there are known.
    pub fn compared_lanes(&self, number: u64, lanes: u8) -> u8
        ensures word { result ≡ compared_lanes self.now number lanes }
        ensures lanes { (lane : ℕ) → lane < 8 → has_lane result lane ≡ (has_lane lanes lane && is_compared (lane_list lane self.now) number) }
    {
        let unknown = unknown_lanes(self.settled, self.held.as_slice(), number);
        without(lanes, unknown)
    }

    /// What the word has settled as, if no writer counts any more: its list may begin anew with it.
    pub fn settled(&self) -> Option<KnownBytes>
        ensures word { result ≡ settled_bytes self.now }
        ensures lanes { IfSome result (λ known. (lane : ℕ) → lane < 8 → lane_list lane self.now ≡ beginning (known_byte lane known) ∷ []) }
    {
        if self.held.len() != 0 || self.settled.lanes != 255 {
            return None;
        }
        Some(KnownBytes {
            value: self.settled.value,
            lanes: self.settled.known,
        })
    }
}

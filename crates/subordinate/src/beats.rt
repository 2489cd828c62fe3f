//! What became of the beats of an open burst.
ghost use Rattle.std.specs.Prelude.{◌≡◌, ◌==◌, ◌+◌, ◌<◌, ◌≤◌, if◌then◌else◌, false, [], Some, IfOk, length, not, replicate, slice_get, slice_set};
ghost use Rattle.std.specs.List.{list_any};
ghost use Rattle.subordinate.specs.FreeMemory.{is_waiting};
ghost use Rattle.subordinate.specs.Inside.{count_waiting, waiting_places};
ghost use Rattle.subordinate.specs.declared.BeatState.TheVariants.{Waiting};

use crate::BeatState;
use axi_beats::MAX_TRANSFERS;
use std::alloc::{AllocError, Global};
use std::marker::Model;

/// The states of a burst's beats, in order, at most 256. All its room is taken by `new`.
#[derive(Drop)]
pub(crate) struct Beats {
    states: Vec<BeatState>,
    waiting: u16,
    /// No beat before this one waits: beats that are performed in order are found without a search.
    first: u16,
}

impl Model for Beats {
    ghost use Rattle.std.specs.Prelude.{List, ◌≡◌, ◌≤◌, length, take};
    ghost use Rattle.std.specs.List.{AllByRecursion};
    ghost use Rattle.std.specs.Vec.{vec_capacity, vec_len};
    ghost use Rattle.subordinate.specs.Inside.{count_waiting};
    ghost use Rattle.subordinate.specs.Laws.{IsPerformed};
    ghost use Rattle.subordinate.specs.declared.BeatState.{BeatState};

    ghost Value = { List BeatState };

    ghost view = { λ b. b.states.items };

    ghost invariant = { λ b. (256 ≤ vec_capacity b.states) × (vec_len b.states ≤ 256) × (b.waiting ≡ count_waiting b.states.items)
        × (b.first ≤ length b.states.items) × AllByRecursion IsPerformed (take b.first b.states.items) };
}

fn is_waiting(state: BeatState) -> bool
    ensures { result ≡ is_waiting state }
{
    matches!(state, BeatState::Waiting)
}

/// Where no earlier beat waits, once a beat is performed.
fn past(first: u16, beat: u16) -> u16
    requires { first ≤ 256 }
    ensures { result ≡ (if beat == first then first + 1 else first) }
{
    if beat == first { first + 1 } else { first }
}

impl Beats {
    /// No beats, with the room for those of any burst.
    pub(crate) fn new(alloc: Global) -> Result<Self, AllocError>
        ensures { IfOk result (λ beats. beats ≡ []) }
    {
        let states = Vec::with_capacity(alloc, MAX_TRANSFERS)?;
        Ok(Beats {
            states,
            waiting: 0,
            first: 0,
        })
    }

    /// Becomes so many beats of which none is performed.
    pub(crate) fn restart(&mut self, transfers: u16)
        requires { transfers ≤ 256 }
        ensures { self.new ≡ replicate transfers Waiting }
    {
        self.states.clear();
        self.states
            .resize(usize::from(transfers), BeatState::Waiting)
            .unwrap();
        self.waiting = transfers;
        self.first = 0;
    }

    /// The state of a beat, from 0; none where there is no such beat.
    pub(crate) fn at(&self, beat: u16) -> Option<BeatState>
        ensures { result ≡ slice_get self.now beat }
    {
        self.states.get(usize::from(beat)).copied()
    }

    /// Puts down what became of a beat that was waiting.
    pub(crate) fn put(&mut self, beat: u16, state: BeatState)
        requires waits { slice_get self.old beat ≡ Some Waiting }
        requires performed { is_waiting state ≡ false }
        ensures { self.new ≡ slice_set self.old beat state }
    {
        self.states[usize::from(beat)] = state;
        self.waiting -= 1;
        self.first = past(self.first, beat);
    }

    /// How many beats there are.
    pub(crate) fn len(&self) -> u16
        ensures len { result ≡ length self.now }
        ensures most { result ≤ 256 }
    {
        self.states.len() as u16
    }

    /// How many beats aren't performed.
    pub(crate) fn waiting(&self) -> u16
        ensures count { result ≡ count_waiting self.now }
        ensures some { result ≤ length self.now }
        ensures most { result ≤ 256 }
    {
        self.waiting
    }

    /// Whether all beats are performed.
    pub(crate) fn all_performed(&self) -> bool
        ensures { result ≡ not (list_any is_waiting self.now) }
    {
        self.waiting == 0
    }

    /// The place of a beat that isn't performed, counted among these from 0.
    pub(crate) fn nth_waiting(&self, k: u16) -> u16
        requires { k < count_waiting self.now }
        ensures { slice_get (waiting_places 0 self.now) k ≡ Some result }
    {
        let mut left = k;
        for beat in self.first..self.states.len() as u16 {
            if is_waiting(self.states[usize::from(beat)]) {
                if left == 0 {
                    return beat;
                }
                left -= 1;
            }
        }
        unreachable!()
    }
}

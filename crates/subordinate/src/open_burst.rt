//! A burst that is open: sent, and not answered whole.
ghost use Rattle.std.specs.Prelude.{◌≡◌, ◌+◌, ◌<◌, ◌≤◌, false, IsSome, Some, is_some, length, not, slice_get, take};
ghost use Rattle.std.specs.List.{AllByRecursion, list_any};
ghost use Rattle.subordinate.specs.FreeMemory.{answers_left, beat_at, gives_last, is_waiting, newly_pending, performed_waiting_in, start_of, transfers_in, with_beat};
ghost use Rattle.subordinate.specs.Inside.{burst_in, captured_at, count_waiting, waiting_places, with_answer};
ghost use Rattle.subordinate.specs.Bursts.{is_decided_by, is_ready};
ghost use Rattle.subordinate.specs.Laws.{IsPerformed, queue_of, queue_of_burst};
ghost use Rattle.subordinate.specs.declared.BeatState.TheVariants.{Waiting};

use crate::BeatState;
use crate::beats::Beats;
use axi_beats::{BurstBox, Resp};
use std::marker::Model;

/// A burst with its serial, the states of its beats, and how many of its R beats came.
#[derive(Drop)]
pub(crate) struct OpenBurst {
    serial: u64,
    burst: BurstBox,
    beats: Beats,
    answered: u16,
}

impl Model for OpenBurst {
    ghost use Rattle.std.specs.Prelude.{IsSome};
    ghost use Rattle.subordinate.specs.FreeMemory.{Pending};
    ghost use Rattle.subordinate.specs.Inside.{pending_of};

    ghost Value = { Pending };

    ghost view = { λ o. pending_of o.serial o.burst o.beats o.answered };

    ghost invariant = { λ o. IsSome o.burst };
}

/// How many transfers a box's burst has.
fn transfers(burst: &BurstBox) -> u16
    requires { IsSome burst.now }
    ensures count { result ≡ transfers_in (burst_in burst.now) }
    ensures most { result ≤ 256 }
{
    if burst.is_write() {
        u16::from(burst.aw().len) + 1
    } else {
        u16::from(burst.ar().len) + 1
    }
}

/// The queue of a box's burst: the writes of an ID `i` are queue `2 * i`, its reads queue `2 * i + 1`.
pub(crate) fn queue_of(burst: &BurstBox) -> usize
    requires { IsSome burst.now }
    ensures { result ≡ queue_of_burst (burst_in burst.now) }
{
    if burst.is_write() {
        2 * usize::from(burst.aw().id)
    } else {
        2 * usize::from(burst.ar().id) + 1
    }
}

impl OpenBurst {
    /// A burst just sent, of which nothing is performed; the beats are used again.
    pub(crate) fn new(serial: u64, burst: BurstBox, mut beats: Beats) -> Self
        requires { IsSome burst }
        ensures { result ≡ newly_pending serial (burst_in burst) }
    {
        beats.restart(transfers(&burst));
        OpenBurst {
            serial,
            burst,
            beats,
            answered: 0,
        }
    }

    /// Its box, and its beats to be used again.
    pub(crate) fn into_parts(self) -> (BurstBox, Beats)
        ensures { result.0 ≡ Some self.burst }
    {
        (self.burst, self.beats)
    }

    pub(crate) fn serial(&self) -> u64
        ensures { result ≡ self.now.serial }
    {
        self.serial
    }

    pub(crate) fn burst(&self) -> &BurstBox
        ensures { result.now ≡ Some self.now.burst }
    {
        &self.burst
    }

    /// Its queue, by its ID and side.
    pub(crate) fn queue(&self) -> usize
        ensures { result ≡ queue_of self.now }
    {
        queue_of(&self.burst)
    }

    /// The first address.
    pub(crate) fn start(&self) -> u32
        ensures { result ≡ start_of self.now.burst }
    {
        if self.burst.is_write() {
            self.burst.aw().address
        } else {
            self.burst.ar().address
        }
    }

    /// The state of a beat, from 0; none where there is no such beat.
    pub(crate) fn beat_at(&self, beat: u16) -> Option<BeatState>
        ensures { result ≡ beat_at self.now beat }
    {
        self.beats.at(beat)
    }

    /// Puts down what became of a beat that was waiting.
    pub(crate) fn put(&mut self, beat: u16, state: BeatState)
        requires waits { beat_at self.old beat ≡ Some Waiting }
        requires performed { is_waiting state ≡ false }
        ensures { self.new ≡ with_beat beat state self.old }
    {
        self.beats.put(beat, state);
    }

    /// How many beats aren't performed.
    pub(crate) fn waiting(&self) -> u16
        ensures count { result ≡ count_waiting self.now.beats }
        ensures most { result ≤ 256 }
    {
        self.beats.waiting()
    }

    /// Whether all beats are performed.
    pub(crate) fn all_performed(&self) -> bool
        ensures { result ≡ not (list_any is_waiting self.now.beats) }
    {
        self.beats.all_performed()
    }

    /// The place of a beat that isn't performed, counted among these from 0.
    pub(crate) fn nth_waiting(&self, k: u16) -> u16
        requires { k < count_waiting self.now.beats }
        ensures { slice_get (waiting_places 0 self.now.beats) k ≡ Some result }
    {
        self.beats.nth_waiting(k)
    }

    /// How many performed beats wait for their R, or for the burst's B. The beats that were answered are performed.
    pub(crate) fn performed_waiting(&self) -> u16
        requires answered { AllByRecursion IsPerformed (take self.now.answered self.now.beats) }
        requires most { self.now.answered ≤ length self.now.beats }
        ensures count { result ≡ performed_waiting_in self.now }
        ensures most { result ≤ 256 }
    {
        self.beats.len() - self.beats.waiting() - self.answered
    }

    /// How many answers are to come: the B of a write, or an R for each beat of a read that has none.
    pub(crate) fn answers_left(&self) -> u16
        ensures count { result ≡ answers_left self.now.answered self.now.burst }
        ensures most { result ≤ 256 }
    {
        if self.burst.is_write() {
            1
        } else {
            transfers(&self.burst).saturating_sub(self.answered)
        }
    }

    /// What the next R beat of a read captured, where that beat is performed.
    pub(crate) fn captured(&self) -> Option<(u64, Resp)>
        ensures { result ≡ captured_at (beat_at self.now self.now.answered) }
    {
        match self.beats.at(self.answered) {
            Some(BeatState::Captured(payload, resp)) => Some((payload, resp)),
            _ => None,
        }
    }

    /// Whether it may be answered, were it the oldest of its queue: a write by its B, a read by its next R.
    pub(crate) fn is_ready(&self) -> bool
        ensures { result ≡ is_ready self.now }
    {
        if self.burst.is_write() {
            self.all_performed()
        } else {
            self.captured().is_some()
        }
    }

    /// Whether a beat, just performed, may be what it waited for: the last of a write, or the next of a read.
    pub(crate) fn is_decided_by(&self, beat: u16) -> bool
        ensures { result ≡ is_decided_by beat self.now }
    {
        if self.burst.is_write() {
            self.beats.all_performed()
        } else {
            self.answered == beat
        }
    }

    /// Whether the next R beat is the last.
    pub(crate) fn gives_last(&self) -> bool
        ensures { result ≡ gives_last self.now }
    {
        u32::from(self.answered) + 1 == u32::from(transfers(&self.burst))
    }

    /// Counts an R beat of a read, and answers whether the next may come.
    pub(crate) fn count_answer(&mut self) -> bool
        requires { self.old.answered < length self.old.beats }
        ensures state { self.new ≡ with_answer self.old }
        ensures next { result ≡ is_some (captured_at (beat_at self.new self.new.answered)) }
    {
        let len = self.beats.len();
        prove!(self.answered < len);
        self.answered += 1;
        self.captured().is_some()
    }
}

//! What one writer gives to a word, or many.
ghost use Rattle.std.specs.Prelude.{◌≡◌, Some, if◌then◌else◌, is_some};
ghost use Rattle.byte_orders.specs.Accesses.{is_before};
ghost use Rattle.byte_orders.specs.Holdings.{is_open_of, is_own};
ghost use Rattle.byte_values.specs.Parts.{hiding_by, showing_lanes};
ghost use Rattle.byte_values.specs.Words.{beginning_of, changed_by, closed_by, crowd_of, cut_off_word, gives_lanes, just_begun_of, parted, times_of, with_lanes};

use crate::change::Change;
use crate::known::SettledBytes;
use crate::lanes::{same_bytes, without};
use std::marker::Model;
use std::mem::size_of;

const _: () = prove!(size_of::<WordHolding>() == 32);

/// What one writer gives to the lanes of a word, or many, in 32 bytes. Times are how many requests have begun.
#[derive(Clone, Copy, Default)]
pub(crate) struct WordHolding {
    /// The bytes that it gives; it says nothing in a lane that isn't known.
    value: u64,
    /// When it began; of many, when the last of them had.
    begun: u64,
    /// When it was over, if it is; else zero.
    over: u64,
    /// The lanes of which it's known what it gives.
    known: u8,
    /// The lanes to which it may give something.
    lanes: u8,
    is_over: bool,
    /// Whether it takes effect.
    sure: bool,
    /// Whether it stands for many writers.
    many: bool,
}

impl Model for WordHolding {
    ghost use Rattle.std.specs.Prelude.{◌≡◌, None, Some, false, if◌then◌else◌, is_some, unwrap_or};
    ghost use Rattle.byte_values.specs.Words.{WordHolding};

    ghost Value = { WordHolding };

    ghost view = { λ h. record { value = h.value; known = h.known; lanes = h.lanes; begun = h.begun; over = if h.is_over then Some h.over else None; sure = h.sure; many = h.many } };

    ghost invariant = { λ h. h.is_over ≡ false → h.over ≡ 0 };

    ghost inverse = { λ h. record { value = h.value; begun = h.begun; over = unwrap_or h.over 0; known = h.known; lanes = h.lanes; is_over = is_some h.over; sure = h.sure; many = h.many } };
}

impl WordHolding {
    /// What has settled, as of a writer that had ended before all others began.
    #[inline]
    pub(crate) fn beginning(settled: SettledBytes) -> Self
        ensures { result ≡ beginning_of settled }
    {
        WordHolding {
            value: settled.value,
            begun: 0,
            over: 0,
            known: settled.known,
            lanes: settled.lanes,
            is_over: true,
            sure: true,
            many: false,
        }
    }

    /// That of a writer that begins at a number, which may give these lanes.
    #[inline]
    pub(crate) fn just_begun(number: u64, lanes: u8) -> Self
        ensures { result ≡ just_begun_of number lanes }
    {
        WordHolding {
            value: 0,
            begun: number,
            over: 0,
            known: 0,
            lanes,
            is_over: false,
            sure: false,
            many: false,
        }
    }

    /// One for all writers of these lanes, of whom the last began at a number.
    pub(crate) fn crowd(number: u64, lanes: u8) -> Self
        ensures { result ≡ crowd_of number lanes }
    {
        WordHolding {
            many: true,
            ..WordHolding::just_begun(number, lanes)
        }
    }

    /// What it gives, in the lanes that are known.
    pub(crate) fn value(&self) -> u64
        ensures { result ≡ self.now.value }
    {
        self.value
    }

    /// The lanes of which it's known what it gives.
    pub(crate) fn known(&self) -> u8
        ensures { result ≡ self.now.known }
    {
        self.known
    }

    /// The lanes to which it may give something.
    pub(crate) fn lanes(&self) -> u8
        ensures { result ≡ self.now.lanes }
    {
        self.lanes
    }

    /// Whether it gives a lane at all.
    #[inline]
    pub(crate) fn gives_lanes(&self) -> bool
        ensures { result ≡ gives_lanes self.now }
    {
        self.lanes != 0
    }

    /// Its lanes, if it is over.
    pub(crate) fn lanes_if_over(&self) -> u8
        ensures { result ≡ (if is_some self.now.over then self.now.lanes else 0) }
    {
        if self.is_over { self.lanes } else { 0 }
    }

    /// Whether it was over before a time.
    #[inline]
    fn was_over(&self, time: u64) -> bool
        ensures { result ≡ is_before self.now.over time }
    {
        self.is_over && self.over < time
    }

    /// Whether it is that of the request that began at a number.
    #[inline]
    pub(crate) fn is_own(&self, number: u64) -> bool
        ensures { result ≡ is_own number (times_of self.now) }
    {
        !self.many && self.begun == number
    }

    /// Whether it is, and that hasn't ended.
    #[inline]
    fn is_open_of(&self, number: u64) -> bool
        ensures { result ≡ is_open_of number (times_of self.now) }
    {
        self.is_own(number) && !self.is_over
    }

    /// The lanes in which another comes wholly between it and a reader that began at a number.
    #[inline]
    pub(crate) fn hiding_by(&self, reader: u64, other: &WordHolding) -> u8
        ensures { result ≡ hiding_by reader self.now other.now }
    {
        if self.was_over(other.begun) && other.sure && other.was_over(reader) {
            other.lanes
        } else {
            0
        }
    }

    /// The lanes in which it may be told as the bytes of a payload: it has those there, or nobody knows what.
    pub(crate) fn showing_lanes(&self, payload: u64) -> u8
        ensures { result ≡ showing_lanes self.now payload }
    {
        same_bytes(self.value, payload) | !self.known
    }

    /// The same with these lanes.
    #[inline]
    pub(crate) fn with_lanes(self, lanes: u8) -> Self
        ensures { result ≡ with_lanes lanes self }
    {
        WordHolding { lanes, ..self }
    }

    /// The same without these lanes.
    #[inline]
    pub(crate) fn parted(self, lanes: u8) -> Self
        ensures { result ≡ parted lanes self }
    {
        self.with_lanes(without(self.lanes, lanes))
    }

    /// As it is over when so many requests have begun.
    fn ended(self, now: u64) -> Self
        ensures { result ≡ record self { over = Some now } }
    {
        WordHolding {
            over: now,
            is_over: true,
            ..self
        }
    }

    /// As it is over then, and may never have taken effect, if it wasn't.
    fn cut_off(self, now: u64) -> Self
        ensures { result ≡ cut_off_word now self }
    {
        if self.is_over {
            return self;
        }
        WordHolding {
            sure: false,
            ..self.ended(now)
        }
    }

    /// As it is over then, if it stands for many, and all of them began before a number.
    pub(crate) fn closed(self, oldest: u64, now: u64) -> Self
        ensures { result ≡ closed_by oldest now self }
    {
        if self.many && !self.is_over && self.begun < oldest {
            self.ended(now)
        } else {
            self
        }
    }

    /// As a change leaves it.
    pub(crate) fn changed(self, change: Change) -> Self
        ensures { result ≡ changed_by change self }
    {
        match change {
            Change::Gives {
                number,
                lanes,
                known,
            } if self.is_open_of(number) => WordHolding {
                value: known.value,
                known: known.lanes,
                lanes: self.lanes & lanes,
                ..self
            },
            Change::Sure(number) if self.is_open_of(number) => WordHolding { sure: true, ..self },
            Change::Fails(number) if self.is_open_of(number) => WordHolding {
                known: 0,
                sure: false,
                ..self
            },
            Change::Ends(number, now) if self.is_open_of(number) => self.ended(now),
            Change::Resets(now) => self.cut_off(now),
            _ => self,
        }
    }
}

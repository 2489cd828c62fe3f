//! The bytes of a word, as far as they are known.
ghost use Rattle.std.specs.Prelude.{◌≡◌};
ghost use Rattle.byte_values.specs.Words.{joined};

use crate::holding::WordHolding;
use crate::lanes::without;
use data_unit::merge;

/// The bytes of a word, of which some lanes are known.
#[derive(Clone, Copy, Debug, PartialEq, Eq)]
pub struct KnownBytes {
    /// The bytes; it says nothing in a lane that isn't known.
    pub value: u64,
    /// The lanes that are known, bit k for lane k.
    pub lanes: u8,
}

/// What a word was, or has settled as, in some of its lanes.
#[derive(Clone, Copy)]
pub(crate) struct SettledBytes {
    /// The bytes; it says nothing in a lane that isn't known.
    pub(crate) value: u64,
    /// The lanes of which it's known.
    pub(crate) known: u8,
    /// The lanes of which it may still be told.
    pub(crate) lanes: u8,
}

impl SettledBytes {
    /// With the bytes that a holding gives to some lanes.
    pub(crate) fn joined(self, lanes: u8, holding: &WordHolding) -> Self
        ensures { result ≡ joined lanes self holding.now }
    {
        let taken = holding.lanes() & lanes;
        SettledBytes {
            value: merge(self.value, holding.value(), taken),
            known: without(self.known, taken) | (holding.known() & taken),
            lanes: self.lanes | taken,
        }
    }
}

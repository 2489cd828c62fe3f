//! The IDs that may give an answer, as the bits of words.
ghost use Rattle.std.specs.Prelude.{◌≡◌, ◌≢◌, ℕ, ◌<◌, false, find};
ghost use Rattle.std.specs.List.{range_with_len};
ghost use Rattle.subordinate.specs.Bursts.{has_id, is_marked};

/// The IDs that may give a B, and those that may give an R: bit `id` is for that ID.
#[derive(Clone, Copy)]
pub(crate) struct Answers {
    pub(crate) b: u16,
    pub(crate) r: u16,
}

impl Answers {
    /// No ID may give any.
    pub(crate) fn new() -> Self
        ensures { (queue : ℕ) → is_marked result queue ≡ false }
    {
        Answers { b: 0, r: 0 }
    }

    /// Marks whether a queue may answer: that of the writes of an ID `i` is `2 * i`, that of its reads `2 * i + 1`.
    pub(crate) fn with(self, queue: usize, ready: bool) -> Self
        requires { queue < 32 }
        ensures here { is_marked result queue ≡ ready }
        ensures others { (other : ℕ) → other < 32 → other ≢ queue → is_marked result other ≡ is_marked self other }
    {
        if queue.is_multiple_of(2) {
            Answers {
                b: with_id(self.b, queue / 2, ready),
                r: self.r,
            }
        } else {
            Answers {
                b: self.b,
                r: with_id(self.r, queue / 2, ready),
            }
        }
    }
}

/// A set of IDs with this one, or without it.
fn with_id(ids: u16, id: usize, has: bool) -> u16
    requires { id < 16 }
    ensures here { has_id result id ≡ has }
    ensures others { (other : ℕ) → other < 16 → other ≢ id → has_id result other ≡ has_id ids other }
{
    if has {
        ids | (1 << id)
    } else {
        ids & !(1 << id)
    }
}

/// Whether a set of IDs has this one.
pub(crate) fn has_id(ids: u16, id: u8) -> bool
    ensures { result ≡ has_id ids id }
{
    id < 16 && (ids >> id) & 1 == 1
}

/// The smallest ID of a set.
pub(crate) fn first_id(ids: u16) -> Option<u8>
    ensures { result ≡ find (has_id ids) (range_with_len 0 16) }
{
    if ids == 0 {
        return None;
    }
    Some(ids.trailing_zeros() as u8)
}

//! What of each live request tells whom it holds back, by slot.
ghost use Rattle.std.specs.Prelude.{◌≡◌, ◌↔◌, ◌==◌, ◌<◌, ℕ, Option, IsSome, IsTrue, length, map, slice_index_or, true, false};
ghost use Rattle.burst_plan.specs.Pieces.{PlannedRange};
ghost use Rattle.flight_table.specs.Order.{HaveCommonAddress};
ghost use Rattle.flight_table.specs.Spans.{IsSpanOf, counted_in, joined_in, lowered_in, spans_conflict, spans_meet};
ghost use Rattle.flight_table.specs.Tables.{request_in};

use crate::marks::Marks;
use crate::slots::Slots;

/// A live request's range of AXI addresses from `start` to before `end`, which is empty where it sends nothing, and whether it
/// is a Get.
#[derive(Clone, Copy)]
pub(crate) struct Span {
    pub(crate) start: u64,
    pub(crate) end: u64,
    pub(crate) get: bool,
}

impl Span {
    /// Whether the two ranges share a byte: each begins before the other ends.
    fn meets(&self, other: &Span) -> bool
        ensures answer { result ≡ spans_meet self.now other.now }
        ensures address { (a b : Option PlannedRange) → IsSpanOf a self.now → IsSpanOf b other.now → IsTrue result ↔ HaveCommonAddress a b }
    {
        (self.start < other.end) & (other.start < self.end)
    }

    /// Whether the requests conflict: their ranges share a byte, and at least one is no Get.
    fn conflicts(&self, other: &Span) -> bool
        ensures { result ≡ spans_conflict self.now other.now }
    {
        self.meets(other) & !(self.get & other.get)
    }
}

/// How many of the requests at the marked slots conflict with this one, which each of them then holds back: the bit of its slot
/// is set in the set of each.
pub(crate) fn join(
    spans: &[Span],
    request: &Span,
    mut row: Marks,
    held: &mut [u64; 64],
    slot: usize,
) -> u8
    requires spans { length spans.now ≡ 64 }
    requires slots { length row ≡ 64 }
    requires slot { slot < 64 }
    ensures count { result ≡ counted_in row request.now spans.now }
    ensures held { held.new ≡ joined_in row request.now spans.now slot held.old }
{
    let mut count = 0u8;
    while let Some(earlier) = row.take_first() {
        if !spans[earlier].conflicts(request) {
            continue;
        }
        count += 1;
        held[earlier] |= 1u64 << slot;
    }
    count
}

/// Lowers the count of each request at a marked slot, and marks by place those that nobody holds back any more.
pub(crate) fn lower_counts(
    slots: &Slots,
    mut held: Marks,
    holders: &mut [u8; 64],
    unheld: &mut Marks,
)
    requires slots { length held ≡ 64 }
    requires live { (slot : ℕ) → slice_index_or held slot false ≡ true → IsSome (request_in slot slots.now) }
    requires unheld { unheld.old ≡ map (λ entry. slice_index_or holders.old entry.key 0 == 0) slots.now }
    ensures holders { holders.new ≡ lowered_in held holders.old }
    ensures unheld { unheld.new ≡ map (λ entry. slice_index_or holders.new entry.key 0 == 0) slots.now }
{
    while let Some(slot) = held.take_first() {
        let count = holders[slot].saturating_sub(1);
        holders[slot] = count;
        if count != 0 {
            continue;
        }
        unheld.put(slots.place_in(slot), true);
    }
}

//! Marks at places, as the bits of a word.
ghost use Rattle.std.specs.Prelude.{◌≡◌, ◌<◌, ◌≤◌, ◌^◌, Bool, false, List, [], ◌∷◌, ◌++◌, length, None, IfSome, position, slice_set};
ghost use Rattle.std.specs.List.{remove};
ghost use Rattle.flight_table.specs.Marks.{both, marks_of, number_of, without_bit};

use std::marker::Model;

/// So many marks, at most 64: bit `k` is the mark at place `k`.
#[derive(Drop)]
pub(crate) struct Marks {
    count: u32,
    bits: u64,
}

impl Model for Marks {
    ghost use Rattle.std.specs.Prelude.{List, Bool, ◌≤◌, ◌<◌, ◌^◌};
    ghost use Rattle.flight_table.specs.Marks.{marks_of};

    ghost Value = { List Bool };

    ghost view = { λ m. marks_of m.count m.bits };

    ghost invariant = { λ m. (m.count ≤ 64) × (m.bits < 2 ^ m.count) };
}

impl Marks {
    /// No marks.
    pub(crate) fn new() -> Self
        ensures { result ≡ [] }
    {
        Marks { count: 0, bits: 0 }
    }

    /// The marks that the lowest bits of a word are.
    pub(crate) fn of(bits: u64, count: usize) -> Self
        requires few { count ≤ 64 }
        requires fits { bits < 2 ^ count }
        ensures { result ≡ marks_of count bits }
    {
        Marks {
            count: count as u32,
            bits,
        }
    }

    /// One more mark, at the next place.
    pub(crate) fn push(&mut self, mark: bool)
        requires { length self.old < 64 }
        ensures { self.new ≡ self.old ++ mark ∷ [] }
    {
        self.bits += u64::from(mark) << self.count;
        self.count += 1;
    }

    /// Another mark at a place.
    pub(crate) fn put(&mut self, place: usize, mark: bool)
        requires { place < length self.old }
        ensures { self.new ≡ slice_set self.old place mark }
    {
        let was = (self.bits >> place) % 2;
        self.bits = self.bits - (was << place) + (u64::from(mark) << place);
    }

    /// Takes the mark at a place out; the later ones move up.
    pub(crate) fn remove(&mut self, place: usize)
        requires { place < length self.old }
        ensures { self.new ≡ remove self.old place }
    {
        self.bits = without_bit(self.bits, place);
        self.count -= 1;
    }

    /// The first place that is marked.
    pub(crate) fn first(&self) -> Option<usize>
        ensures { result ≡ position (λ mark. mark) self.now }
    {
        first_bit(self.bits)
    }

    /// The first place that is marked, which is unmarked from here on.
    pub(crate) fn take_first(&mut self) -> Option<usize>
        ensures first { result ≡ position (λ mark. mark) self.old }
        ensures rest { IfSome result (λ place. self.new ≡ slice_set self.old place false) }
    {
        let Some(place) = first_bit(self.bits) else {
            return None;
        };
        self.bits &= self.bits - 1;
        Some(place)
    }

    /// The first place that is marked here and there.
    pub(crate) fn first_common(&self, other: &Marks) -> Option<usize>
        requires { length self.now ≡ length other.now }
        ensures { result ≡ position (λ mark. mark) (both self.now other.now) }
    {
        first_bit(self.bits & other.bits)
    }
}

/// A word without the bit at a place; the higher ones move down.
pub(crate) fn without_bit(bits: u64, place: usize) -> u64
    requires { place < 64 }
    ensures { result ≡ without_bit place bits }
{
    let below = (1u64 << place) - 1;
    (bits & below) | ((bits >> 1) & !below)
}

/// The place of the first bit that is set.
fn first_bit(bits: u64) -> Option<usize>
    ensures { (marks : List Bool) → length marks ≤ 64 → bits ≡ number_of marks → result ≡ position (λ mark. mark) marks }
{
    if bits == 0 {
        return None;
    }
    Some(bits.trailing_zeros() as usize)
}

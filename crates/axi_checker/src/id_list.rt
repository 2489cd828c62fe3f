//! The IDs of outstanding bursts, of which each is counted and found fast.
ghost use Rattle.std.specs.Prelude.{◌≡◌, ◌<◌, ◌≤◌, ◌==◌, [], ◌∷◌, ◌++◌, filter, length, position};
ghost use Rattle.std.specs.List.{remove};

use crate::ids::Ids;
use std::marker::Model;

/// The IDs of outstanding bursts, at most 8,192, the oldest first, and beside them how many there are of each.
#[derive(Drop)]
pub(crate) struct IdList<I: Ids> {
    ids: I,
    counts: [u16; 256],
}

impl<I: Ids> Model for IdList<I> {
    ghost use Rattle.std.specs.Prelude.{ℕ, ◌≤◌};
    ghost use Rattle.axi_checker.specs.Monitors.{AreCounts, OpenSide};

    ghost Value = { OpenSide ℕ };

    ghost view = { λ l. I.side l.ids };

    ghost invariant = { λ l. AreCounts l.counts (I.side l.ids).items × ((I.side l.ids).room ≤ 8192) };
}

impl<I: Ids> IdList<I> {
    /// Those of a row without an ID, with room for at most 8,192.
    pub(crate) fn of(ids: I) -> Self
        requires none { (I.side ids).items ≡ [] }
        requires few { (I.side ids).room ≤ 8192 }
        ensures { result ≡ I.side ids }
    {
        IdList {
            ids,
            counts: [0; 256],
        }
    }

    /// How many times an ID stands there.
    pub(crate) fn count(&self, id: u8) -> usize
        ensures { result ≡ length (filter (λ other. other == id) self.now.items) }
    {
        usize::from(self.counts[usize::from(id)])
    }

    /// The place of the oldest with this ID.
    pub(crate) fn first(&self, id: u8) -> Option<usize>
        ensures { result ≡ position (λ other. other == id) self.now.items }
    {
        self.ids.first(id)
    }

    /// Appends an ID, for which there is room.
    pub(crate) fn push(&mut self, id: u8)
        requires { length self.old.items < self.old.room }
        ensures items { self.new.items ≡ self.old.items ++ id ∷ [] }
        ensures room { self.new.room ≡ self.old.room }
    {
        self.ids.push(id);
        self.counts[usize::from(id)] += 1;
    }

    /// Takes out the ID at a place.
    pub(crate) fn remove(&mut self, place: usize)
        requires { place < length self.old.items }
        ensures items { self.new.items ≡ remove self.old.items place }
        ensures room { self.new.room ≡ self.old.room }
    {
        let id = self.ids.remove(place);
        self.counts[usize::from(id)] -= 1;
    }

    /// None any more.
    pub(crate) fn clear(&mut self)
        ensures { self.new ≡ record self.old { items = [] } }
    {
        self.ids.clear();
        self.counts = [0; 256];
    }
}

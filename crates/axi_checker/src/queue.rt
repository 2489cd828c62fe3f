//! Entries in order, at most 64, of which one leaves without moving the others.
ghost use Rattle.std.specs.Prelude.{◌≡◌, ◌≤◌, [], IfOk, take};
ghost use Rattle.axi_checker.specs.Slots.{AreSlots};

use crate::entries::Entries;
use crate::row::close_gap;
use std::alloc::{AllocError, Global};
use std::marker::Model;

/// Entries in order, the oldest first, at most 64. Each stays where it stands; what moves, where one leaves, are the slots of
/// those behind it, by the same steps wherever it stood. All room is taken by `new`.
#[derive(Drop)]
pub struct Queue<T> {
    entries: Vec<T>,
    /// The slots of the entries in order, and behind them those that are free: 64, each once. Twice the room is taken, so that
    /// there are 64 bytes behind each of them.
    slots: [u8; 128],
    len: usize,
    room: usize,
    /// What stands in a slot before its first entry.
    filler: T,
}

impl<T> Model for Queue<T> {
    ghost use Rattle.std.specs.Prelude.{◌≡◌, ◌≤◌, take};
    ghost use Rattle.std.specs.Vec.{vec_len};
    ghost use Rattle.axi_checker.specs.Monitors.{OpenSide};
    ghost use Rattle.axi_checker.specs.Slots.{AreSlots, at_slots};

    ghost Value = { OpenSide T };

    ghost view = { λ q. record { items = at_slots q.entries.items q.filler (take q.len q.slots); room = q.room } };

    ghost invariant = { λ q. (q.len ≤ q.room) × (q.room ≤ 64) × (vec_len q.entries ≡ 64) × (AreSlots 64 (take 64 q.slots)) };
}

/// The 64 slots, in order.
fn all_slots() -> [u8; 128]
    ensures { AreSlots 64 (take 64 result) }
{
    let mut slots = [0; 128];
    for slot in 0..64 {
        slots[usize::from(slot)] = slot;
    }
    slots
}

impl<T: Copy> Queue<T> {
    /// None, with room for so many, at most 64. The filler is never seen.
    pub(crate) fn new(alloc: Global, room: usize, filler: T) -> Result<Self, AllocError>
        requires { room ≤ 64 }
        ensures { IfOk result (λ queue. (queue.items ≡ []) × (queue.room ≡ room)) }
    {
        let entries = vec![in alloc; filler; 64]?;
        Ok(Queue {
            entries,
            slots: all_slots(),
            len: 0,
            room,
            filler,
        })
    }
}

impl<T: Copy> Entries<T> for Queue<T> {
    ghost side = { λ queue. queue };

    fn len(&self) -> usize {
        self.len
    }

    fn get(&self, place: usize) -> T {
        self.entries[usize::from(self.slots[place])]
    }

    fn push(&mut self, entry: T) {
        self.entries[usize::from(self.slots[self.len])] = entry;
        self.len += 1;
    }

    fn put(&mut self, place: usize, entry: T) {
        self.entries[usize::from(self.slots[place])] = entry;
    }

    /// The slot of the one that is taken out is the last of the free ones then.
    fn remove(&mut self, place: usize) {
        let slot = self.slots[place];
        close_gap(&mut self.slots, place);
        self.slots[63] = slot;
        self.len -= 1;
    }

    fn clear(&mut self) {
        self.len = 0;
    }
}

//! Entries in order, in one piece.
ghost use Rattle.std.specs.Prelude.{◌≡◌, ◌≤◌, [], IfOk};

use crate::entries::Entries;
use std::alloc::{AllocError, Global};
use std::marker::Model;

/// Entries in order, the oldest first, at most 8,192; those behind one that leaves move up, all at once. All room is taken by
/// `new`.
#[derive(Drop)]
pub struct LongQueue<T> {
    entries: Vec<T>,
    room: usize,
}

impl<T> Model for LongQueue<T> {
    ghost use Rattle.std.specs.Prelude.{◌≤◌};
    ghost use Rattle.std.specs.Vec.{vec_capacity, vec_len};
    ghost use Rattle.axi_checker.specs.Monitors.{OpenSide};

    ghost Value = { OpenSide T };

    ghost view = { λ q. record { items = q.entries.items; room = q.room } };

    ghost invariant = { λ q. (vec_len q.entries ≤ q.room) × (q.room ≤ vec_capacity q.entries) × (q.room ≤ 8192) };
}

impl<T: Copy> LongQueue<T> {
    /// None, with room for so many, at most 8,192.
    pub(crate) fn new(alloc: Global, room: usize) -> Result<Self, AllocError>
        requires { room ≤ 8192 }
        ensures { IfOk result (λ queue. (queue.items ≡ []) × (queue.room ≡ room)) }
    {
        let entries = Vec::with_capacity(alloc, room)?;
        Ok(LongQueue { entries, room })
    }
}

impl<T: Copy> Entries<T> for LongQueue<T> {
    ghost side = { λ queue. queue };

    fn len(&self) -> usize {
        self.entries.len()
    }

    fn get(&self, place: usize) -> T {
        self.entries[place]
    }

    fn push(&mut self, entry: T) {
        self.entries.push(entry).unwrap();
    }

    fn put(&mut self, place: usize, entry: T) {
        self.entries[place] = entry;
    }

    fn remove(&mut self, place: usize) {
        self.entries.remove(place);
    }

    fn clear(&mut self) {
        self.entries.clear();
    }
}

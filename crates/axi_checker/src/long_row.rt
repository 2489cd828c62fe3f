//! IDs in order, in one piece.
ghost use Rattle.std.specs.Prelude.{◌≡◌, ◌≤◌, [], IfOk};

use crate::ids::Ids;
use memchr::memchr;
use std::alloc::{AllocError, Global};
use std::marker::Model;

/// IDs in order, the oldest first, at most 4,096. One is looked for by vectors, and those behind one that leaves move up, all
/// at once. All room is taken by `new`.
#[derive(Drop)]
pub struct LongRow {
    ids: Vec<u8>,
    room: usize,
}

impl Model for LongRow {
    ghost use Rattle.std.specs.Prelude.{ℕ, ◌≤◌};
    ghost use Rattle.std.specs.Vec.{vec_capacity, vec_len};
    ghost use Rattle.axi_checker.specs.Monitors.{OpenSide};

    ghost Value = { OpenSide ℕ };

    ghost view = { λ r. record { items = r.ids.items; room = r.room } };

    ghost invariant = { λ r. (vec_len r.ids ≤ r.room) × (r.room ≤ vec_capacity r.ids) };
}

impl LongRow {
    /// None, with room for so many.
    pub(crate) fn new(alloc: Global, room: usize) -> Result<Self, AllocError>
        ensures { IfOk result (λ row. (row.items ≡ []) × (row.room ≡ room)) }
    {
        let ids = Vec::with_capacity(alloc, room)?;
        Ok(LongRow { ids, room })
    }
}

impl Ids for LongRow {
    ghost side = { λ ids. ids };

    fn first(&self, id: u8) -> Option<usize> {
        memchr(id, self.ids.as_slice())
    }

    fn push(&mut self, id: u8) {
        self.ids.push(id).unwrap();
    }

    fn remove(&mut self, place: usize) -> u8 {
        self.ids.remove(place)
    }

    fn clear(&mut self) {
        self.ids.clear();
    }
}

//! IDs in a row, of which as many as there is room for are looked at together, and moved together.
ghost use Rattle.std.specs.Prelude.{◌≡◌, ◌≤◌, ◌==◌, [], length, take};
ghost use Rattle.std.specs.List.{position_or_len};

use crate::ids::Ids;
use crate::row::close_gap;
use std::marker::Model;
use std::simd::prelude::*;

/// At most 64 IDs, the oldest first. One is looked for and taken out by the same steps wherever it stands.
#[derive(Drop)]
pub struct IdRow {
    /// Those before `len` stand in the row; twice the room is taken, so that there are 64 bytes behind each of them.
    ids: [u8; 128],
    len: usize,
}

impl Model for IdRow {
    ghost use Rattle.std.specs.Prelude.{ℕ, ◌≤◌, List, take};

    ghost Value = { List ℕ };

    ghost view = { λ r. take r.len r.ids };

    ghost invariant = { λ r. r.len ≤ 64 };
}

/// How many of the first 64 bytes come before the first that is this one.
#[inline(always)]
fn bytes_before(bytes: &[u8], byte: u8) -> usize
    requires { 64 ≤ length bytes.now }
    ensures { result ≡ position_or_len (λ other. other == byte) (take 64 bytes.now) }
{
    let same = u8x64::from_slice(bytes).simd_eq(u8x64::splat(byte));
    same.to_bitmask().trailing_zeros() as usize
}

impl IdRow {
    /// None, with room for 64.
    pub(crate) fn new() -> Self
        ensures { result ≡ [] }
    {
        IdRow {
            ids: [0; 128],
            len: 0,
        }
    }
}

impl Ids for IdRow {
    ghost side = { λ ids. record { items = ids; room = 64 } };

    /// What stands behind the last is looked at with the others, and never comes first.
    fn first(&self, id: u8) -> Option<usize> {
        let place = bytes_before(&self.ids, id);
        if place < self.len { Some(place) } else { None }
    }

    fn push(&mut self, id: u8) {
        self.ids[self.len] = id;
        self.len += 1;
    }

    fn remove(&mut self, place: usize) -> u8 {
        let id = self.ids[place];
        close_gap(&mut self.ids, place);
        self.len -= 1;
        id
    }

    fn clear(&mut self) {
        self.len = 0;
    }
}

//! The serials of open bursts, in queues by ID and side.
ghost use Rattle.std.specs.Prelude.{◌≡◌, ◌<◌, ◌++◌, [], ◌∷◌, IfOk, drop, length, replicate, slice_get, slice_index_or, slice_set};

use arrayvec::ArrayVec;
use std::alloc::{AllocError, Global};
use std::marker::Model;

/// How many queues there are, two of each ID.
const QUEUES: usize = 32;

/// The serials of each queue's open bursts, at most four, in the order sent. The writes of an ID `i` are queue `2 * i`, its
/// reads queue `2 * i + 1`.
#[derive(Drop)]
pub(crate) struct Queues {
    rows: Vec<ArrayVec<u64, 4>>,
}

impl Model for Queues {
    ghost use Rattle.std.specs.Prelude.{List, ℕ, map};

    ghost Value = { List (List ℕ) };

    ghost view = { λ q. map (λ row. row.items) q.rows.items };
}

impl Queues {
    /// Queues without bursts.
    pub(crate) fn new(alloc: Global) -> Result<Self, AllocError>
        ensures { IfOk result (λ queues. queues ≡ replicate 32 []) }
    {
        let mut rows = Vec::with_capacity(alloc, QUEUES)?;
        for _ in 0..QUEUES {
            rows.push(ArrayVec::new())?;
        }
        Ok(Queues { rows })
    }

    /// The serial of a queue's oldest burst.
    pub(crate) fn first(&self, queue: usize) -> Option<u64>
        ensures { result ≡ slice_get (slice_index_or self.now queue []) 0 }
    {
        match self.rows.get(queue) {
            Some(row) => row.as_slice().first().copied(),
            None => None,
        }
    }

    /// How many bursts a queue has.
    pub(crate) fn count(&self, queue: usize) -> usize
        ensures { result ≡ length (slice_index_or self.now queue []) }
    {
        match self.rows.get(queue) {
            Some(row) => row.len(),
            None => 0,
        }
    }

    /// One more burst is the last of a queue.
    pub(crate) fn push(&mut self, queue: usize, serial: u64)
        requires queue { queue < length self.old }
        requires room { length (slice_index_or self.old queue []) < 4 }
        ensures { self.new ≡ slice_set self.old queue (slice_index_or self.old queue [] ++ serial ∷ []) }
    {
        self.rows[queue].push(serial);
    }

    /// The oldest burst leaves its queue.
    pub(crate) fn pop(&mut self, queue: usize)
        requires queue { queue < length self.old }
        requires some { 0 < length (slice_index_or self.old queue []) }
        ensures { self.new ≡ slice_set self.old queue (drop 1 (slice_index_or self.old queue [])) }
    {
        self.rows[queue].remove(0);
    }
}

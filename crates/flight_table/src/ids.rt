//! Who holds which ID.
ghost use Rattle.std.specs.Prelude.{◌≡◌, ℕ, ◌<◌, ◌≤◌, true, [], is_some, IfOk, None, Some, is_none, length, position, replicate, slice_index_or, slice_set};
ghost use Rattle.std.specs.Vec.{vec_len, vec_capacity};
ghost use Rattle.flight_table.specs.Inside.{CanRename, renamed};

use crate::marks::Marks;
use crate::slots::Key;
use std::alloc::{AllocError, Global};
use std::marker::Model;

/// The key of the request that holds each ID, and marks of the IDs that nobody holds.
#[derive(Drop)]
pub(crate) struct Ids {
    holders: Vec<Option<Key>>,
    free: Marks,
}

impl Model for Ids {
    ghost use Rattle.std.specs.Prelude.{ℕ, List, Option, ◌≡◌, ◌≤◌, is_none, length, map};

    ghost Value = { List (Option ℕ) };

    ghost view = { λ i. i.holders.items };

    ghost invariant = { λ i. (i.free ≡ map is_none i.holders.items) × (length i.holders.items ≤ 16) };
}

/// So many IDs, all free.
fn fill(holders: &mut Vec<Option<Key>>, free: &mut Marks, count: u8)
    requires few { count ≤ 16 }
    requires none { holders.old.items ≡ [] }
    requires no_marks { free.old ≡ [] }
    requires room { 16 ≤ vec_capacity holders.old }
    ensures holders { holders.new.items ≡ replicate count None }
    ensures free { free.new ≡ replicate count true }
{
    for _id in 0..count {
        holders.push_reserved(None);
        free.push(true);
    }
}

impl Ids {
    /// So many IDs, at most 16, all free.
    pub(crate) fn new(alloc: Global, count: u8) -> Result<Self, AllocError>
        requires { count ≤ 16 }
        ensures { IfOk result (λ ids. ids ≡ replicate count None) }
    {
        let mut holders = Vec::with_capacity(alloc, 16)?;
        let mut free = Marks::new();
        fill(&mut holders, &mut free, count);
        Ok(Ids { holders, free })
    }

    /// The smallest ID that nobody holds.
    pub(crate) fn first_free(&self) -> Option<u8>
        ensures { result ≡ position is_none self.now }
    {
        match self.free.first() {
            Some(id) => Some(id as u8),
            None => None,
        }
    }

    /// Whether nobody holds some ID.
    pub(crate) fn has_free(&self) -> bool
        ensures { result ≡ is_some (position is_none self.now) }
    {
        self.free.first().is_some()
    }

    /// The key of the request that holds an ID; none where nobody does, or there is no such ID.
    pub(crate) fn holder(&self, id: u8) -> Option<Key>
        ensures { result ≡ slice_index_or self.now id None }
    {
        match self.holders.get(usize::from(id)) {
            Some(holder) => *holder,
            None => None,
        }
    }

    /// The request of a key held the one ID, and holds the other from here on.
    pub(crate) fn rename(&mut self, key: Key, old: Option<u8>, new: Option<u8>)
        requires { CanRename (length self.old) old new }
        ensures { self.new ≡ renamed key old new self.old }
    {
        match (old, new) {
            (None, Some(id)) => self.put(id, Some(key)),
            (Some(id), None) => self.put(id, None),
            _ => {}
        }
    }

    /// Another holder of an ID, or none.
    fn put(&mut self, id: u8, holder: Option<Key>)
        requires { id < length self.old }
        ensures { self.new ≡ slice_set self.old id holder }
    {
        self.free.put(usize::from(id), holder.is_none());
        self.holders[usize::from(id)] = holder;
    }
}

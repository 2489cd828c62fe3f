//! A box for the beats of one reply.
ghost use Rattle.std.specs.Prelude.{◌≡◌, ◌<◌, [], ◌∷◌, ◌++◌, length, Some, IfOk, slice_get};

use crate::{DBeat, MAX_BEATS};
use std::alloc::{AllocError, Global};
use std::marker::Model;

/// A box for the beats of one reply, up to 512. All its room is taken by `new`; no other call takes memory.
pub struct ReplyBox {
    beats: Vec<DBeat>,
}

impl Model for ReplyBox {
    ghost use Rattle.std.specs.Prelude.{List, ◌≤◌};
    ghost use Rattle.std.specs.Vec.{vec_len, vec_capacity};
    ghost use Rattle.tl_messages.specs.declared.DBeat.{DBeat};

    ghost Value = { List DBeat };

    ghost view = { λ b. b.beats.items };

    ghost invariant = { λ b. (512 ≤ vec_capacity b.beats) × (vec_len b.beats ≤ 512) };
}

// Written out, so that what lets go of one calls this, and proves nothing of its parts.
impl Drop for ReplyBox {
    fn drop(self) {
        let ReplyBox { beats: _ } = self;
    }
}

impl ReplyBox {
    /// An empty box, with the room for any reply.
    ///
    /// The one error is that memory was refused.
    pub fn new(alloc: Global) -> Result<Self, AllocError>
        ensures { IfOk result (λ b. b ≡ []) }
    {
        let beats = Vec::with_capacity(alloc, MAX_BEATS)?;
        Ok(ReplyBox { beats })
    }

    /// How many beats the box holds.
    pub fn beats(&self) -> u16
        ensures { result ≡ length self.now }
    {
        self.beats.len() as u16
    }

    /// Beat `k`, from 0.
    pub fn beat(&self, k: u16) -> DBeat
        requires { k < length self.now }
        ensures { slice_get self.now k ≡ Some result }
    {
        self.beats[usize::from(k)]
    }

    /// All beats, in order.
    pub fn as_slice(&self) -> &[DBeat]
        ensures { result.now ≡ self.now }
    {
        self.beats.as_slice()
    }

    /// Appends a beat to fewer than 512.
    pub fn push(&mut self, beat: DBeat)
        requires { length self.old < 512 }
        ensures { self.new ≡ self.old ++ beat ∷ [] }
    {
        self.beats.push_reserved(beat);
    }

    /// Leaves no beats.
    pub fn clear(&mut self)
        ensures { self.new ≡ [] }
    {
        self.beats.clear();
    }
}

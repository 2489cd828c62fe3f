//! A box that holds one burst, so that a burst is handed on without copying its data.
ghost use Rattle.std.specs.Prelude.{◌≡◌, ◌<◌, ◌≤◌, [], length, is_some, is_none, Some, None, IsSome, IfOk, slice_get};
ghost use Rattle.axi_beats.specs.Bursts.{WriteBurst, ReadBurst};

use crate::{ArBeat, AwBeat, WBeat};
use std::alloc::{AllocError, Global};
use std::marker::Model;

/// The most transfers that a burst has.
pub const MAX_TRANSFERS: usize = 256;

/// What a box holds beside W beats.
#[derive(Clone, Copy)]
enum Head {
    Empty,
    Write(AwBeat),
    Read(ArBeat),
}

/// A box for one burst: empty, a write with up to 256 W beats, or a read. All its room is taken by `new`; no other call
/// takes memory.
pub struct BurstBox {
    head: Head,
    beats: Vec<WBeat>,
}

impl Model for BurstBox {
    ghost use Rattle.std.specs.Prelude.{Option, ◌≤◌};
    ghost use Rattle.std.specs.Vec.{vec_len, vec_capacity};
    ghost use Rattle.axi_beats.specs.Bursts.{Burst};
    ghost use Rattle.axi_beats.specs.Boxes.{burst_held};

    ghost Value = { Option Burst };

    ghost view = { λ b. burst_held b.head b.beats.items };

    ghost invariant = { λ b. (256 ≤ vec_capacity b.beats) × (vec_len b.beats ≤ 256) };
}

// Written out, so that what lets go of one calls this, and proves nothing of its parts.
impl Drop for BurstBox {
    fn drop(self) {
        let BurstBox { head: _, beats: _ } = self;
    }
}

impl BurstBox {
    ghost use Rattle.axi_beats.specs.Boxes.{aw_of, ar_of, burst_held, w_beats_of, with_w_beat};

    /// An empty box, with the room for any burst.
    ///
    /// The one error is that memory was refused.
    pub fn new(alloc: Global) -> Result<Self, AllocError>
        ensures { IfOk result (λ b. b ≡ None) }
    {
        let beats = Vec::with_capacity(alloc, MAX_TRANSFERS)?;
        Ok(BurstBox {
            head: Head::Empty,
            beats,
        })
    }

    fn restart(&mut self, head: Head)
        ensures { self.new ≡ burst_held head [] }
    {
        self.head = head;
        self.beats.clear();
    }

    /// Whether the box holds nothing.
    pub fn is_empty(&self) -> bool
        ensures { result ≡ is_none self.now }
    {
        matches!(&self.head, Head::Empty)
    }

    /// Whether the box holds a write.
    pub fn is_write(&self) -> bool
        ensures { result ≡ is_some (aw_of self.now) }
    {
        matches!(&self.head, Head::Write(_))
    }

    /// The address beat of the write that the box holds.
    pub fn aw(&self) -> AwBeat
        requires { IsSome (aw_of self.now) }
        ensures { aw_of self.now ≡ Some result }
    {
        match self.head {
            Head::Write(aw) => aw,
            Head::Empty | Head::Read(_) => unreachable!(),
        }
    }

    /// The address beat of the read that the box holds.
    pub fn ar(&self) -> ArBeat
        requires { IsSome (ar_of self.now) }
        ensures { ar_of self.now ≡ Some result }
    {
        match self.head {
            Head::Read(ar) => ar,
            Head::Empty | Head::Write(_) => unreachable!(),
        }
    }

    /// How many W beats the box holds: those of a write, else none.
    pub fn w_beats(&self) -> u16
        ensures { result ≡ length (w_beats_of self.now) }
    {
        match self.head {
            Head::Write(_) => self.beats.len() as u16,
            Head::Empty | Head::Read(_) => 0,
        }
    }

    /// W beat `k`, from 0, of the write that the box holds.
    pub fn w(&self, k: u16) -> WBeat
        requires { k < length (w_beats_of self.now) }
        ensures { slice_get (w_beats_of self.now) k ≡ Some result }
    {
        self.beats[usize::from(k)]
    }

    /// Leaves the box empty.
    pub fn clear(&mut self)
        ensures { self.new ≡ None }
    {
        self.restart(Head::Empty);
    }

    /// Holds a read, in place of whatever was held.
    pub fn set_read(&mut self, ar: ArBeat)
        ensures { self.new ≡ Some (ReadBurst ar) }
    {
        self.restart(Head::Read(ar));
    }

    /// Holds a write with these W beats, at most 256, in place of whatever was held.
    pub fn set_write(&mut self, aw: AwBeat, beats: &[WBeat])
        requires { length beats.now ≤ 256 }
        ensures { self.new ≡ Some (WriteBurst aw beats.now) }
    {
        self.begin_write(aw);
        self.beats.extend_from_slice(beats).unwrap();
    }

    /// Holds a write with no W beats yet, in place of whatever was held.
    pub fn begin_write(&mut self, aw: AwBeat)
        ensures { self.new ≡ Some (WriteBurst aw []) }
    {
        self.restart(Head::Write(aw));
    }

    /// Appends a W beat to the write that the box holds, which has fewer than 256.
    pub fn push_w(&mut self, beat: WBeat)
        requires write { IsSome (aw_of self.old) }
        requires room { length (w_beats_of self.old) < 256 }
        ensures { self.new ≡ with_w_beat beat self.old }
    {
        self.beats.push_reserved(beat);
    }
}

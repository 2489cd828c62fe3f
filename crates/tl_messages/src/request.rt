//! A request, as its beats come in.
ghost use Rattle.std.specs.Prelude.{◌≡◌, ◌<◌, ◌≤◌, true, length, IfOk, IsSome, IsTrue};
ghost use Rattle.tl_messages.specs.Requests.{masked_word};

use crate::{ABeat, MAX_BEATS, MaskedWord, Operation};
use std::alloc::{AllocError, Global};
use std::marker::Model;

/// What a request holds beside payloads and masks.
#[derive(Clone, Copy)]
struct Head {
    client: u8,
    source: u8,
    operation: Operation,
    size: u8,
    address: u32,
    corrupt: bool,
}

fn masked_word(beat: &ABeat) -> MaskedWord
    ensures { result ≡ masked_word beat.now }
{
    MaskedWord {
        word: beat.payload,
        mask: beat.mask,
    }
}

/// A message on channel A: the fields of its first beat, and the payloads and masks of the beats that have come, up to
/// 512. All its room is taken by `new`; no other call takes memory.
pub struct Request {
    head: Head,
    beats: Vec<MaskedWord>,
}

impl Model for Request {
    ghost use Rattle.std.specs.Prelude.{◌≤◌};
    ghost use Rattle.std.specs.Vec.{vec_len, vec_capacity};
    ghost use Rattle.tl_messages.specs.Requests.{HeldMessage, message_held};

    ghost Value = { HeldMessage };

    ghost view = { λ r. message_held r.head r.beats.items };

    ghost invariant = { λ r. (512 ≤ vec_capacity r.beats) × (vec_len r.beats ≤ 512) × (r.head.size ≤ 12) };
}

// Written out, so that what lets go of one calls this, and proves nothing of its parts.
impl Drop for Request {
    fn drop(self) {
        let Request { head: _, beats: _ } = self;
    }
}

impl Request {
    ghost use Rattle.tl_messages.specs.Operations.{named_operation, has_data, beats_of};
    ghost use Rattle.tl_messages.specs.Requests.{no_message, begun, with_beat, beat_at, is_whole};

    /// Client 0's Get of one byte at address 0, source 0, of which no beat has come; with the room for any request.
    ///
    /// The one error is that memory was refused.
    pub fn new(alloc: Global) -> Result<Self, AllocError>
        ensures { IfOk result (λ r. r ≡ no_message) }
    {
        let beats = Vec::with_capacity(alloc, MAX_BEATS)?;
        let head = Head {
            client: 0,
            source: 0,
            operation: Operation::Get,
            size: 0,
            address: 0,
            corrupt: false,
        };
        Ok(Request { head, beats })
    }

    /// The client that asks.
    pub fn client(&self) -> u8
        ensures { result ≡ self.now.client }
    {
        self.head.client
    }

    /// The source, by which the client knows the reply.
    pub fn source(&self) -> u8
        ensures { result ≡ self.now.source }
    {
        self.head.source
    }

    /// What is asked for.
    pub fn operation(&self) -> Operation
        ensures { result ≡ self.now.operation }
    {
        self.head.operation
    }

    /// How many bytes are asked for, as a power of two; at most 12.
    pub fn size(&self) -> u8
        ensures value { result ≡ self.now.size }
        ensures bound { result ≤ 12 }
    {
        self.head.size
    }

    /// The address of the first byte.
    pub fn address(&self) -> u32
        ensures { result ≡ self.now.address }
    {
        self.head.address
    }

    /// Whether a beat that has come was corrupt.
    pub fn corrupt(&self) -> bool
        ensures { result ≡ self.now.corrupt }
    {
        self.head.corrupt
    }

    /// How many beats have come.
    pub fn beats(&self) -> u16
        ensures { result ≡ length self.now.beats }
    {
        self.beats.len() as u16
    }

    /// The payload of beat `k`, from 0.
    pub fn word(&self, k: u16) -> u64
        requires { k < length self.now.beats }
        ensures { result ≡ (beat_at self.now k).word }
    {
        self.beats[usize::from(k)].word
    }

    /// The mask of beat `k`, from 0.
    pub fn mask(&self, k: u16) -> u8
        requires { k < length self.now.beats }
        ensures { result ≡ (beat_at self.now k).mask }
    {
        self.beats[usize::from(k)].mask
    }

    /// Whether all beats have come.
    pub fn is_whole(&self) -> bool
        ensures { result ≡ is_whole self.now }
    {
        crate::beats_of(self.head.size, self.head.operation.has_data()) <= self.beats()
    }

    /// Becomes a client's message after its first beat, whose opcode and param name an operation and whose size is at
    /// most 12.
    pub fn begin(&mut self, client: u8, beat: &ABeat)
        requires operation { IsSome (named_operation beat.now.opcode beat.now.param) }
        requires size { beat.now.size ≤ 12 }
        ensures { self.new ≡ begun client beat.now }
    {
        self.head = Head {
            client,
            source: beat.source,
            operation: Operation::named(beat.opcode, beat.param).unwrap(),
            size: beat.size,
            address: beat.address,
            corrupt: beat.corrupt,
        };
        self.beats.clear();
        self.beats.push_reserved(masked_word(beat));
    }

    /// Appends a beat to a message that carries data, and of which a beat is still to come.
    pub fn add(&mut self, beat: &ABeat)
        requires data { IsTrue (has_data self.old.operation) }
        requires room { length self.old.beats < beats_of self.old.size true }
        ensures { self.new ≡ with_beat self.old beat.now }
    {
        self.head.corrupt |= beat.corrupt;
        self.beats.push_reserved(masked_word(beat));
    }

    /// Becomes equal to another request.
    pub fn copy_from(&mut self, other: &Request)
        ensures { self.new ≡ other.now }
    {
        self.head = other.head;
        self.beats.clear();
        self.beats
            .extend_from_slice(other.beats.as_slice())
            .unwrap();
    }
}

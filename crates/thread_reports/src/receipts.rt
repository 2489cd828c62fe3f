//! What a client received.
ghost use Rattle.std.specs.Prelude.{◌≡◌, ◌⊎◌, ◌+◌, ◌<◌, ◌≤◌, ◌∷◌, ◌++◌, [], length, take, drop, slice_get, Some, true, false, IfOk};
ghost use Rattle.std.specs.Vec.{vec_capacity, vec_len};
ghost use Rattle.thread_reports.specs.Replays.{HasReceipt};

use std::alloc::{AllocError, Global};
use tl_messages::{DBeat, ReplyBox};

/// The replies that a client received, in order.
#[derive(Drop)]
pub struct Receipts {
    /// The number of each reply, and how many beats it has.
    pub heads: Vec<(u64, u16)>,
    /// The beats of these replies, one after another.
    pub beats: Vec<DBeat>,
}

impl Receipts {
    /// No receipts, with room for so many replies and beats.
    pub fn new(alloc: Global, replies: usize, beats: usize) -> Result<Receipts, AllocError>
        ensures heads { IfOk result (λ receipts. receipts.heads.items ≡ []) }
        ensures beats { IfOk result (λ receipts. receipts.beats.items ≡ []) }
        ensures room { IfOk result (λ receipts. (replies ≤ vec_capacity receipts.heads) × (beats ≤ vec_capacity receipts.beats)) }
    {
        let heads = Vec::with_capacity(alloc, replies)?;
        let beats = Vec::with_capacity(alloc, beats)?;
        Ok(Receipts { heads, beats })
    }

    /// Writes down a reply, where there is room for it; else nothing.
    pub fn keep(&mut self, number: u64, reply: &ReplyBox) -> bool
        ensures head { result ≡ true → self.new.heads.items ≡ self.old.heads.items ++ (number, length reply.now) ∷ [] }
        ensures beats { result ≡ true → self.new.beats.items ≡ self.old.beats.items ++ reply.now }
        ensures kept { result ≡ false → (self.new.heads.items ≡ self.old.heads.items) × (self.new.beats.items ≡ self.old.beats.items) }
        ensures full { result ≡ false → (vec_capacity self.old.heads ≤ vec_len self.old.heads) ⊎ (vec_capacity self.old.beats < vec_len self.old.beats + length reply.now) }
    {
        if self.heads.len() >= self.heads.capacity() {
            return false;
        }
        if self.beats.capacity() - self.beats.len() < usize::from(reply.beats()) {
            return false;
        }
        self.heads.push_reserved((number, reply.beats()));
        self.beats.extend_from_slice(reply.as_slice()).unwrap();
        true
    }

    /// Whether the receipt at a place is this reply, where the beats of those before it end at `start`.
    pub(crate) fn has(&self, place: usize, start: usize, number: u64, reply: &ReplyBox) -> bool
        ensures same { result ≡ true → HasReceipt self.now place start number reply.now × (place < length self.now.heads.items) × (start + length reply.now ≤ length self.now.beats.items) }
        ensures differs { result ≡ false → start ≤ length self.now.beats.items → HasReceipt self.now place start number reply.now → ⊥ }
    {
        head_is(self.heads.as_slice(), place, number, reply.beats())
            && beats_are(self.beats.as_slice(), start, reply.as_slice())
    }
}

/// Whether the head at a place has this number and this count of beats.
fn head_is(heads: &[(u64, u16)], place: usize, number: u64, count: u16) -> bool
    ensures same { result ≡ true → slice_get heads.now place ≡ Some (number, count) }
    ensures differs { result ≡ false → slice_get heads.now place ≡ Some (number, count) → ⊥ }
{
    if place >= heads.len() {
        return false;
    }
    let (told, beats) = heads[place];
    told == number && beats == count
}

/// Whether a reply's beats stand in a list from a place on.
fn beats_are(beats: &[DBeat], start: usize, reply: &[DBeat]) -> bool
    ensures same { result ≡ true → (take (length reply.now) (drop start beats.now) ≡ reply.now) × (start + length reply.now ≤ length beats.now) }
    ensures differs { result ≡ false → start ≤ length beats.now → take (length reply.now) (drop start beats.now) ≡ reply.now → ⊥ }
{
    if start > beats.len() || beats.len() - start < reply.len() {
        return false;
    }
    &beats[start..start + reply.len()] == reply
}

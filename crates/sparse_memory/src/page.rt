//! The room of one page.
ghost use Rattle.std.specs.Prelude.{◌≡◌, ◌<◌, ◌^◌, ℕ, length, slice_index, slice_set, if◌then◌else◌, IfOk};
ghost use Rattle.data_unit.specs.Words.{merged};
ghost use Rattle.sparse_memory.specs.SparseMemory.{byte_of, doubt_of, flags_merged};

use data_unit::merge;
use std::alloc::{AllocError, Global};
use std::marker::Model;

/// The words of a page.
const WORDS: usize = 512;

/// The words of a page, and for each which of its bytes are in doubt, bit i for byte i.
pub(crate) struct Page {
    words: Vec<u64>,
    doubts: Vec<u8>,
}

impl Model for Page {
    ghost use Rattle.std.specs.Prelude.{◌≡◌, length};
    ghost use Rattle.sparse_memory.specs.SparseMemory.{PageState};

    ghost Value = { PageState };

    ghost view = { λ p. record { words = p.words.items; doubts = p.doubts.items } };

    ghost invariant = { λ p. (length p.words.items ≡ 512) × (length p.doubts.items ≡ 512) };
}

// Written out, so that what lets go of one calls this, and proves nothing of its parts.
impl Drop for Page {
    fn drop(self) {
        let Page {
            words: _,
            doubts: _,
        } = self;
    }
}

impl Page {
    ghost use Rattle.std.specs.Prelude.{Some};

    /// A page of zeros, all bytes in doubt or none. The one error is that memory was refused.
    pub(crate) fn new(alloc: Global, in_doubt: bool) -> Result<Self, AllocError>
        ensures bytes { IfOk result (λ page. (place : ℕ) → place < 4096 → byte_of (Some page) place ≡ 0) }
        ensures doubts { IfOk result (λ page. (place : ℕ) → place < 4096 → doubt_of in_doubt (Some page) place ≡ in_doubt) }
    {
        Ok(Page {
            words: vec![in alloc; 0; WORDS]?,
            doubts: vec![in alloc; every_byte_if(in_doubt); WORDS]?,
        })
    }

    /// Its word `k`.
    pub(crate) fn word(&self, k: usize) -> u64
        requires { k < 512 }
        ensures word { result ≡ slice_index self.now.words k }
        ensures fits { result < 2 ^ 64 }
    {
        self.words[k]
    }

    /// Which bytes of its word `k` are in doubt.
    pub(crate) fn doubts(&self, k: usize) -> u8
        requires { k < 512 }
        ensures mask { result ≡ slice_index self.now.doubts k }
        ensures fits { result < 256 }
    {
        self.doubts[k]
    }

    /// Sets the strobed bytes of its word `k` to those of another.
    pub(crate) fn put_word(&mut self, k: usize, word: u64, strobes: u8)
        requires { k < 512 }
        ensures word { self.new ≡ record self.old { words = slice_set self.old.words k (merged (slice_index self.old.words k) word strobes) } }
        ensures whole { length self.old.words ≡ 512 }
    {
        self.words[k] = merge(self.words[k], word, strobes);
    }

    /// Sets whether the strobed bytes of its word `k` are in doubt.
    pub(crate) fn put_doubts(&mut self, k: usize, doubts: u8, strobes: u8)
        requires { k < 512 }
        ensures doubts { self.new ≡ record self.old { doubts = slice_set self.old.doubts k (flags_merged (slice_index self.old.doubts k) doubts strobes) } }
        ensures whole { length self.old.doubts ≡ 512 }
    {
        self.doubts[k] = flags_merged(self.doubts[k], doubts, strobes);
    }
}

/// All bytes of a word, or none.
fn every_byte_if(all: bool) -> u8
    ensures { result ≡ (if all then 255 else 0) }
{
    if all { 0xff } else { 0 }
}

/// The new mask's bits in the strobed lanes, the old one's elsewhere.
fn flags_merged(old: u8, new: u8, strobes: u8) -> u8
    ensures { result ≡ flags_merged old new strobes }
{
    (old & !strobes) | (new & strobes)
}

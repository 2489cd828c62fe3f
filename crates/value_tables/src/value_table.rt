//! The table: shelves by the number of a word.
ghost use Rattle.std.specs.Prelude.{◌≡◌, ◌<◌, IfOk, map};
ghost use Rattle.std.specs.Option.{option_copied};
ghost use Rattle.byte_values.specs.Words.{changed_word};
ghost use Rattle.value_tables.specs.Shelves.{all_changed_on};
ghost use Rattle.value_tables.specs.Tables.{begun_at, changed_at, empty_table, has_room, list_at, lost_since, pruned_at, released_at, reset_at, settled_at, shelf_at, shelf_of, word_beside};

use crate::shelf::Shelf;
use byte_values::{Change, KnownBytes, WordValues};
use std::alloc::{AllocError, Global};
use std::marker::Model;

/// How many shelves a table has.
const SHELVES: usize = 256;

/// The lists of up to 2,048 words of a memory, each of the values that the word's bytes may have. A word is known by its number:
/// its address divided by 8. It has a list from the first request on that may give it something until the list is released. It
/// stands on one of 256 shelves, with room for eight; where that is full none begins, and the table keeps the number of the request
/// that found no place.
///
/// `new` takes 851,968 bytes; nothing else takes memory.
#[derive(Drop)]
pub struct ValueTable {
    shelves: Vec<Shelf>,
    lost: u64,
}

impl Model for ValueTable {
    ghost use Rattle.std.specs.Prelude.{◌≡◌, length};
    ghost use Rattle.value_tables.specs.Tables.{TableState};

    ghost Value = { TableState };

    ghost view = { λ t. record { shelves = t.shelves.items; lost = t.lost } };

    ghost invariant = { λ t. length t.shelves.items ≡ 256 };
}

/// The shelf on which a word's list stands.
#[inline]
fn shelf_of(word: u32) -> usize
    ensures value { result ≡ shelf_of word }
    ensures within { result < 256 }
{
    let word = u64::from(word);
    ((word + 9 * (word / 64)) % 256) as usize
}

/// Each list on some shelves changes.
fn change_each(shelves: &mut [Shelf], change: Change)
    ensures { shelves.new ≡ map (all_changed_on (changed_word change)) shelves.old }
{
    for shelf in shelves.iter_mut() {
        shelf.change_all(change);
    }
}

impl ValueTable {
    /// A table in which no list stands. The one error is that memory was refused.
    pub fn new(alloc: Global) -> Result<Self, AllocError>
        ensures { IfOk result (λ table. table ≡ empty_table) }
    {
        let mut shelves = Vec::with_capacity(alloc, SHELVES)?;
        for _shelf in 0..SHELVES {
            shelves.push_reserved(Shelf::new());
        }
        Ok(ValueTable { shelves, lost: 0 })
    }

    /// The shelf on which a word's list stands.
    #[inline]
    fn shelf(&self, word: u32) -> &Shelf
        ensures { result.now ≡ shelf_at self.now word }
    {
        &self.shelves[shelf_of(word)]
    }

    /// The list of a word, if one stands.
    #[inline]
    pub fn list(&self, word: u32) -> Option<&WordValues>
        ensures { option_copied result ≡ list_at self.now word }
    {
        self.shelf(word).list(word)
    }

    /// Whether the list of a word stands, or there is a place for it.
    pub fn has_room(&self, word: u32) -> bool
        ensures { result ≡ has_room self.now word }
    {
        self.shelf(word).has_room(word)
    }

    /// The word whose list is at a place, below 8, of the shelf on which a word's list stands, or would.
    pub fn beside(&self, word: u32, place: usize) -> Option<u32>
        ensures { result ≡ word_beside self.now word place }
    {
        self.shelf(word).word(place)
    }

    /// The number of the last request that found no place for a list; 0 where each found one.
    pub fn lost(&self) -> u64
        ensures { result ≡ self.now.lost }
    {
        self.lost
    }

    /// What a word has settled as, if its list stands and it has.
    #[inline]
    pub fn settled(&self, word: u32) -> Option<KnownBytes>
        ensures { result ≡ settled_at self.now word }
    {
        self.list(word)?.settled()
    }

    /// The last request that found no place, if that may be in flight, by the oldest one that is.
    fn lost_since(&self, oldest: u64) -> Option<u64>
        ensures { result ≡ lost_since self.now oldest }
    {
        if self.lost > 0 && oldest <= self.lost {
            Some(self.lost)
        } else {
            None
        }
    }

    /// The request that begins at a number may give some lanes of a word: its list has that, and begins before where none stands,
    /// with what is known of the word. The oldest request in flight says whether one may be in flight that found no place: then
    /// nobody knows what the other bytes are. False: there is no place for a list, and the table keeps the number as that of the
    /// last one that found none.
    pub fn begin(
        &mut self,
        word: u32,
        number: u64,
        lanes: u8,
        known: KnownBytes,
        oldest: u64,
    ) -> bool
        ensures table { self.new ≡ begun_at word number lanes known oldest self.old }
        ensures room { result ≡ has_room self.old word }
    {
        let lost = self.lost_since(oldest);
        let begun = self.shelves[shelf_of(word)].begin(word, number, lanes, known, lost);
        if !begun {
            self.lost = number;
        }
        begun
    }

    /// The list of a word changes, if one stands.
    #[inline]
    pub fn change(&mut self, word: u32, change: Change)
        ensures { self.new ≡ changed_at word change self.old }
    {
        self.shelves[shelf_of(word)].change(word, change);
    }

    /// The list of a word, if one stands, forgets what can't be told any more, by the number of the oldest request in flight, when
    /// so many have begun.
    #[inline]
    pub fn prune(&mut self, word: u32, oldest: u64, now: u64)
        ensures { self.new ≡ pruned_at word oldest now self.old }
    {
        self.shelves[shelf_of(word)].prune(word, oldest, now);
    }

    /// The list of a word is gone, and its place free.
    pub fn release(&mut self, word: u32)
        ensures { self.new ≡ released_at word self.old }
    {
        self.shelves[shelf_of(word)].release(word);
    }

    /// A reset, when so many have begun: it cuts off what hasn't ended, in each list.
    pub fn reset(&mut self, now: u64)
        ensures { self.new ≡ reset_at now self.old }
    {
        change_each(self.shelves.as_mut_slice(), Change::Resets(now));
    }
}

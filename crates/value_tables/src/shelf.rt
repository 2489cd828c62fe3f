//! One shelf: eight places, at each of which the list of a word may stand.
ghost use Rattle.std.specs.Prelude.{◌≡◌, ◌<◌, None, if◌then◌else◌, is_none, is_some, length, map, slice_index_or, slice_set};
ghost use Rattle.std.specs.List.{position};
ghost use Rattle.std.specs.Option.{option_copied};
ghost use Rattle.byte_values.specs.Words.{WordList, begun_word, changed_word, pruned_word};
ghost use Rattle.value_tables.specs.InsideShelves.{is_word};
ghost use Rattle.value_tables.specs.Shelves.{all_changed_on, begun_on, changed_on, empty_shelf, first_list, has_room_on, is_of, list_on, released_on, standing_on, word_on};

use byte_values::{Change, KnownBytes, WordValues};
use std::array;
use std::marker::Model;
use std::mem::size_of;

/// How many places a shelf has.
const PLACES: usize = 8;

const _: () = prove!(size_of::<Shelf>() == 3328);

/// A shelf: the word of each place, if one has it, and its list. A list at a place that no word has says nothing.
#[derive(Drop)]
pub(crate) struct Shelf {
    words: [Option<u32>; PLACES],
    lists: [WordValues; PLACES],
}

impl Model for Shelf {
    ghost use Rattle.std.specs.Prelude.{◌≡◌, length};
    ghost use Rattle.value_tables.specs.InsideShelves.{places_of};
    ghost use Rattle.value_tables.specs.Shelves.{ShelfState};

    ghost Value = { ShelfState };

    ghost view = { λ s. places_of s.words s.lists };

    ghost invariant = { λ s. (length s.words ≡ 8) × (length s.lists ≡ 8) };
}

/// Whether a place is that of a word.
#[inline]
fn is_word(held: Option<u32>, word: u32) -> bool
    ensures { result ≡ is_word word held }
{
    matches!(held, Some(other) if other == word)
}

/// The place of a word.
#[inline]
fn place_of(words: &[Option<u32>], word: u32) -> Option<usize>
    ensures { result ≡ position (is_word word) words.now }
{
    words.iter().position(|held| is_word(*held, word))
}

/// The first place that no word has.
fn free_place(words: &[Option<u32>]) -> Option<usize>
    ensures { result ≡ position is_none words.now }
{
    words.iter().position(|held| held.is_none())
}

/// A place as it is free, if it was that of a word.
fn freed(held: Option<u32>, word: u32) -> Option<u32>
    ensures { result ≡ (if is_word word held then None else held) }
{
    if is_word(held, word) { None } else { held }
}

/// No place is that of a word any more.
fn free_each(words: &mut [Option<u32>], word: u32)
    ensures { words.new ≡ map (λ held. if is_word word held then None else held) words.old }
{
    for held in words.iter_mut() {
        *held = freed(*held, word);
    }
}

/// The list at a place changes.
#[inline]
fn change_at(lists: &mut [WordValues], place: usize, change: Change)
    requires { place < length lists.old }
    ensures { (d : WordList) → lists.new ≡ slice_set lists.old place (changed_word change (slice_index_or lists.old place d)) }
{
    lists[place].apply(change);
}

/// The list at a place forgets what can't be told any more.
#[inline]
fn prune_at(lists: &mut [WordValues], place: usize, oldest: u64, now: u64)
    requires { place < length lists.old }
    ensures { (d : WordList) → lists.new ≡ slice_set lists.old place (pruned_word oldest now (slice_index_or lists.old place d)) }
{
    lists[place].prune(oldest, now);
}

/// A request begins that may give some lanes of the word of a place.
#[inline]
fn begin_at(lists: &mut [WordValues], place: usize, number: u64, lanes: u8)
    requires { place < length lists.old }
    ensures { (d : WordList) → lists.new ≡ slice_set lists.old place (begun_word number lanes (slice_index_or lists.old place d)) }
{
    lists[place].begin(number, lanes);
}

/// Each list changes.
fn change_each(lists: &mut [WordValues], change: Change)
    ensures { lists.new ≡ map (changed_word change) lists.old }
{
    for list in lists.iter_mut() {
        list.apply(change);
    }
}

/// The list with which a word's begins, of which so much is known, where a request may be in flight that found no place.
fn first_list(known: KnownBytes, lost: Option<u64>) -> WordValues
    ensures { result ≡ first_list lost known }
{
    match lost {
        None => WordValues::new(known),
        Some(number) => WordValues::with_lost(known, number),
    }
}

impl Shelf {
    /// No list stands.
    pub(crate) fn new() -> Self
        ensures { result ≡ empty_shelf }
    {
        Shelf {
            words: [None; PLACES],
            lists: array::from_fn(|_| WordValues::new(KnownBytes { value: 0, lanes: 0 })),
        }
    }

    /// The list of a word, if one stands.
    #[inline]
    pub(crate) fn list(&self, word: u32) -> Option<&WordValues>
        ensures { option_copied result ≡ list_on word self.now }
    {
        let place = place_of(&self.words, word)?;
        Some(&self.lists[place])
    }

    /// Whether the list of a word stands, or there is a place for it.
    pub(crate) fn has_room(&self, word: u32) -> bool
        ensures { result ≡ has_room_on word self.now }
    {
        place_of(&self.words, word).is_some() || free_place(&self.words).is_some()
    }

    /// The word of which the list at a place is.
    pub(crate) fn word(&self, place: usize) -> Option<u32>
        ensures { result ≡ word_on self.now place }
    {
        if place < PLACES {
            self.words[place]
        } else {
            None
        }
    }

    /// The place of a word's list. Where none stands a first one does then, at the first place that is free, if one is.
    fn stand(&mut self, word: u32, known: KnownBytes, lost: Option<u64>) -> Option<usize>
        ensures shelf { self.new ≡ standing_on (first_list lost known) word self.old }
        ensures place { result ≡ position (is_of word) self.new }
        ensures room { is_some result ≡ has_room_on word self.old }
    {
        if let Some(place) = place_of(&self.words, word) {
            return Some(place);
        }
        let place = free_place(&self.words)?;
        self.words[place] = Some(word);
        self.lists[place] = first_list(known, lost);
        Some(place)
    }

    /// A request begins that may give some lanes of a word, of which so much is known where no list of it stands. False: there is
    /// no place for one, and nothing has changed.
    pub(crate) fn begin(
        &mut self,
        word: u32,
        number: u64,
        lanes: u8,
        known: KnownBytes,
        lost: Option<u64>,
    ) -> bool
        ensures shelf { self.new ≡ begun_on (first_list lost known) word number lanes self.old }
        ensures room { result ≡ has_room_on word self.old }
    {
        let Some(place) = self.stand(word, known, lost) else {
            return false;
        };
        begin_at(&mut self.lists, place, number, lanes);
        true
    }

    /// The list of a word changes, if one stands.
    #[inline]
    pub(crate) fn change(&mut self, word: u32, change: Change)
        ensures { self.new ≡ changed_on (changed_word change) word self.old }
    {
        let Some(place) = place_of(&self.words, word) else {
            return;
        };
        change_at(&mut self.lists, place, change);
    }

    /// The list of a word forgets what can't be told any more, if it stands.
    #[inline]
    pub(crate) fn prune(&mut self, word: u32, oldest: u64, now: u64)
        ensures { self.new ≡ changed_on (pruned_word oldest now) word self.old }
    {
        let Some(place) = place_of(&self.words, word) else {
            return;
        };
        prune_at(&mut self.lists, place, oldest, now);
    }

    /// The list of a word is gone.
    pub(crate) fn release(&mut self, word: u32)
        ensures { self.new ≡ released_on word self.old }
    {
        free_each(&mut self.words, word);
    }

    /// Each list changes.
    pub(crate) fn change_all(&mut self, change: Change)
        ensures { self.new ≡ all_changed_on (changed_word change) self.old }
    {
        change_each(&mut self.lists, change);
    }
}

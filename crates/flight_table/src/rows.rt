//! Which live requests lie in which AXI page until they are done. A request's range lies in one page, so that only those of its
//! row can hold it back.
ghost use Rattle.std.specs.Prelude.{◌≡◌, ℕ, ◌+◌, ◌^◌, ◌<◌, ◌≤◌, [], IfOk, IfSome, None, Some, if◌then◌else◌, length, map, position, slice_index_or};
ghost use Rattle.bus_words.specs.Places.{AreDistinct};
ghost use Rattle.flight_table.specs.Marks.{marks_of};
ghost use Rattle.flight_table.specs.Rows.{bits_in, bits_of, has_page, is_vacant, lies_in};
ghost use Rattle.flight_table.specs.declared.rows.Row.{Row};

use crate::marks::Marks;
use crate::slots::ROOM;
use std::alloc::{AllocError, Global};
use std::marker::Model;

/// An AXI page, and the slots of the requests that lie in it and aren't done: bit `k` is for slot `k`.
#[derive(Clone, Copy)]
pub(crate) struct Row {
    pub(crate) page: u32,
    pub(crate) slots: u64,
}

/// A row for each page that such requests lie in. A row without slots is free for another page.
#[derive(Drop)]
pub(crate) struct Rows {
    rows: Vec<Row>,
}

impl Model for Rows {
    ghost use Rattle.std.specs.Prelude.{List, ◌≤◌, map};
    ghost use Rattle.std.specs.Vec.{vec_capacity};
    ghost use Rattle.bus_words.specs.Places.{AreDistinct};
    ghost use Rattle.flight_table.specs.declared.rows.Row.{Row};

    ghost Value = { List Row };

    ghost view = { λ r. r.rows.items };

    ghost invariant = { λ r. AreDistinct (map (λ row. row.page) r.rows.items) × (64 ≤ vec_capacity r.rows) };
}

/// Where the row of this page stands, if the pages rise by one. What is found doesn't rest on it.
fn guess(rows: &[Row], page: u32) -> usize {
    match rows.first() {
        Some(first) => page.saturating_sub(first.page) as usize,
        None => 0,
    }
}

/// The place of the row of a page, of all rows looked at in order.
fn searched(rows: &[Row], page: u32) -> Option<usize>
    ensures { result ≡ position (has_page page) rows.now }
{
    rows.iter().position(|row| row.page == page)
}

/// The place of the row of a page, of which no two are the same; where it stands as the pages rise by one, no other row is
/// looked at.
fn place_of(rows: &[Row], page: u32) -> Option<usize>
    requires { AreDistinct (map (λ row. row.page) rows.now) }
    ensures { result ≡ position (has_page page) rows.now }
{
    let guess = guess(rows, page);
    if guess < rows.len() && rows[guess].page == page {
        return Some(guess);
    }
    searched(rows, page)
}

/// The place of a row without slots.
fn first_vacant(rows: &[Row]) -> Option<usize>
    ensures { result ≡ position is_vacant rows.now }
{
    rows.iter().position(|row| row.slots == 0)
}

impl Rows {
    /// No rows, with room for 64.
    pub(crate) fn new(alloc: Global) -> Result<Self, AllocError>
        ensures { IfOk result (λ rows. rows ≡ []) }
    {
        let rows = Vec::with_capacity(alloc, ROOM)?;
        Ok(Rows { rows })
    }

    /// The slots of the row of a page, where it has one.
    fn slots(&self, page: Option<u32>) -> u64
        ensures { result ≡ bits_in page self.now }
    {
        let _ = &self.rows;
        let Some(page) = page else {
            return 0;
        };
        match place_of(&self.rows, page) {
            Some(k) => self.rows[k].slots,
            None => 0,
        }
    }

    /// Marks at the slots of the requests that lie in a page.
    pub(crate) fn row(&self, page: Option<u32>) -> Marks
        ensures row { result ≡ marks_of 64 (bits_in page self.now) }
        ensures pages { AreDistinct (map (λ row. row.page) self.now) }
    {
        let _ = &self.rows;
        Marks::of(self.slots(page), ROOM)
    }

    /// The row of a page, which is a new one where it has none.
    fn claim(&mut self, page: u32) -> usize
        requires room { position is_vacant self.old ≡ None → length self.old < 64 }
        ensures same { (other : ℕ) → bits_of other self.new ≡ bits_of other self.old }
        ensures within { result < length self.new }
        ensures page { (row : Row) → (slice_index_or self.new result row).page ≡ page }
    {
        if let Some(k) = place_of(&self.rows, page) {
            return k;
        }
        let row = Row { page, slots: 0 };
        if let Some(k) = first_vacant(&self.rows) {
            self.rows[k] = row;
            return k;
        }
        self.rows.push_reserved(row);
        self.rows.len() - 1
    }

    /// The request of a slot lies in a page, or in none, from here on.
    pub(crate) fn add(&mut self, page: Option<u32>, slot: usize)
        requires room { position is_vacant self.old ≡ None → length self.old < 64 }
        requires slot { slot < 64 }
        requires fits { bits_in page self.old + 2 ^ slot < 2 ^ 64 }
        ensures { (other : ℕ) → bits_of other self.new ≡ bits_of other self.old + (if lies_in (Some other) page then 2 ^ slot else 0) }
    {
        let Some(page) = page else {
            return;
        };
        let k = self.claim(page);
        self.rows[k].slots += 1u64 << slot;
    }

    /// The request of a slot, which lies in a page or in none, lies in none from here on.
    pub(crate) fn remove(&mut self, page: Option<u32>, slot: usize)
        requires slot { slot < 64 }
        requires there { IfSome page (λ p. 2 ^ slot ≤ bits_of p self.old) }
        ensures { (other : ℕ) → bits_of other self.new + (if lies_in (Some other) page then 2 ^ slot else 0) ≡ bits_of other self.old }
    {
        let Some(page) = page else {
            return;
        };
        let k = place_of(&self.rows, page).unwrap();
        self.rows[k].slots -= 1u64 << slot;
    }
}

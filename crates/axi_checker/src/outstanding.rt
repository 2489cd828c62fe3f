//! The outstanding bursts of a port, the oldest first (AXI4, A5, transaction ordering).
ghost use Rattle.std.specs.Prelude.{◌≡◌, ◌+◌, ◌<◌, ◌≤◌, [], ◌∷◌, ◌++◌, ◌-◌, ◌^◌, ◌==◌, Bool, IfSome, Some, filter, find, if◌then◌else◌, length, nat_lt, option_map, position, sum_by, slice_get};
ghost use Rattle.bus_words.specs.Places.{change_first, without_first};
ghost use Rattle.axi_checker.specs.Monitors.{AreComplete};
ghost use Rattle.axi_checker.specs.OpenBursts.{lacks_data, read_of_id, reads_after, write_of_id};

use crate::entries::Entries;
use crate::id_list::IdList;
use crate::ids::Ids;
use axi_beats::{ArBeat, AwBeat};
use std::marker::Model;

/// A write without its B, and how many of its W beats came.
#[derive(Clone, Copy)]
pub struct OpenWrite {
    pub(crate) aw: AwBeat,
    pub(crate) came: u16,
}

impl Model for OpenWrite {
    ghost use Rattle.axi_checker.specs.OpenBursts.{OpenWrite};

    ghost Value = { OpenWrite };

    ghost view = { λ w. record { aw = w.aw; came = w.came } };

    ghost inverse = { λ w. record { aw = w.aw; came = w.came } };
}

/// A read without its last R, and how many of its R beats came.
#[derive(Clone, Copy)]
pub struct OpenRead {
    pub(crate) ar: ArBeat,
    pub(crate) came: u16,
}

impl Model for OpenRead {
    ghost use Rattle.axi_checker.specs.OpenBursts.{OpenRead};

    ghost Value = { OpenRead };

    ghost view = { λ r. record { ar = r.ar; came = r.came } };

    ghost inverse = { λ r. record { ar = r.ar; came = r.came } };
}

impl OpenWrite {
    /// Whether W beats of the write are still to come.
    pub(crate) fn lacks_data(&self) -> bool
        ensures { result ≡ lacks_data self.now }
    {
        self.came <= u16::from(self.aw.len)
    }
}

impl OpenRead {
    /// Whether the read's next R beat is its last.
    pub(crate) fn is_at_last(&self) -> bool
        ensures { result ≡ (self.now.came == self.now.ar.len) }
    {
        self.came == u16::from(self.ar.len)
    }
}

/// The outstanding writes, the oldest first, and beside them their IDs, so that one is found without touching the others.
#[derive(Drop)]
pub(crate) struct Writes<E: Entries<OpenWrite>, I: Ids> {
    entries: E,
    ids: IdList<I>,
    /// No write before this place lacks data.
    complete: usize,
}

impl<E: Entries<OpenWrite>, I: Ids> Model for Writes<E, I> {
    ghost use Rattle.std.specs.Prelude.{◌≡◌, ◌≤◌, map};
    ghost use Rattle.axi_checker.specs.Monitors.{AreComplete, OpenSide, id_of_write};
    ghost use Rattle.axi_checker.specs.OpenBursts.{OpenWrite};

    ghost Value = { OpenSide OpenWrite };

    ghost view = { λ w. E.side w.entries };

    ghost invariant = { λ w. (w.ids.items ≡ map id_of_write (E.side w.entries).items) × ((E.side w.entries).room ≤ w.ids.room)
        × ((E.side w.entries).room ≤ 8192) × (AreComplete (E.side w.entries).items w.complete) };
}

/// The outstanding reads, the oldest first, and beside them their IDs, and how many R beats came of all.
#[derive(Drop)]
pub(crate) struct Reads<E: Entries<OpenRead>, I: Ids> {
    entries: E,
    ids: IdList<I>,
    came: u64,
}

impl<E: Entries<OpenRead>, I: Ids> Model for Reads<E, I> {
    ghost use Rattle.std.specs.Prelude.{◌≡◌, ◌≤◌, map};
    ghost use Rattle.axi_checker.specs.Monitors.{HaveCame, OpenSide, id_of_read};
    ghost use Rattle.axi_checker.specs.OpenBursts.{OpenRead};

    ghost Value = { OpenSide OpenRead };

    ghost view = { λ r. E.side r.entries };

    ghost invariant = { λ r. (r.ids.items ≡ map id_of_read (E.side r.entries).items) × ((E.side r.entries).room ≤ r.ids.room)
        × ((E.side r.entries).room ≤ 8192) × (HaveCame (E.side r.entries).items r.came) };
}

/// What stands where no write was yet.
pub(crate) fn no_write() -> OpenWrite {
    OpenWrite {
        aw: AwBeat {
            id: 0,
            len: 0,
            size: 0,
            burst: 0,
            address: 0,
        },
        came: 0,
    }
}

/// What stands where no read was yet.
pub(crate) fn no_read() -> OpenRead {
    OpenRead {
        ar: ArBeat {
            id: 0,
            len: 0,
            size: 0,
            burst: 0,
            address: 0,
        },
        came: 0,
    }
}

/// The place of the oldest write that lacks data, where none before `complete` does: those are not looked at.
fn place_to_fill<E: Entries<OpenWrite>>(writes: &E, complete: usize) -> Option<usize>
    requires { AreComplete (E.side writes.now).items complete }
    ensures { result ≡ position lacks_data (E.side writes.now).items }
{
    for place in complete..writes.len() {
        if writes.get(place).lacks_data() {
            return Some(place);
        }
    }
    None
}

/// The place before which no write lacks data, so far `complete`, once the one at `place` lacks none.
fn past(complete: usize, place: usize) -> usize
    requires { complete < 2 ^ 63 }
    ensures { result ≡ (if place == complete then complete + 1 else complete) }
{
    if place == complete {
        complete + 1
    } else {
        complete
    }
}

/// The place before which no write lacks data, so far `complete`, once the one at `place` is gone.
fn moved(complete: usize, place: usize) -> usize
    ensures { result ≡ (if nat_lt place complete then complete - 1 else complete) }
{
    if place < complete {
        complete - 1
    } else {
        complete
    }
}

/// The entry at a place, with its place, where there is one.
fn entry_at<T: Copy, E: Entries<T>>(entries: &E, place: Option<usize>) -> Option<(usize, T)>
    requires { IfSome place (λ k. k < length (E.side entries.now).items) }
    ensures place { option_map (λ found. found.0) result ≡ place }
    ensures entry { (test : T → Bool) → place ≡ position test (E.side entries.now).items → option_map (λ found. found.1) result ≡ find test (E.side entries.now).items }
{
    match place {
        Some(place) => Some((place, entries.get(place))),
        None => None,
    }
}

/// The entry at a place, if there is one.
fn entry_of<T: Copy, E: Entries<T>>(entries: &E, place: usize) -> Option<T>
    ensures { result ≡ slice_get (E.side entries.now).items place }
{
    if place >= entries.len() {
        return None;
    }
    Some(entries.get(place))
}

impl<E: Entries<OpenWrite>, I: Ids> Writes<E, I> {
    /// None, in these rooms, which are empty: those of the IDs are as many as those of the writes, and at most 8,192.
    pub(crate) fn of(entries: E, ids: I) -> Self
        requires none { (E.side entries).items ≡ [] }
        requires no_ids { (I.side ids).items ≡ [] }
        requires room { (E.side entries).room ≤ (I.side ids).room }
        requires few { (I.side ids).room ≤ 8192 }
        ensures { result ≡ E.side entries }
    {
        let ids = IdList::of(ids);
        Writes {
            entries,
            ids,
            complete: 0,
        }
    }

    /// How many there are, at most 8,192.
    pub(crate) fn count(&self) -> usize
        ensures count { result ≡ length self.now.items }
        ensures most { result ≤ 8192 }
    {
        self.entries.len()
    }

    /// How many have this ID.
    pub(crate) fn of_id(&self, id: u8) -> usize
        ensures { result ≡ length (filter (write_of_id id) self.now.items) }
    {
        self.ids.count(id)
    }

    /// The one at a place, if there is one.
    pub(crate) fn at(&self, place: usize) -> Option<OpenWrite>
        ensures { result ≡ slice_get self.now.items place }
    {
        entry_of(&self.entries, place)
    }

    /// The oldest that lacks data, and its place.
    pub(crate) fn to_fill(&self) -> Option<(usize, OpenWrite)>
        ensures place { option_map (λ found. found.0) result ≡ position lacks_data self.now.items }
        ensures write { option_map (λ found. found.1) result ≡ find lacks_data self.now.items }
    {
        entry_at(&self.entries, place_to_fill(&self.entries, self.complete))
    }

    /// The oldest of an ID, and its place.
    pub(crate) fn oldest(&self, id: u8) -> Option<(usize, OpenWrite)>
        ensures place { option_map (λ found. found.0) result ≡ position (write_of_id id) self.now.items }
        ensures write { option_map (λ found. found.1) result ≡ find (write_of_id id) self.now.items }
    {
        entry_at(&self.entries, self.ids.first(id))
    }

    /// Appends a write of which so many beats came, for which there is room.
    fn push(&mut self, aw: AwBeat, came: u16)
        requires { length self.old.items < self.old.room }
        ensures items { self.new.items ≡ self.old.items ++ record { aw = aw; came = came } ∷ [] }
        ensures room { self.new.room ≡ self.old.room }
    {
        self.entries.push(OpenWrite { aw, came });
        self.ids.push(aw.id);
    }

    /// Appends a write, for which there is room.
    pub(crate) fn add(&mut self, aw: AwBeat)
        requires { length self.old.items < self.old.room }
        ensures items { self.new.items ≡ self.old.items ++ record { aw = aw; came = 0 } ∷ [] }
        ensures room { self.new.room ≡ self.old.room }
    {
        self.push(aw, 0);
    }

    /// Appends a write all of whose data came, for which there is room.
    pub(crate) fn add_whole(&mut self, aw: AwBeat)
        requires { length self.old.items < self.old.room }
        ensures items { self.new.items ≡ self.old.items ++ record { aw = aw; came = aw.len + 1 } ∷ [] }
        ensures room { self.new.room ≡ self.old.room }
    {
        let place = self.entries.len();
        self.push(aw, u16::from(aw.len) + 1);
        self.complete = past(self.complete, place);
    }

    /// Counts a W beat of the oldest write that lacks data, which is at `place`.
    pub(crate) fn fill(&mut self, place: usize)
        requires { position lacks_data self.old.items ≡ Some place }
        ensures items { self.new.items ≡ change_first lacks_data (λ write. record write { came = write.came + 1 }) self.old.items }
        ensures room { self.new.room ≡ self.old.room }
    {
        let write = self.entries.get(place);
        let filled = OpenWrite {
            came: write.came + 1,
            ..write
        };
        self.entries.put(place, filled);
        if filled.lacks_data() {
            return;
        }
        self.complete = past(self.complete, place);
    }

    /// Closes the oldest write of an ID, which is at `place`.
    pub(crate) fn close(&mut self, id: u8, place: usize)
        requires { position (write_of_id id) self.old.items ≡ Some place }
        ensures items { self.new.items ≡ without_first (write_of_id id) self.old.items }
        ensures room { self.new.room ≡ self.old.room }
    {
        let _ = id;
        self.entries.remove(place);
        self.ids.remove(place);
        self.complete = moved(self.complete, place);
    }

    /// None any more.
    pub(crate) fn clear(&mut self)
        ensures { self.new ≡ record self.old { items = [] } }
    {
        self.entries.clear();
        self.ids.clear();
        self.complete = 0;
    }
}

impl<E: Entries<OpenRead>, I: Ids> Reads<E, I> {
    /// None, in these rooms, which are empty: those of the IDs are as many as those of the reads, and at most 8,192.
    pub(crate) fn of(entries: E, ids: I) -> Self
        requires none { (E.side entries).items ≡ [] }
        requires no_ids { (I.side ids).items ≡ [] }
        requires room { (E.side entries).room ≤ (I.side ids).room }
        requires few { (I.side ids).room ≤ 8192 }
        ensures { result ≡ E.side entries }
    {
        let ids = IdList::of(ids);
        Reads {
            entries,
            ids,
            came: 0,
        }
    }

    /// How many there are, at most 8,192.
    pub(crate) fn count(&self) -> usize
        ensures count { result ≡ length self.now.items }
        ensures most { result ≤ 8192 }
    {
        self.entries.len()
    }

    /// The one at a place, if there is one.
    pub(crate) fn at(&self, place: usize) -> Option<OpenRead>
        ensures { result ≡ slice_get self.now.items place }
    {
        entry_of(&self.entries, place)
    }

    /// How many have this ID.
    pub(crate) fn of_id(&self, id: u8) -> usize
        ensures { result ≡ length (filter (read_of_id id) self.now.items) }
    {
        self.ids.count(id)
    }

    /// The oldest of an ID, and its place.
    pub(crate) fn oldest(&self, id: u8) -> Option<(usize, OpenRead)>
        ensures place { option_map (λ found. found.0) result ≡ position (read_of_id id) self.now.items }
        ensures read { option_map (λ found. found.1) result ≡ find (read_of_id id) self.now.items }
    {
        entry_at(&self.entries, self.ids.first(id))
    }

    /// How many R beats came of them.
    pub(crate) fn beats_came(&self) -> u64
        ensures { result ≡ sum_by (λ read. read.came) self.now.items }
    {
        self.came
    }

    /// Appends a read, for which there is room.
    pub(crate) fn add(&mut self, ar: ArBeat)
        requires { length self.old.items < self.old.room }
        ensures items { self.new.items ≡ self.old.items ++ record { ar = ar; came = 0 } ∷ [] }
        ensures room { self.new.room ≡ self.old.room }
    {
        self.entries.push(OpenRead { ar, came: 0 });
        self.ids.push(ar.id);
    }

    /// Counts an R beat of the oldest read of an ID, which is at `place`; the last one closes it.
    pub(crate) fn answer(&mut self, id: u8, place: usize)
        requires { position (read_of_id id) self.old.items ≡ Some place }
        ensures items { self.new.items ≡ reads_after id self.old.items }
        ensures room { self.new.room ≡ self.old.room }
    {
        let _ = id;
        let read = self.entries.get(place);
        if read.came < u16::from(read.ar.len) {
            self.entries.put(
                place,
                OpenRead {
                    came: read.came + 1,
                    ..read
                },
            );
            self.came += 1;
        } else {
            self.entries.remove(place);
            self.ids.remove(place);
            self.came -= u64::from(read.came);
        }
    }

    /// None any more.
    pub(crate) fn clear(&mut self)
        ensures { self.new ≡ record self.old { items = [] } }
    {
        self.entries.clear();
        self.ids.clear();
        self.came = 0;
    }
}

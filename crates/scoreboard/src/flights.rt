//! A client's requests in flight.
ghost use Rattle.std.specs.Prelude.{List, ◌≡◌, ◌≤◌, ◌==◌, ◌++◌, [], ◌∷◌, ℕ, None, Some, IfOk, false, is_some, length, map, option_and_then, slice_get};
ghost use Rattle.std.specs.List.{list_any, position};
ghost use Rattle.std.specs.Option.{option_map};
ghost use Rattle.std.specs.Vec.{vec_capacity};
ghost use Rattle.bus_words.specs.Places.{without_first};
ghost use Rattle.scoreboard.specs.Boards.{wrong_reply};
ghost use Rattle.scoreboard.specs.FailedBursts.{after_reached, hit_flight};
ghost use Rattle.scoreboard.specs.Flights.{begun_after, begun_for, due_to, each_flight, in_flight, is_busy, is_of_source, is_over, next_reply, no_flights, replies_left};
ghost use Rattle.serial_memory.specs.SerialMemory.{doubts_of, rooms_of};
ghost use Rattle.scoreboard.specs.InsideBoards.{HaveRoomToWrite, IsMarkedAlone, flights_of, footprint_of};
ghost use Rattle.scoreboard.specs.Races.{beside_all, beside_dependent, flight_beside};
ghost use Rattle.scoreboard.specs.Replies.{DuesHaveRoom, due_flights, due_footprint};
ghost use Rattle.scoreboard.specs.Telling.{left_telling};
ghost use Rattle.scoreboard.specs.Views.{view_of};
ghost use Rattle.tl_messages.specs.declared.DBeat.{DBeat};

use crate::failed_bursts::{Reach, Span};
use crate::footprint::Footprint;
use crate::in_flight::{InFlight, left_telling};
use crate::marks::{mark_dependent, mark_reached};
use crate::replies::Replies;
use crate::views::{ReplyView, left_view};
use crate::{Policy, ReplyRule, Telling, Wrong};
use serial_memory::SerialMemory;
use std::alloc::{AllocError, Global};
use std::marker::Model;
use tl_messages::DBeat;

/// How many requests may be due: one of each source.
const MOST: usize = 256;

/// A request of whose reply no beat came: its source and its footprint.
pub(crate) struct Due {
    source: u8,
    footprint: Footprint,
}

// Written out, so that what lets go of one calls this, and proves nothing of its parts.
impl Drop for Due {
    fn drop(self) {
        let Due {
            source: _,
            footprint: _,
        } = self;
    }
}

/// A client's requests in flight: those of whose reply no beat came, in order of acceptance, beside their replies; and a box for the
/// one whose reply has begun, if one has. All room is taken by `new`.
pub(crate) struct Flights {
    room: usize,
    due: Vec<Due>,
    replies: Replies,
    has_begun: bool,
    begun: InFlight,
    spare: Vec<Due>,
}

impl Model for Flights {
    ghost use Rattle.std.specs.Prelude.{◌≡◌, ◌≤◌, ◌+◌, length, map};
    ghost use Rattle.std.specs.Vec.{vec_capacity};
    ghost use Rattle.scoreboard.specs.InsideBoards.{FlightsState};
    ghost use Rattle.scoreboard.specs.Replies.{AreDue, DuesHaveRoom, due_flight, if_begun, reply_of};

    ghost Value = { FlightsState };

    ghost view = { λ f. record { room = f.room; due = map (due_flight (reply_of f.replies)) f.due.items; begun = if_begun f.has_begun f.begun } };

    // There are places enough: as many requests are due as there are sources, or fewer.
    ghost invariant = { λ f. AreDue f.room f.due.items × (length f.begun.footprint.determined ≡ f.room) × DuesHaveRoom f.room f.spare.items
        × (length f.due.items + length f.spare.items ≡ 256) × (256 ≤ vec_capacity f.due) × (256 ≤ vec_capacity f.spare) };
}

// Written out, so that what lets go of one calls this, and proves nothing of its parts.
impl Drop for Flights {
    fn drop(self) {
        let Flights {
            room: _,
            due: _,
            replies: _,
            has_begun: _,
            begun: _,
            spare: _,
        } = self;
    }
}

/// Places for so many requests, with footprints that have room for so many words.
fn spare_dues(alloc: Global, places: usize, room: usize) -> Result<Vec<Due>, AllocError>
    requires { 1 ≤ room }
    ensures { IfOk result (λ made. (length made.items ≡ places) × DuesHaveRoom room made.items × (places ≤ vec_capacity made)) }
{
    let mut made = Vec::with_capacity(alloc, places)?;
    for _ in 0..places {
        let footprint = Footprint::new(alloc, room)?;
        made.push(Due {
            source: 0,
            footprint,
        })?;
    }
    Ok(made)
}

/// The place of the first request of a source.
fn place_of(due: &[Due], source: u8) -> Option<usize>
    ensures { result ≡ position (λ one. one.source == source) due.now }
{
    due.iter().position(|one| one.source == source)
}

/// What any of some requests may write isn't determined of another.
fn limit_by(joined: &mut InFlight, due: &[Due])
    ensures footprint { footprint_of joined.new.footprint ≡ beside_all (footprint_of joined.old.footprint) (map due_footprint due.now) }
    ensures room { length joined.new.footprint.determined ≡ length joined.old.footprint.determined }
{
    for one in due {
        joined.give_way(&one.footprint);
    }
}

/// All bytes are indeterminate of those requests of which what they write may depend on another.
fn mark_each(marks: &mut SerialMemory, due: &[Due], other: &Footprint)
    requires room { HaveRoomToWrite (rooms_of marks.old) (map due_footprint due.now) }
    ensures rest { IsMarkedAlone marks.old marks.new }
    ensures bytes { doubts_of marks.new ≡ beside_dependent (doubts_of marks.old) (footprint_of other.now) (map due_footprint due.now) }
{
    for one in due {
        mark_dependent(marks, &one.footprint, other);
    }
}

/// What a request may write isn't determined of others.
fn give_way_each(due: &mut [Due], other: &Footprint)
    ensures flights { (replies : ℕ → List DBeat) → due_flights replies due.new ≡ map (flight_beside (footprint_of other.now)) (due_flights replies due.old) }
    ensures rooms { (room : ℕ) → DuesHaveRoom room due.old → DuesHaveRoom room due.new }
{
    for one in due.iter_mut() {
        one.footprint.give_way(other);
    }
}

/// What those requests may write is indeterminate that an event reaches.
fn mark_reached_each(marks: &mut SerialMemory, due: &[Due], reach: Reach)
    requires room { HaveRoomToWrite (rooms_of marks.old) (map due_footprint due.now) }
    ensures rest { IsMarkedAlone marks.old marks.new }
    ensures bytes { doubts_of marks.new ≡ after_reached (doubts_of marks.old) reach (map due_footprint due.now) }
{
    for one in due {
        mark_reached(marks, &one.footprint, reach);
    }
}

/// Those requests may have failed that share a byte with such a burst.
fn hit_each(due: &mut [Due], span: Span)
    ensures flights { (replies : ℕ → List DBeat) → due_flights replies due.new ≡ map (hit_flight span) (due_flights replies due.old) }
    ensures rooms { (room : ℕ) → DuesHaveRoom room due.old → DuesHaveRoom room due.new }
{
    for one in due.iter_mut() {
        one.footprint.hit(span);
    }
}

impl Flights {
    /// Nothing is in flight, and footprints have room for so many words. The one error is that memory was refused.
    pub(crate) fn new(alloc: Global, room: usize) -> Result<Self, AllocError>
        requires { 1 ≤ room }
        ensures { IfOk result (λ made. made ≡ record { room = room; due = []; begun = None }) }
    {
        let due = Vec::with_capacity(alloc, MOST)?;
        let replies = Replies::new(alloc)?;
        let begun = InFlight::new(alloc, room)?;
        let spare = spare_dues(alloc, MOST, room)?;
        Ok(Flights {
            room,
            due,
            replies,
            has_begun: false,
            begun,
            spare,
        })
    }

    /// The one whose reply has begun.
    fn begun(&self) -> Option<&InFlight>
        ensures { option_map (λ flight. flight.now) result ≡ self.now.begun }
    {
        if !self.has_begun {
            return None;
        }
        Some(&self.begun)
    }

    /// Whether a reply is due to a source of which no beat came.
    fn is_due(&self, source: u8) -> bool
        ensures { result ≡ list_any (is_of_source source) (flights_of self.now).due }
    {
        place_of(&self.due, source).is_some()
    }

    /// Whether a source has a live request.
    pub(crate) fn is_busy(&self, policy: Policy, source: u8) -> bool
        ensures { result ≡ is_busy policy (flights_of self.now) source }
    {
        if self.is_due(source) {
            return true;
        }
        match (policy, self.begun()) {
            (Policy::AcceptanceOrder, Some(flight)) => flight.source() == source,
            _ => false,
        }
    }

    /// Whether a reply has begun.
    pub(crate) fn has_begun(&self) -> bool
        ensures { result ≡ is_some self.now.begun }
    {
        self.has_begun
    }

    /// How many replies aren't whole.
    pub(crate) fn outstanding(&self) -> u16
        ensures count { result ≡ replies_left (flights_of self.now) }
        ensures most { result ≤ 257 }
    {
        let due = self.due.len() as u16;
        match self.begun() {
            None => due,
            Some(_) => due + 1,
        }
    }

    /// The source of a request by its place, those of whose reply no beat came before the one whose reply has begun.
    pub(crate) fn source_at(&self, place: usize) -> Option<u8>
        ensures { result ≡ slice_get (map (λ flight. flight.source) (in_flight (flights_of self.now))) place }
    {
        let due = self.due.len();
        if place < due {
            return Some(self.due[place].source);
        }
        let Some(flight) = self.begun() else {
            return None;
        };
        if place > due {
            return None;
        }
        Some(flight.source())
    }

    /// A request of a source to which none is due is in flight, with its reply; another footprint takes its footprint's place.
    pub(crate) fn join(&mut self, flight: &mut InFlight)
        requires free { list_any (is_of_source flight.old.source) (flights_of self.old).due ≡ false }
        requires room { length flight.old.footprint.determined ≡ self.old.room }
        ensures flights { self.new ≡ record self.old { due = self.old.due ++ flight.old ∷ [] } }
        ensures room { length flight.new.footprint.determined ≡ self.old.room }
    {
        // It is a byte, so that there is a place.
        let source = flight.source();
        let mut due = self.spare.pop().unwrap();
        due.source = source;
        flight.swap_footprint(&mut due.footprint);
        self.replies.put(source, flight.beats());
        self.due.push_reserved(due);
    }

    /// The reply to a source's request begins, where none has begun. The answer is whether one is due to it.
    fn begin_due(&mut self, source: u8) -> bool
        requires { self.old.begun ≡ None }
        ensures flights { flights_of self.new ≡ record { due = without_first (is_of_source source) (flights_of self.old).due; begun = due_to (flights_of self.old) source } }
        ensures begun { result ≡ is_some (due_to (flights_of self.old) source) }
        ensures none { result ≡ false → self.new ≡ self.old }
        ensures room { self.new.room ≡ self.old.room }
    {
        let Some(place) = place_of(&self.due, source) else {
            return false;
        };
        let mut due = self.due.remove(place);
        let reply = self.replies.beats(due.source);
        self.begun.begin(due.source, reply, &mut due.footprint);
        self.has_begun = true;
        self.spare.push_reserved(due);
        true
    }

    /// The reply that has its next beat in one of a source begins, if it hadn't. The answer is whether there is one.
    #[inline(always)]
    pub(crate) fn begin(&mut self, source: u8) -> bool
        ensures flights { flights_of self.new ≡ begun_for (flights_of self.old) source }
        ensures begun { result ≡ is_some (next_reply (flights_of self.old) source) }
        ensures none { result ≡ false → self.new ≡ self.old }
        ensures room { self.new.room ≡ self.old.room }
    {
        if self.has_begun() {
            return true;
        }
        self.begin_due(source)
    }

    /// A beat of a source has come of the reply that has begun.
    pub(crate) fn count(&mut self, source: u8)
        ensures flights { flights_of self.new ≡ record (flights_of self.old) { begun = begun_after (flights_of self.old).begun source } }
        ensures room { self.new.room ≡ self.old.room }
    {
        if !self.has_begun || self.begun.source() != source {
            return;
        }
        if self.begun.left() > 1 {
            self.begun.count();
            return;
        }
        self.cut_short();
    }

    /// Whether the reply that has begun is over where a beat of a source comes: it is of another, and a reply is due to this one of
    /// which no beat came.
    pub(crate) fn is_over(&self, source: u8) -> bool
        ensures { result ≡ is_over (flights_of self.now) source }
    {
        let Some(flight) = self.begun() else {
            return false;
        };
        flight.source() != source && self.is_due(source)
    }

    /// What is wrong with a beat by the reply that has begun.
    #[inline(always)]
    pub(crate) fn wrong_begun(
        &self,
        policy: Policy,
        told: Option<bool>,
        beat: &DBeat,
    ) -> Option<Wrong>
        ensures { result ≡ wrong_reply policy told (flights_of self.now).begun beat.now }
    {
        let Some(flight) = self.begun() else {
            return Some(Wrong::Reply(ReplyRule::Unasked, None));
        };
        flight.wrong_reply(policy, told, beat)
    }

    /// The reply that has begun is over, though beats of it are missing.
    pub(crate) fn cut_short(&mut self)
        ensures flights { flights_of self.new ≡ record (flights_of self.old) { begun = None } }
        ensures room { self.new.room ≡ self.old.room }
    {
        self.has_begun = false;
    }

    /// What any of them may write isn't determined of another request.
    pub(crate) fn limit(&self, joined: &mut InFlight)
        ensures footprint { footprint_of joined.new.footprint ≡ beside_all (footprint_of joined.old.footprint) (map (λ flight. flight.footprint) (in_flight (flights_of self.now))) }
        ensures room { length joined.new.footprint.determined ≡ length joined.old.footprint.determined }
    {
        limit_by(joined, &self.due);
        if let Some(flight) = self.begun() {
            joined.give_way(flight.footprint());
        }
    }

    /// All bytes are indeterminate of those of which what they write may depend on another.
    pub(crate) fn mark(&self, marks: &mut SerialMemory, other: &Footprint)
        requires room { HaveRoomToWrite (rooms_of marks.old) (map (λ flight. flight.footprint) (in_flight (flights_of self.now))) }
        ensures rest { IsMarkedAlone marks.old marks.new }
        ensures bytes { doubts_of marks.new ≡ beside_dependent (doubts_of marks.old) (footprint_of other.now) (map (λ flight. flight.footprint) (in_flight (flights_of self.now))) }
    {
        mark_each(marks, &self.due, other);
        if let Some(flight) = self.begun() {
            mark_dependent(marks, flight.footprint(), other);
        }
    }

    /// What a request may write isn't determined of them.
    pub(crate) fn give_way(&mut self, other: &Footprint)
        ensures flights { flights_of self.new ≡ each_flight (flight_beside (footprint_of other.now)) (flights_of self.old) }
        ensures room { self.new.room ≡ self.old.room }
    {
        give_way_each(&mut self.due, other);
        if self.has_begun {
            self.begun.give_way(other);
        }
    }

    /// What those may write is indeterminate that an event reaches.
    pub(crate) fn mark_reached(&self, marks: &mut SerialMemory, reach: Reach)
        requires room { HaveRoomToWrite (rooms_of marks.old) (map (λ flight. flight.footprint) (in_flight (flights_of self.now))) }
        ensures rest { IsMarkedAlone marks.old marks.new }
        ensures bytes { doubts_of marks.new ≡ after_reached (doubts_of marks.old) reach (map (λ flight. flight.footprint) (in_flight (flights_of self.now))) }
    {
        mark_reached_each(marks, &self.due, reach);
        if let Some(flight) = self.begun() {
            mark_reached(marks, flight.footprint(), reach);
        }
    }

    /// Those may have failed that share a byte with such a burst.
    pub(crate) fn hit(&mut self, span: Span)
        ensures flights { flights_of self.new ≡ each_flight (hit_flight span) (flights_of self.old) }
        ensures room { self.new.room ≡ self.old.room }
    {
        hit_each(&mut self.due, span);
        if self.has_begun {
            self.begun.hit(span);
        }
    }

    /// Nothing is in flight any more.
    pub(crate) fn clear(&mut self)
        ensures flights { flights_of self.new ≡ no_flights }
        ensures room { self.new.room ≡ self.old.room }
    {
        self.cut_short();
        while let Some(due) = self.due.pop() {
            self.spare.push_reserved(due);
        }
    }

    /// How much a beat of a source tells, where a reply has its next beat there.
    #[inline(always)]
    pub(crate) fn telling(&self, policy: Policy, source: u8) -> Option<Telling>
        ensures { result ≡ option_map (λ flight. left_telling policy flight.footprint flight.beats) (next_reply (flights_of self.now) source) }
    {
        if let Some(flight) = self.begun() {
            return Some(flight.telling(policy));
        }
        let place = place_of(&self.due, source)?;
        let due = &self.due[place];
        let beats = self.replies.beats(due.source);
        Some(left_telling(policy, &due.footprint, beats))
    }

    /// What is seen of the reply that has begun, if one has.
    #[inline(always)]
    pub(crate) fn begun_view(&self) -> Option<ReplyView>
        ensures { result ≡ option_and_then view_of (flights_of self.now).begun }
    {
        let flight = self.begun()?;
        flight.view()
    }

    /// What is seen of the reply that is due to a source, if one is of which no beat came.
    #[inline(always)]
    pub(crate) fn due_view(&self, source: u8) -> Option<ReplyView>
        ensures { result ≡ option_and_then view_of (due_to (flights_of self.now) source) }
    {
        let place = place_of(&self.due, source)?;
        let due = &self.due[place];
        let beats = self.replies.beats(due.source);
        left_view(&due.footprint, beats)
    }
}

//! A client as a scoreboard sees it: what it has begun to ask, and its requests in flight.
ghost use Rattle.std.specs.Prelude.{◌≡◌, ◌≤◌, None, Ok, Some, IfOk, false, is_some, length, map, slice_get, true};
ghost use Rattle.std.specs.List.{list_any};
ghost use Rattle.tl_messages.specs.Requests.{HeldMessage, request_of};
ghost use Rattle.tl_checker.specs.Ports.{joined};
ghost use Rattle.tl_checker.specs.declared.Progress.TheVariants.{More, Whole};
ghost use Rattle.score_setup.specs.ScoreSetups.{is_valid_to_score, limits_of};
ghost use Rattle.scoreboard.specs.Boards.{answer_to, client_after, client_beside, client_cut, client_footprints, early_left, has_replied, hit_client, is_spoiled, kept_from, next_to, opening_client, told_to, with_whole, wrong_reply};
ghost use Rattle.scoreboard.specs.FailedBursts.{after_reached};
ghost use Rattle.scoreboard.specs.Flights.{in_flight, is_of_source, is_over, next_reply, replies_left};
ghost use Rattle.serial_memory.specs.SerialMemory.{IsCheckedRequest, doubts_of, rooms_of};
ghost use Rattle.scoreboard.specs.InsideBoards.{HaveRoomToWrite, IsAskedBy, IsFirstBeat, IsMarkedAlone, client_of, early_of, flight_of, flights_of, footprint_of, front_after};
ghost use Rattle.scoreboard.specs.Races.{beside_all, beside_dependent, unless_failed};
ghost use Rattle.scoreboard.specs.Resets.{reset_client};
ghost use Rattle.scoreboard.specs.Telling.{flight_telling};
ghost use Rattle.scoreboard.specs.Unanswered.{source_begun};
ghost use Rattle.scoreboard.specs.Views.{begun_view, due_view, early_view};

use crate::failed_bursts::{Reach, Span};
use crate::flights::Flights;
use crate::footprint::Footprint;
use crate::in_flight::{InFlight, wrong_told};
use crate::marks::{mark_dependent, mark_reached};
use crate::views::{ReplyView, left_view};
use crate::{Errors, Policy, ReplyRule, Telling, Wrong};
use score_setup::ScoreConfig;
use serial_memory::SerialMemory;
use std::alloc::{AllocError, Global};
use std::marker::Model;
use tl_checker::{Port, Progress, TlRule};
use tl_messages::{ABeat, DBeat, Request};

/// A client: its port, its requests in flight, the source of the message that has begun, if one has, and whether a beat of it was
/// corrupt; the footprint of that message, which is kept where requests take effect in real time, and the beat of its reply that may
/// come before it is whole, where errors may be told in any way; and whether the first beat of the reply that began last was denied.
pub(crate) struct Client {
    port: Port,
    flights: Flights,
    begun: Option<u8>,
    corrupt: bool,
    coming: Footprint,
    early: Option<DBeat>,
    told: bool,
}

impl Model for Client {
    ghost use Rattle.std.specs.Prelude.{◌≡◌, ◌≤◌, None, length, option_map};
    ghost use Rattle.scoreboard.specs.InsideBoards.{ClientState, IsFrontFree, flights_of, front_corrupt};

    ghost Value = { ClientState };

    ghost view = { λ c. record { limits = c.port.limits; front = c.port.front; flights = c.flights; coming = c.coming; early = c.early; told = c.told } };

    // No whole request stands, so that the next beat may come, and a message that has begun is of a free source.
    ghost invariant = { λ c. (c.port.whole ≡ None) × (c.port.limits.max_size ≤ 12) × IsFrontFree c.port.front (flights_of c.flights)
        × (c.begun ≡ option_map (λ message. message.source) c.port.front) × (length c.coming.determined ≡ c.flights.room) × (c.corrupt ≡ front_corrupt c.port.front) };
}

// Written out, so that what lets go of one calls this, and proves nothing of its parts.
impl Drop for Client {
    fn drop(self) {
        let Client {
            port: _,
            flights: _,
            begun: _,
            corrupt: _,
            coming: _,
            early: _,
            told: _,
        } = self;
    }
}

impl Client {
    /// A client of these limits, of which nothing was observed, with room for so many words in each footprint. The one error is that
    /// memory was refused.
    pub(crate) fn new(
        alloc: Global,
        config: &ScoreConfig,
        client: u8,
        room: usize,
    ) -> Result<Self, AllocError>
        requires valid { is_valid_to_score (limits_of config.now) ≡ true }
        requires room { 1 ≤ room }
        ensures { IfOk result (λ made. (client_of made ≡ opening_client (limits_of config.now) client) × (made.flights.room ≡ room)) }
    {
        let level = config.level_of(client);
        let port = Port::new(alloc, client, level, config.max_size)?;
        let flights = Flights::new(alloc, room)?;
        let coming = Footprint::new(alloc, room)?;
        Ok(Client {
            port,
            flights,
            begun: None,
            corrupt: false,
            coming,
            early: None,
            told: false,
        })
    }

    /// How many of its accepted requests have a reply that isn't whole.
    pub(crate) fn outstanding(&self) -> u16
        ensures count { result ≡ replies_left (flights_of self.now.flights) }
        ensures most { result ≤ 257 }
    {
        self.flights.outstanding()
    }

    /// The source of an accepted request whose reply isn't whole, by its place.
    pub(crate) fn source_at(&self, place: usize) -> Option<u8>
        ensures { result ≡ slice_get (map (λ flight. flight.source) (in_flight (flights_of self.now.flights))) place }
    {
        self.flights.source_at(place)
    }

    /// Whether a message has begun.
    pub(crate) fn has_begun(&self) -> bool
        ensures { result ≡ is_some self.now.front }
    {
        self.begun.is_some()
    }

    /// The source of the message that has begun and isn't whole, if there is one.
    pub(crate) fn source_begun(&self) -> Option<u8>
        ensures { result ≡ source_begun (Some (client_of self.now)) }
    {
        self.begun
    }

    /// What its port answers to a beat on channel A.
    pub(crate) fn judge(&self, policy: Policy, beat: &ABeat) -> Result<Progress, TlRule>
        ensures { result ≡ answer_to policy (client_of self.now) beat.now }
    {
        self.port
            .judge(beat, self.flights.is_busy(policy, beat.source))
    }

    /// Takes a beat on channel A, to which its port gave this answer. Where it makes a request whole, this is put into `request`.
    pub(crate) fn take_beat(
        &mut self,
        policy: Policy,
        beat: &ABeat,
        progress: Progress,
        request: &mut Request,
    )
        requires { answer_to policy (client_of self.old) beat.now ≡ Ok progress }
        ensures client { self.new ≡ record self.old { front = front_after self.old.front (joined self.old.limits self.old.front beat.now) (Ok progress) } }
        ensures request { progress ≡ Whole → request.new ≡ joined self.old.limits self.old.front beat.now }
        ensures checked { progress ≡ Whole → IsCheckedRequest request.new }
        ensures asked { progress ≡ Whole → IsAskedBy request.new beat.now }
        ensures free { progress ≡ Whole → list_any (is_of_source request.new.source) (flights_of self.old.flights).due ≡ false }
        ensures first { self.old.front ≡ None → progress ≡ More → IsFirstBeat beat.now }
    {
        let busy = self.flights.is_busy(policy, beat.source);
        self.port.take_judged(beat, busy, progress);
        match progress {
            Progress::More => {
                self.begun = self.begun.or(Some(beat.source));
                self.corrupt |= beat.corrupt;
            }
            Progress::Whole => {
                self.begun = None;
                self.corrupt = false;
                self.port.take_whole(request);
            }
        }
    }

    /// A request of a source to which no reply is due is in flight, and none has begun any more; a box takes its place. One whose reply
    /// came before has ended.
    pub(crate) fn join(&mut self, flight: &mut InFlight, replied: bool)
        requires free { list_any (is_of_source flight.old.source) (flights_of self.old.flights).due ≡ false }
        requires room { length flight.old.footprint.determined ≡ self.old.flights.room }
        requires front { self.old.front ≡ None }
        ensures client { client_of self.new ≡ with_whole replied (flight_of flight.old) (client_of self.old) }
        ensures own_room { self.new.flights.room ≡ self.old.flights.room }
        ensures room { length flight.new.footprint.determined ≡ self.old.flights.room }
    {
        self.coming.clear();
        self.early = None;
        if replied {
            return;
        }
        self.flights.join(flight);
    }

    /// A request begins with this footprint, and this beat of its reply may come early; the footprint of another one takes its place.
    pub(crate) fn begin(&mut self, flight: &mut InFlight, early: Option<DBeat>)
        requires room { length flight.old.footprint.determined ≡ self.old.flights.room }
        ensures client { self.new ≡ record self.old { coming = flight.old.footprint; early = early } }
        ensures room { length flight.new.footprint.determined ≡ self.old.flights.room }
    {
        flight.swap_footprint(&mut self.coming);
        self.early = early;
    }

    /// The request that has begun has failed where a beat of it was corrupt, and errors may be told in any way.
    pub(crate) fn go_on(&mut self, errors: Errors)
        ensures client { (message : HeldMessage) → self.old.front ≡ Some message
            → client_of self.new ≡ record (client_of self.old) { coming = unless_failed (is_spoiled errors (request_of message)) (footprint_of self.old.coming) } }
        ensures rest { self.new ≡ record self.old { coming = record self.old.coming { failed = self.new.coming.failed; determined = self.new.coming.determined } } }
    {
        self.coming.fail_if(errors == Errors::Any && self.corrupt);
    }

    /// Whether the reply to the request that has begun came already.
    pub(crate) fn has_replied(&self, errors: Errors) -> bool
        ensures { result ≡ has_replied errors (client_of self.now) }
    {
        errors == Errors::Any && self.early.is_none()
    }

    /// Of the request that had begun and is whole now, only those bytes stay determined that were so all the while; if it had failed, it
    /// has.
    pub(crate) fn keep(&self, flight: &mut InFlight)
        ensures footprint { footprint_of flight.new.footprint ≡ kept_from (footprint_of self.now.coming) (footprint_of flight.old.footprint) }
        ensures room { length flight.new.footprint.determined ≡ length flight.old.footprint.determined }
    {
        flight.keep(&self.coming);
    }

    /// Whether the reply that has begun was denied in its first beat, if one has begun.
    fn told(&self) -> Option<bool>
        ensures { result ≡ told_to (client_of self.now) }
    {
        if !self.flights.has_begun() {
            return None;
        }
        Some(self.told)
    }

    /// The beat that may come early, if it is of a source: it has come now.
    fn take_early(&mut self, source: u8) -> Option<DBeat>
        ensures due { result ≡ early_of self.old.early source }
        ensures left { self.new ≡ record self.old { early = early_left self.old.early source } }
    {
        let due = self.early?;
        if due.source != source {
            return None;
        }
        self.early = None;
        Some(due)
    }

    /// Judges a beat that is no next one of a reply in flight: it may come early.
    #[inline(never)]
    fn judge_early(&mut self, policy: Policy, told: Option<bool>, beat: &DBeat) -> Option<Wrong>
        requires { next_reply (flights_of self.old.flights) beat.now.source ≡ None }
        ensures wrong { result ≡ wrong_reply policy told (next_to policy (client_of self.old) beat.now.source) beat.now }
        ensures left { self.new ≡ record self.old { early = early_left self.old.early beat.now.source } }
    {
        match (policy, self.take_early(beat.source)) {
            (Policy::RealTime, Some(due)) => wrong_told(&self.coming, told, 1, &due, beat),
            _ => Some(Wrong::Reply(ReplyRule::Unasked, None)),
        }
    }

    /// Judges a beat on channel D, which then has come of the reply whose next it may be.
    #[inline(always)]
    fn take_reply(&mut self, policy: Policy, beat: &DBeat) -> Option<Wrong>
        ensures wrong { result ≡ wrong_reply policy (told_to (client_of self.old)) (next_to policy (client_of self.old) beat.now.source) beat.now }
        ensures state { client_of self.new ≡ client_after beat.now (client_of self.old) }
        ensures room { self.new.flights.room ≡ self.old.flights.room }
    {
        let told = self.told();
        self.told = told.unwrap_or(beat.denied);
        if !self.flights.begin(beat.source) {
            return self.judge_early(policy, told, beat);
        }
        let wrong = self.flights.wrong_begun(policy, told, beat);
        self.flights.count(beat.source);
        wrong
    }

    /// Judges a beat on channel D. Where the reply that has begun is over with it, as it is the first of another, that one begins.
    #[inline(always)]
    pub(crate) fn judge_reply(&mut self, policy: Policy, beat: &DBeat) -> Option<Wrong>
        ensures wrong { result ≡ wrong_reply policy (told_to (client_of self.old)) (next_to policy (client_of self.old) beat.now.source) beat.now }
        ensures state { client_of self.new ≡ client_after beat.now (client_cut beat.now.source (client_of self.old)) }
        ensures room { self.new.flights.room ≡ self.old.flights.room }
    {
        if !self.flights.is_over(beat.source) {
            return self.take_reply(policy, beat);
        }
        self.judge_cut(policy, beat)
    }

    /// The same where that is so. It is apart, since it is always wrong.
    #[inline(never)]
    fn judge_cut(&mut self, policy: Policy, beat: &DBeat) -> Option<Wrong>
        requires over { is_over (flights_of self.old.flights) beat.now.source ≡ true }
        ensures wrong { result ≡ wrong_reply policy (told_to (client_of self.old)) (next_to policy (client_of self.old) beat.now.source) beat.now }
        ensures state { client_of self.new ≡ client_after beat.now (client_cut beat.now.source (client_of self.old)) }
        ensures room { self.new.flights.room ≡ self.old.flights.room }
    {
        let wrong = self.flights.wrong_begun(policy, self.told(), beat);
        self.flights.cut_short();
        let _first = self.take_reply(policy, beat);
        wrong
    }

    /// What any of its requests may write, in flight or begun, isn't determined of another request.
    pub(crate) fn limit(&self, joined: &mut InFlight)
        ensures footprint { footprint_of joined.new.footprint ≡ beside_all (footprint_of joined.old.footprint) (client_footprints (client_of self.now)) }
        ensures room { length joined.new.footprint.determined ≡ length joined.old.footprint.determined }
    {
        self.flights.limit(joined);
        joined.give_way(&self.coming);
    }

    /// All bytes are indeterminate of those of its requests, in flight or begun, of which what they write may depend on another.
    pub(crate) fn mark(&self, marks: &mut SerialMemory, other: &Footprint)
        requires room { HaveRoomToWrite (rooms_of marks.old) (client_footprints (client_of self.now)) }
        ensures rest { IsMarkedAlone marks.old marks.new }
        ensures bytes { doubts_of marks.new ≡ beside_dependent (doubts_of marks.old) (footprint_of other.now) (client_footprints (client_of self.now)) }
    {
        self.flights.mark(marks, other);
        mark_dependent(marks, &self.coming, other);
    }

    /// What a request may write isn't determined of its requests, in flight or begun.
    pub(crate) fn give_way(&mut self, other: &Footprint)
        ensures client { client_of self.new ≡ client_beside (footprint_of other.now) (client_of self.old) }
        ensures room { self.new.flights.room ≡ self.old.flights.room }
    {
        self.flights.give_way(other);
        self.coming.give_way(other);
    }

    /// What those of its requests may write, in flight or begun, is indeterminate that an event reaches.
    pub(crate) fn mark_reached(&self, marks: &mut SerialMemory, reach: Reach)
        requires room { HaveRoomToWrite (rooms_of marks.old) (client_footprints (client_of self.now)) }
        ensures rest { IsMarkedAlone marks.old marks.new }
        ensures bytes { doubts_of marks.new ≡ after_reached (doubts_of marks.old) reach (client_footprints (client_of self.now)) }
    {
        self.flights.mark_reached(marks, reach);
        mark_reached(marks, &self.coming, reach);
    }

    /// Those of its requests, in flight or begun, may have failed that share a byte with such a burst.
    pub(crate) fn hit(&mut self, span: Span)
        ensures client { client_of self.new ≡ hit_client span (client_of self.old) }
        ensures room { self.new.flights.room ≡ self.old.flights.room }
    {
        self.flights.hit(span);
        self.coming.hit(span);
    }

    /// It has begun nothing, and nothing of it is in flight any more.
    pub(crate) fn reset(&mut self)
        ensures client { client_of self.new ≡ reset_client (client_of self.old) }
        ensures room { self.new.flights.room ≡ self.old.flights.room }
    {
        self.port.clear_whole();
        self.flights.clear();
        self.begun = None;
        self.corrupt = false;
        self.coming.clear();
        self.early = None;
        self.told = false;
    }

    /// How much a beat of a source on channel D tells.
    #[inline(always)]
    pub(crate) fn telling(&self, policy: Policy, source: u8) -> Telling
        ensures { result ≡ flight_telling policy (next_to policy (client_of self.now) source) }
    {
        if let Some(telling) = self.flights.telling(policy, source) {
            return telling;
        }
        match (policy, self.early) {
            (Policy::RealTime, Some(due)) if due.source == source => {
                Telling::of_due(policy, &self.coming, 1, &due)
            }
            _ => Telling::nothing(),
        }
    }

    /// What is seen of the reply that has begun, if one has.
    #[inline(always)]
    pub(crate) fn begun_view(&self) -> Option<ReplyView>
        ensures { result ≡ begun_view (Some (client_of self.now)) }
    {
        self.flights.begun_view()
    }

    /// What is seen of the reply that is due to a source, if one is of which no beat came.
    #[inline(always)]
    pub(crate) fn due_view(&self, source: u8) -> Option<ReplyView>
        ensures { result ≡ due_view (Some (client_of self.now)) source }
    {
        self.flights.due_view(source)
    }

    /// What is seen of the reply that may come early to a source.
    #[inline(always)]
    pub(crate) fn early_view(&self, source: u8) -> Option<ReplyView>
        ensures { result ≡ early_view (Some (client_of self.now)) source }
    {
        let due = self.early?;
        if due.source != source {
            return None;
        }
        left_view(&self.coming, &[due])
    }

    /// Whether the reply that has begun is over where a beat of a source comes.
    #[inline(always)]
    pub(crate) fn is_over(&self, source: u8) -> bool
        ensures { result ≡ is_over (client_of self.now).flights source }
    {
        self.flights.is_over(source)
    }
}

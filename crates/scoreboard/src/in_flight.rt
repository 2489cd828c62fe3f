//! A request in flight, with its reply.
ghost use Rattle.std.specs.Prelude.{◌≡◌, ◌≤◌, ◌<◌, ◌-◌, Some, IfOk, IfSome, drop, false, length, slice_get, true};
ghost use Rattle.std.specs.Option.{option_copied};
ghost use Rattle.bus_words.specs.Tables.{first_broken};
ghost use Rattle.tl_messages.specs.Operations.{beats_of};
ghost use Rattle.tl_messages.specs.Requests.{request_of};
ghost use Rattle.responses.specs.Shown.{shown};
ghost use Rattle.scoreboard.specs.Boards.{differs_in, due_beat, is_payload, kept_from, reply_rules, tells_error, tells_otherwise, unless_indeterminate, wrong_by, wrong_reply};
ghost use Rattle.scoreboard.specs.FailedBursts.{hit_flight};
ghost use Rattle.scoreboard.specs.Flights.{no_footprint};
ghost use Rattle.scoreboard.specs.InTurn.{unless_fixed};
ghost use Rattle.serial_memory.specs.SerialMemory.{HasRoomToGive, IsCheckedRequest, IsMemoryRange, carried_out, doubts_of, meaning_in, memory_of, rooms_of};
ghost use Rattle.scoreboard.specs.InsideBoards.{fails_by, flight_of, footprint_of, words_of};
ghost use Rattle.scoreboard.specs.Races.{alone, flight_beside, unless_failed};
ghost use Rattle.scoreboard.specs.Telling.{left_telling};
ghost use Rattle.scoreboard.specs.Views.{view_of};

use crate::failed_bursts::Span;
use crate::footprint::Footprint;
use crate::in_turn::wrong_in_turn;
use crate::views::{ReplyView, left_view};
use crate::{Errors, Policy, ReplyRule, Telling, Wrong};
use bus_words::{has_lane, lane_byte};
use serial_memory::SerialMemory;
use std::alloc::{AllocError, Global};
use std::marker::Model;
use std::mem;
use tl_messages::{DBeat, ReplyBox, Request, beats_of};

/// A request in flight: its source, the beats of its reply, of which some may have come, and its footprint.
pub(crate) struct InFlight {
    source: u8,
    reply: ReplyBox,
    came: u16,
    footprint: Footprint,
}

impl Model for InFlight {
    ghost use Rattle.std.specs.Prelude.{◌<◌, ◌≤◌, drop, length};
    ghost use Rattle.scoreboard.specs.InsideBoards.{FlightState};

    ghost Value = { FlightState };

    ghost view = { λ f. record { source = f.source; beats = drop f.came f.reply; footprint = f.footprint } };

    ghost invariant = { λ f. (f.came ≤ length f.reply) × (length f.reply ≤ 512) × (f.source < 256) };
}

// Written out, so that what lets go of one calls this, and proves nothing of its parts.
impl Drop for InFlight {
    fn drop(self) {
        let InFlight {
            source: _,
            reply: _,
            came: _,
            footprint: _,
        } = self;
    }
}

/// How a beat differs from the one that is due.
pub(crate) fn difference(due: &DBeat, beat: &DBeat) -> Option<ReplyRule>
    ensures { result ≡ first_broken (reply_rules due.now beat.now) }
{
    if beat.source != due.source {
        return Some(ReplyRule::Interleaved);
    }
    if beat.opcode != due.opcode || beat.param != due.param {
        return Some(ReplyRule::Opcode);
    }
    if beat.size != due.size {
        return Some(ReplyRule::Size);
    }
    if beat.denied != due.denied {
        return Some(ReplyRule::Denied);
    }
    if beat.corrupt != due.corrupt {
        return Some(ReplyRule::Corrupt);
    }
    if beat.payload != due.payload {
        return Some(ReplyRule::Payload);
    }
    None
}

/// Whether lane `lane` of beat `k` of a reply tells of a determined byte, and two payloads differ there.
fn differs_in(footprint: &Footprint, k: u16, due: u64, payload: u64, lane: u8) -> bool
    requires { lane < 8 }
    ensures { result ≡ differs_in (footprint_of footprint.now) k due payload lane }
{
    if u32::from(k) >= footprint.words() {
        return false;
    }
    let determined = footprint.determined_in(footprint.word_at(u32::from(k)));
    has_lane(determined, lane) && lane_byte(due, lane) != lane_byte(payload, lane)
}

/// Whether a beat, as beat `k` of a reply, tells of a determined byte something else than the one that is due: beats without data
/// tell of none.
fn tells_otherwise(footprint: &Footprint, k: u16, due: &DBeat, beat: &DBeat) -> bool
    ensures { result ≡ tells_otherwise (footprint_of footprint.now) k due.now beat.now }
{
    if !footprint.reads() || due.opcode != 1 || due.corrupt {
        return false;
    }
    for lane in 0..8u8 {
        if differs_in(footprint, k, due.payload, beat.payload, lane) {
            return true;
        }
    }
    false
}

/// Whether a rule is the one on payloads.
pub(crate) fn is_payload(rule: ReplyRule) -> bool
    ensures { result ≡ is_payload rule }
{
    matches!(rule, ReplyRule::Payload)
}

/// The beat that is due, as a request that has failed may show it to the one that came; else itself.
fn due_beat(failed: bool, told: Option<bool>, due: &DBeat, beat: &DBeat) -> DBeat
    ensures { result ≡ due_beat failed told due.now beat.now }
{
    if !failed {
        return *due;
    }
    let denied = told.unwrap_or(beat.denied);
    DBeat {
        denied,
        corrupt: due.opcode == 1 && (denied || beat.corrupt),
        payload: beat.payload,
        ..*due
    }
}

/// Whether one of some beats tells an error.
fn tells_error(beats: &[DBeat]) -> bool
    ensures { result ≡ tells_error beats.now }
{
    beats.iter().any(|beat| beat.denied || beat.corrupt)
}

/// Which beat of a reply, from 0, is its next, where so many are left.
pub(crate) fn beat_number(footprint: &Footprint, left: u16) -> u16
    ensures { result ≡ beats_of footprint.now.size true - left }
{
    beats_of(footprint.size(), true).saturating_sub(left)
}

/// How much the first of these beats tells, which are left of the reply to a request with this footprint; nothing, where there is none.
#[inline(always)]
pub(crate) fn left_telling(policy: Policy, footprint: &Footprint, beats: &[DBeat]) -> Telling
    requires { length beats.now ≤ 512 }
    ensures { result ≡ left_telling policy (footprint_of footprint.now) beats.now }
{
    match beats.first() {
        None => Telling::nothing(),
        Some(due) => Telling::of_due(policy, footprint, beats.len() as u16, due),
    }
}

/// A box holds these beats.
fn fill(reply: &mut ReplyBox, beats: &[DBeat])
    requires { length beats.now ≤ 512 }
    ensures { reply.new ≡ beats.now }
{
    reply.clear();
    for beat in beats {
        reply.push(*beat);
    }
}

/// What is wrong with a beat where another is due of the reply to a request with this footprint, of which so many are left, and requests
/// take effect in real time.
#[inline(never)]
pub(crate) fn wrong_told(
    footprint: &Footprint,
    told: Option<bool>,
    left: u16,
    due: &DBeat,
    beat: &DBeat,
) -> Option<Wrong>
    ensures { result ≡ wrong_by (due_beat footprint.now.failed told due.now beat.now)
        (unless_indeterminate (tells_otherwise (footprint_of footprint.now) (beats_of footprint.now.size true - left) due.now beat.now)
        (first_broken (reply_rules (due_beat footprint.now.failed told due.now beat.now) beat.now))) }
{
    let shown = due_beat(footprint.failed(), told, due, beat);
    let rule = difference(&shown, beat)?;
    let number = beat_number(footprint, left);
    if is_payload(rule) && !tells_otherwise(footprint, number, due, beat) {
        return None;
    }
    Some(Wrong::Reply(rule, Some(shown)))
}

impl InFlight {
    /// A box for a request, whose footprint has room for so many words. The one error is that memory was refused.
    pub(crate) fn new(alloc: Global, room: usize) -> Result<Self, AllocError>
        requires { 1 ≤ room }
        ensures { IfOk result (λ made. length made.footprint.determined ≡ room) }
    {
        let reply = ReplyBox::new(alloc)?;
        let footprint = Footprint::new(alloc, room)?;
        Ok(InFlight {
            source: 0,
            reply,
            came: 0,
            footprint,
        })
    }

    /// Its source.
    pub(crate) fn source(&self) -> u8
        ensures value { result ≡ self.now.source }
        ensures byte { self.now.source < 256 }
    {
        self.source
    }

    /// Its footprint.
    pub(crate) fn footprint(&self) -> &Footprint
        ensures { result.now ≡ self.now.footprint }
    {
        &self.footprint
    }

    /// What it reads plays no part in its footprint, where all of that is determined.
    pub(crate) fn forget_reads_if_fixed(&mut self)
        ensures footprint { footprint_of self.new.footprint ≡ unless_fixed (footprint_of self.old.footprint) }
        ensures room { length self.new.footprint.determined ≡ length self.old.footprint.determined }
        ensures rest { self.new ≡ record self.old { footprint = self.new.footprint } }
    {
        self.footprint.forget_reads_if_fixed();
    }

    /// Its footprint becomes that of a request that acts at an address, where it acts on a good page, alone.
    pub(crate) fn start_footprint(
        &mut self,
        marks: &SerialMemory,
        place: Option<u32>,
        request: &Request,
    )
        requires range { IfSome place (λ address. IsMemoryRange address request.now.size) }
        requires room { words_of request.now.size ≤ length self.old.footprint.determined }
        ensures footprint { footprint_of self.new.footprint ≡ alone (doubts_of marks.now) place (request_of request.now) }
        ensures room { length self.new.footprint.determined ≡ length self.old.footprint.determined }
    {
        self.footprint.start(marks, place, request);
    }

    /// The same of one of which all that it reads is known, so that this plays no part.
    pub(crate) fn start_known_footprint(
        &mut self,
        marks: &SerialMemory,
        place: Option<u32>,
        request: &Request,
    )
        requires range { IfSome place (λ address. IsMemoryRange address request.now.size) }
        requires room { words_of request.now.size ≤ length self.old.footprint.determined }
        ensures footprint { footprint_of self.new.footprint ≡ record (alone (λ x. false) place (request_of request.now)) { reads = false } }
        ensures room { length self.new.footprint.determined ≡ length self.old.footprint.determined }
    {
        self.footprint.start_known(marks, place, request);
    }

    /// Of its bytes only those stay determined that are determined of another footprint, and it has failed if that one has.
    pub(crate) fn keep(&mut self, coming: &Footprint)
        ensures footprint { footprint_of self.new.footprint ≡ kept_from (footprint_of coming.now) (footprint_of self.old.footprint) }
        ensures room { length self.new.footprint.determined ≡ length self.old.footprint.determined }
    {
        self.footprint.keep(coming);
    }

    /// It becomes a request of a source with this reply and footprint, of whose reply no beat came; its own footprint takes the other's
    /// place.
    pub(crate) fn begin(&mut self, source: u8, reply: &[DBeat], footprint: &mut Footprint)
        requires { length reply.now ≤ 512 }
        ensures flight { self.new ≡ record { source = source; beats = reply.now; footprint = footprint.old } }
        ensures other { footprint.new ≡ self.old.footprint }
    {
        self.source = source;
        self.came = 0;
        fill(&mut self.reply, reply);
        mem::swap(&mut self.footprint, footprint);
    }

    /// Its footprint and another change places.
    pub(crate) fn swap_footprint(&mut self, other: &mut Footprint)
        ensures flight { self.new ≡ record self.old { footprint = other.old } }
        ensures other { other.new ≡ self.old.footprint }
    {
        mem::swap(&mut self.footprint, other);
    }

    /// The beats of its reply that are left.
    pub(crate) fn beats(&self) -> &[DBeat]
        ensures value { result.now ≡ self.now.beats }
        ensures most { length result.now ≤ 512 }
    {
        &self.reply.as_slice()[usize::from(self.came)..]
    }

    /// How many beats of its reply are left.
    pub(crate) fn left(&self) -> u16
        ensures { result ≡ length self.now.beats }
    {
        self.reply.beats() - self.came
    }

    /// The next beat of its reply.
    fn next_beat(&self) -> Option<&DBeat>
        ensures { option_copied result ≡ slice_get self.now.beats 0 }
    {
        if self.came >= self.reply.beats() {
            return None;
        }
        Some(&self.reply.as_slice()[usize::from(self.came)])
    }

    /// A beat of its reply has come.
    pub(crate) fn count(&mut self)
        requires { 0 < length self.old.beats }
        ensures { self.new ≡ record self.old { beats = drop 1 self.old.beats } }
    {
        // At most 512 have come.
        let _beats = self.reply.beats();
        self.came += 1;
    }

    /// It becomes a request that is carried out, of whose reply no beat came; its footprint stays.
    pub(crate) fn carry_out(&mut self, serial: &mut SerialMemory, request: &Request)
        requires checked { IsCheckedRequest request.now }
        requires room { HasRoomToGive serial.old (request_of request.now) }
        ensures memory { memory_of serial.new ≡ carried_out (memory_of serial.old) (request_of request.now) }
        ensures doubts { doubts_of serial.new ≡ doubts_of serial.old }
        ensures rooms { rooms_of serial.new ≡ rooms_of serial.old }
        ensures flight { self.new ≡ record {
          source = request.now.source;
          beats = shown (request_of request.now) (meaning_in (memory_of serial.old) (request_of request.now)).reply;
          footprint = self.old.footprint;
        } }
    {
        self.source = request.source();
        self.came = 0;
        serial.carry_out(request, &mut self.reply);
    }

    /// Whether a beat of its reply that is left tells an error.
    fn tells_error(&self) -> bool
        ensures { result ≡ tells_error self.now.beats }
    {
        tells_error(self.beats())
    }

    /// It has failed, if that is so.
    pub(crate) fn fail_if(&mut self, failed: bool)
        ensures footprint { footprint_of self.new.footprint ≡ unless_failed failed (footprint_of self.old.footprint) }
        ensures room { length self.new.footprint.determined ≡ length self.old.footprint.determined }
        ensures rest { self.new ≡ record self.old { footprint = record self.old.footprint { failed = self.new.footprint.failed; determined = self.new.footprint.determined } } }
    {
        self.footprint.fail_if(failed);
    }

    /// Where errors may be told in any way it has failed if it has no address of a good page at which it may act, or its reply tells an
    /// error.
    pub(crate) fn fail_by(&mut self, errors: Errors, place: Option<u32>)
        ensures footprint { footprint_of self.new.footprint ≡ unless_failed (fails_by errors place self.old.beats) (footprint_of self.old.footprint) }
        ensures room { length self.new.footprint.determined ≡ length self.old.footprint.determined }
        ensures rest { self.new ≡ record self.old { footprint = record self.old.footprint { failed = self.new.footprint.failed; determined = self.new.footprint.determined } } }
    {
        self.fail_if(errors == Errors::Any && (place.is_none() || self.tells_error()));
    }

    /// What is wrong with a beat on channel D, whose next it may be, by whether the reply that has begun was denied.
    #[inline(always)]
    pub(crate) fn wrong_reply(
        &self,
        policy: Policy,
        told: Option<bool>,
        beat: &DBeat,
    ) -> Option<Wrong>
        ensures { result ≡ wrong_reply policy told (Some (flight_of self.now)) beat.now }
    {
        let Some(due) = self.next_beat() else {
            return Some(Wrong::Reply(ReplyRule::Unasked, None));
        };
        match policy {
            Policy::AcceptanceOrder => wrong_in_turn(&self.footprint, self.left(), due, beat),
            Policy::RealTime => wrong_told(&self.footprint, told, self.left(), due, beat),
        }
    }

    /// What another request may write isn't determined.
    pub(crate) fn give_way(&mut self, other: &Footprint)
        ensures flight { flight_of self.new ≡ flight_beside (footprint_of other.now) (flight_of self.old) }
        ensures room { length self.new.footprint.determined ≡ length self.old.footprint.determined }
        ensures source { self.new.source ≡ self.old.source }
    {
        self.footprint.give_way(other);
    }

    /// It may have failed, where it shares a byte with a burst that was answered with an error.
    pub(crate) fn hit(&mut self, span: Span)
        ensures flight { flight_of self.new ≡ hit_flight span (flight_of self.old) }
        ensures room { length self.new.footprint.determined ≡ length self.old.footprint.determined }
    {
        self.footprint.hit(span);
    }

    /// How much the next beat of its reply tells; nothing, where none is left.
    #[inline(always)]
    pub(crate) fn telling(&self, policy: Policy) -> Telling
        ensures { result ≡ left_telling policy (footprint_of self.now.footprint) self.now.beats }
    {
        left_telling(policy, &self.footprint, self.beats())
    }

    /// What is seen of its reply; nothing, where no beat is left.
    #[inline(always)]
    pub(crate) fn view(&self) -> Option<ReplyView>
        ensures { result ≡ view_of (flight_of self.now) }
    {
        left_view(&self.footprint, self.beats())
    }
}

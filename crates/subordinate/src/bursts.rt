//! The open bursts of a device, in the order sent, with what is kept so that none is looked for among them.
ghost use Rattle.std.specs.Prelude.{◌≡◌, ◌≢◌, ℕ, ◌+◌, ◌-◌, ◌^◌, ◌<◌, ◌≤◌, ◌==◌, ◌&&◌, nat_lt, flat_map, sum_by, ◌++◌, ◌*◌, [], ◌∷◌, false, true, IfOk, IfSome, IsSome, MatchOption, None, Some, filter, find, if◌then◌else◌, length, position, slice_get, slice_index_or, slice_set};
ghost use Rattle.std.specs.List.{range_with_len, remove};
ghost use Rattle.subordinate.specs.Bursts.{IsFirstWaiting, Rise, is_decided_by, is_first, is_in, is_marked, is_queue_ready, is_ready, serials_in};
ghost use Rattle.subordinate.specs.FreeMemory.{Pending, beat_at, has_serial, is_waiting, transfers_in, waiting_in, with_beat, work_in};
ghost use Rattle.subordinate.specs.Inside.{captured_at, count_waiting, with_answer};
ghost use Rattle.subordinate.specs.Laws.{queue_of};
ghost use Rattle.subordinate.specs.declared.BeatState.TheVariants.{Waiting};

use crate::BeatState;
use crate::answers::{Answers, first_id, has_id};
use crate::open_burst::OpenBurst;
use crate::queues::Queues;
use std::alloc::{AllocError, Global};
use std::marker::Model;

/// How many bursts may be open: those of all IDs on both sides.
pub(crate) const MOST_OPEN: usize = 128;

/// The open bursts in the order sent, at most 128. Beside them stand the serials of each ID's, and marks of the IDs that may
/// give an answer.
#[derive(Drop)]
pub(crate) struct Bursts {
    items: Vec<OpenBurst>,
    queues: Queues,
    answers: Answers,
    /// How many beats wait.
    waiting: u32,
    /// How many answers are to come.
    owed: u32,
    /// No burst before this place has a beat that waits.
    first: usize,
}

impl Model for Bursts {
    ghost use Rattle.std.specs.Prelude.{List, ◌≤◌};
    ghost use Rattle.std.specs.Vec.{vec_capacity, vec_len};
    ghost use Rattle.subordinate.specs.Bursts.{AreCounted, AreIndexed};
    ghost use Rattle.subordinate.specs.FreeMemory.{Pending};

    ghost Value = { List Pending };

    ghost view = { λ b. b.items.items };

    ghost invariant = { λ b. AreIndexed b.items.items b.queues b.answers × AreCounted b.items.items b.waiting b.owed b.first × (128 ≤ vec_capacity b.items) };
}

impl Bursts {
    /// No open bursts, with room for 128.
    pub(crate) fn new(alloc: Global) -> Result<Self, AllocError>
        ensures { IfOk result (λ bursts. bursts ≡ []) }
    {
        let items = Vec::with_capacity(alloc, MOST_OPEN)?;
        let queues = Queues::new(alloc)?;
        Ok(Bursts {
            items,
            queues,
            answers: Answers::new(),
            waiting: 0,
            owed: 0,
            first: 0,
        })
    }

    /// All of them.
    pub(crate) fn as_slice(&self) -> &[OpenBurst]
        ensures { result.now ≡ self.now }
    {
        self.items.as_slice()
    }

    /// The open burst at a place.
    pub(crate) fn at(&self, place: usize) -> &OpenBurst
        requires { place < length self.now }
        ensures { slice_get self.now place ≡ Some result.now }
    {
        &self.items[place]
    }

    /// The place of the open burst with this serial.
    pub(crate) fn place_of(&self, serial: u64) -> Option<usize>
        requires { Rise self.now }
        ensures { result ≡ position (has_serial serial) self.now }
    {
        place_of(&self.items, serial)
    }

    /// The place of the oldest burst of a queue.
    pub(crate) fn oldest(&self, queue: usize) -> Option<usize>
        requires { Rise self.now }
        ensures { result ≡ position (is_in queue) self.now }
    {
        match self.queues.first(queue) {
            Some(serial) => place_of(&self.items, serial),
            None => None,
        }
    }

    /// How many bursts of a queue are open.
    pub(crate) fn count(&self, queue: usize) -> usize
        ensures { result ≡ length (filter (is_in queue) self.now) }
    {
        self.queues.count(queue)
    }

    /// Whether the oldest write of an ID may be answered.
    pub(crate) fn can_b(&self, id: u8) -> bool
        requires { id < 16 }
        ensures { result ≡ is_queue_ready self.now (2 * id) }
    {
        has_id(self.answers.b, id)
    }

    /// Whether the oldest read of an ID may be answered.
    pub(crate) fn can_r(&self, id: u8) -> bool
        requires { id < 16 }
        ensures { result ≡ is_queue_ready self.now (2 * id + 1) }
    {
        has_id(self.answers.r, id)
    }

    /// The smallest ID whose oldest write may be answered.
    pub(crate) fn first_b(&self) -> Option<u8>
        ensures { result ≡ find (λ id. is_queue_ready self.now (2 * id)) (range_with_len 0 16) }
    {
        first_id(self.answers.b)
    }

    /// The smallest ID whose oldest read may be answered.
    pub(crate) fn first_r(&self) -> Option<u8>
        ensures { result ≡ find (λ id. is_queue_ready self.now (2 * id + 1)) (range_with_len 0 16) }
    {
        first_id(self.answers.r)
    }

    /// How many beats wait.
    pub(crate) fn waiting(&self) -> u32
        ensures { result ≡ sum_by (λ p. count_waiting p.beats) self.now }
    {
        self.waiting
    }

    /// The work left: the beats that wait, and the answers to come.
    pub(crate) fn work_left(&self) -> u64
        ensures work { result ≡ sum_by work_in self.now }
        ensures most { result ≤ 512 * length self.now }
    {
        u64::from(self.waiting) + u64::from(self.owed)
    }

    /// The place of the burst of the first beat that waits, and that beat.
    pub(crate) fn place_waiting(&self) -> Option<(usize, u16)>
        ensures { MatchOption result (slice_get (flat_map waiting_in self.now) 0 ≡ None) (λ first. IsFirstWaiting self.now first.0 first.1) }
    {
        if self.waiting == 0 {
            return None;
        }
        for place in self.first..self.items.len() {
            if self.items[place].waiting() > 0 {
                return Some((place, self.items[place].nth_waiting(0)));
            }
        }
        None
    }

    /// Serial and beat of a beat that waits, counted among these from 0 by rising serial and beat. It is looked for from the
    /// end that it is nearer to.
    pub(crate) fn waiting_at(&self, k: u32) -> (u64, u16)
        requires { k < length (flat_map waiting_in self.now) }
        ensures { slice_get (flat_map waiting_in self.now) k ≡ Some result }
    {
        let left = self.waiting - k;
        if k < left {
            waiting_on(&self.items, k)
        } else {
            waiting_back(&self.items, left)
        }
    }

    /// One more burst, which was just sent.
    pub(crate) fn push(&mut self, burst: OpenBurst)
        requires room { length self.old < 128 }
        requires queue { queue_of burst < 32 }
        requires fewer { length (filter (is_in (queue_of burst)) self.old) < 4 }
        requires waits { is_ready burst ≡ false }
        ensures { self.new ≡ self.old ++ burst ∷ [] }
    {
        self.queues.push(burst.queue(), burst.serial());
        self.waiting += u32::from(burst.waiting());
        self.owed += u32::from(burst.answers_left());
        self.items.push_reserved(burst);
    }

    /// Puts down what became of a beat of the burst at a place, which was waiting.
    pub(crate) fn put(&mut self, place: usize, beat: u16, state: BeatState)
        requires rising { Rise self.old }
        requires here { place < length self.old }
        requires waits { IfSome (slice_get self.old place) (λ p. beat_at p beat ≡ Some Waiting) }
        requires performed { is_waiting state ≡ false }
        requires known { IfSome (slice_get self.old place) (λ p. queue_of p < 32) }
        ensures { (p : Pending) → slice_get self.old place ≡ Some p → self.new ≡ slice_set self.old place (with_beat beat state p) }
    {
        self.items[place].put(beat, state);
        let burst = &self.items[place];
        self.answers = noted(self.answers, &self.queues, burst, beat);
        self.first = past(self.first, place, burst.waiting());
        self.waiting -= 1;
    }

    /// Counts an R beat of the oldest open read of an ID, by its place. Its next beat is performed.
    pub(crate) fn count_answer(&mut self, id: u8, place: usize)
        requires rising { Rise self.old }
        requires id { id < 16 }
        requires oldest { position (is_in (2 * id + 1)) self.old ≡ Some place }
        requires captured { IfSome (slice_get self.old place) (λ p. IsSome (captured_at (beat_at p p.answered))) }
        requires whole { IfSome (slice_get self.old place) (λ p. length p.beats ≡ transfers_in p.burst) }
        ensures { (p : Pending) → slice_get self.old place ≡ Some p → self.new ≡ slice_set self.old place (with_answer p) }
    {
        let next = self.items[place].count_answer();
        self.answers = self.answers.with(2 * usize::from(id) + 1, next);
        self.owed -= 1;
    }

    /// Takes the oldest burst of a queue out, by its place.
    pub(crate) fn take_oldest(&mut self, queue: usize, place: usize) -> OpenBurst
        requires rising { Rise self.old }
        requires queue { queue < 32 }
        requires oldest { position (is_in queue) self.old ≡ Some place }
        ensures burst { slice_get self.old place ≡ Some result }
        ensures rest { self.new ≡ remove self.old place }
    {
        let burst = self.items.remove(place);
        self.waiting -= u32::from(burst.waiting());
        self.owed -= u32::from(burst.answers_left());
        self.first = moved(self.first, place);
        self.queues.pop(queue);
        let ready = is_ready_at(&self.items, self.queues.first(queue));
        self.answers = self.answers.with(queue, ready);
        burst
    }
}

/// A beat that waits, counted from the first on, from 0.
fn waiting_on(bursts: &[OpenBurst], k: u32) -> (u64, u16)
    requires { k < length (flat_map waiting_in bursts.now) }
    ensures { slice_get (flat_map waiting_in bursts.now) k ≡ Some result }
{
    let mut left = k;
    for burst in bursts {
        let waiting = u32::from(burst.waiting());
        if left < waiting {
            return (burst.serial(), burst.nth_waiting(left as u16));
        }
        left -= waiting;
    }
    unreachable!()
}

/// A beat that waits, counted from the last back, from 1.
fn waiting_back(bursts: &[OpenBurst], k: u32) -> (u64, u16)
    requires some { 1 ≤ k }
    requires most { k ≤ length (flat_map waiting_in bursts.now) }
    ensures { slice_get (flat_map waiting_in bursts.now) (length (flat_map waiting_in bursts.now) - k) ≡ Some result }
{
    let mut left = k;
    for place in (0..bursts.len()).rev() {
        let waiting = u32::from(bursts[place].waiting());
        if left <= waiting {
            let beat = bursts[place].nth_waiting((waiting - left) as u16);
            return (bursts[place].serial(), beat);
        }
        left -= waiting;
    }
    unreachable!()
}

/// Where no earlier burst has a beat that waits, once so many are left of the one at a place.
fn past(first: usize, place: usize, left: u16) -> usize
    requires { first < 2 ^ 63 }
    ensures { result ≡ (if (place == first) && (left == 0) then first + 1 else first) }
{
    if place == first && left == 0 {
        first + 1
    } else {
        first
    }
}

/// Where no earlier burst has a beat that waits, once the one at a place is gone.
fn moved(first: usize, place: usize) -> usize
    ensures { result ≡ (if nat_lt place first then first - 1 else first) }
{
    if place < first { first - 1 } else { first }
}

/// Where the burst with this serial stands, if all sent since the oldest are open. What is found doesn't rest on it.
fn guess(bursts: &[OpenBurst], serial: u64) -> usize {
    match bursts.first() {
        Some(first) => serial.saturating_sub(first.serial()) as usize,
        None => 0,
    }
}

/// The place of the burst with this serial, found by halving.
fn searched(bursts: &[OpenBurst], serial: u64) -> Option<usize>
    requires { Rise bursts.now }
    ensures { result ≡ position (has_serial serial) bursts.now }
{
    bursts
        .binary_search_by_key(&serial, |burst| burst.serial())
        .ok()
}

/// The place of the burst with this serial; where it stands as the serials rise by one, no other burst is looked at.
fn place_of(bursts: &[OpenBurst], serial: u64) -> Option<usize>
    requires { Rise bursts.now }
    ensures { result ≡ position (has_serial serial) bursts.now }
{
    let guess = guess(bursts, serial);
    if guess < bursts.len() && bursts[guess].serial() == serial {
        return Some(guess);
    }
    searched(bursts, serial)
}

/// Whether the burst with a queue's first serial may be answered.
fn is_ready_at(bursts: &[OpenBurst], first: Option<u64>) -> bool
    requires { Rise bursts.now }
    ensures { (queue : ℕ) → first ≡ slice_get (serials_in bursts.now queue) 0 → result ≡ is_queue_ready bursts.now queue }
{
    let Some(serial) = first else {
        return false;
    };
    match place_of(bursts, serial) {
        Some(place) => bursts[place].is_ready(),
        None => false,
    }
}

/// The marks after a beat of a burst was performed: that of its queue changes where it is the oldest, and waited for the beat.
fn noted(answers: Answers, queues: &Queues, burst: &OpenBurst, beat: u16) -> Answers
    requires { queue_of burst.now < 32 }
    ensures kept { is_decided_by beat burst.now ≡ false → result ≡ answers }
    ensures here { is_decided_by beat burst.now ≡ true → is_marked result (queue_of burst.now)
        ≡ (if is_first (slice_get (slice_index_or queues.now (queue_of burst.now) []) 0) burst.now.serial then is_ready burst.now else is_marked answers (queue_of burst.now)) }
    ensures others { (queue : ℕ) → queue < 32 → queue ≢ queue_of burst.now → is_marked result queue ≡ is_marked answers queue }
{
    if !burst.is_decided_by(beat) {
        return answers;
    }
    let queue = burst.queue();
    let is_first = match queues.first(queue) {
        Some(serial) => serial == burst.serial(),
        None => false,
    };
    if is_first {
        answers.with(queue, burst.is_ready())
    } else {
        answers
    }
}

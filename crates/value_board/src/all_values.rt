//! The memory of values and the numbers of all clients' requests together.
ghost use Rattle.std.specs.Prelude.{◌≡◌, ◌<◌, ◌/◌, ◌^◌, None, IfOk, IfSome, OnErr, OnOk, length, map, replicate, true};
ghost use Rattle.score_setup.specs.ScoreSetups.{ranges_of};
ghost use Rattle.scoreboard.specs.InsideBoards.{board_of};
ghost use Rattle.sparse_memory.specs.Ranges.{pages_in};
ghost use Rattle.subordinate.specs.Faults.{device_fault, is_good, standing_at};
ghost use Rattle.scoreboard.specs.Unknown.{unknown_given};
ghost use Rattle.value_board.specs.Found.{found_of};
ghost use Rattle.value_board.specs.Values.{made_if};
ghost use Rattle.value_memory.specs.States.{contents_of, filled_with};
ghost use Rattle.value_memory.specs.ValueMemory.{IsByteRange, pages_of, rooms_in};
ghost use Rattle.value_board.specs.AllValues.{asked_next, first_values, is_full, lacks_reach, numbers_of, reach_of, with_answered, with_answered_if, with_complete, with_counted, with_due_begun, with_ended, with_ended_if, with_failed, with_finished, with_heard, with_next_counted, with_reset, with_started, with_taken, values_of};
ghost use Rattle.value_board.specs.ClientValues.{HasRange, IsAsked, no_numbers, reset_numbers};

use crate::client_values::{Asked, Begun, ClientValues};
use crate::found::{Found, found_of};
use crate::unknown::unknown_given;
use crate::values::{
    end_if, fail_all, finish, is_good_at, make, oldest_from, range_given, start, strike_each,
};
use score_setup::ScoreSetup;
use scoreboard::{Errors, FillFault, ReplyView, Scoreboard, Span};
use std::alloc::{AllocError, Global};
use std::marker::Model;
use tl_messages::{ABeat, DBeat, Request};
use value_memory::{ByteRange, ValueMemory};

/// How many requests begin at most.
const MOST_BEGUN: u64 = 1 << 63;

/// Which values each byte of the memory may have, and the numbers of the requests in flight. Each client's numbers rise; none is below the
/// oldest that the memory knows, or above how many have begun.
pub(crate) struct Values {
    memory: ValueMemory,
    clients: Vec<ClientValues>,
}

impl Model for Values {
    ghost use Rattle.value_board.specs.AllValues.{AreAllLive, ValuesHeld};

    ghost Value = { ValuesHeld };

    ghost view = { λ v. record { memory = v.memory; clients = v.clients.items } };

    ghost invariant = { λ v. AreAllLive v.memory.oldest v.memory.begun v.clients.items };
}

// Written out, so that what lets go of one calls this, and proves nothing of its parts.
impl Drop for Values {
    fn drop(self) {
        let Values {
            memory: _,
            clients: _,
        } = self;
    }
}

/// The numbers of so many clients, of which nothing has begun. The one error is that memory was refused.
fn opening_clients(alloc: Global, count: u8) -> Result<Vec<ClientValues>, AllocError>
    ensures { IfOk result (λ made. made.items ≡ replicate count no_numbers) }
{
    let mut clients = Vec::with_capacity(alloc, usize::from(count))?;
    for _client in 0..count {
        clients.push(ClientValues::new(alloc)?)?;
    }
    Ok(clients)
}

/// Of some clients nothing is in flight any more, and nothing has begun.
fn reset_each(clients: &mut [ClientValues])
    ensures { clients.new ≡ map reset_numbers clients.old }
{
    for client in clients.iter_mut() {
        client.reset();
    }
}

impl Values {
    /// A client's request ends.
    pub(crate) fn end(&mut self, client: usize, begun: Begun)
        requires client { client < length self.old.clients }
        requires range { HasRange begun }
        ensures state { values_of self.new ≡ with_ended client begun (values_of self.old) }
        ensures clients { length self.new.clients ≡ length self.old.clients }
    {
        end_if(&mut self.memory, begun);
        self.clients[client].end(begun.number);
        let oldest = oldest_from(self.memory.begun() + 1, self.clients.as_slice());
        self.memory.set_oldest(oldest, begun.gives);
    }

    /// No request has begun. The one error is that memory was refused.
    pub(crate) fn new(alloc: Global, setup: &ScoreSetup) -> Result<Self, AllocError>
        requires { device_fault (pages_in setup.now.pages.items) setup.now.bad_words.items ≡ None }
        ensures { IfOk result (λ values. values_of values ≡ first_values (ranges_of setup.now)) }
    {
        let memory = ValueMemory::new(alloc, setup.pages.as_slice(), setup.bad_words.as_slice())?;
        let clients = opening_clients(alloc, setup.config.clients)?;
        Ok(Values { memory, clients })
    }

    /// How many clients there are.
    pub(crate) fn clients(&self) -> usize
        ensures { result ≡ length self.now.clients }
    {
        self.clients.len()
    }

    /// Whether no request of a client can be numbered any more.
    pub(crate) fn is_full(&self, client: usize) -> bool
        requires { client < length self.now.clients }
        ensures { result ≡ is_full client (values_of self.now) }
    {
        self.clients[client].is_full() || self.memory.begun() >= MOST_BEGUN
    }

    /// The bytes that a request may give that begins with a beat of a client; none where its message had begun before.
    pub(crate) fn reach(&self, board: &Scoreboard, client: usize, beat: &ABeat) -> Option<ByteRange>
        requires { client < length self.now.clients }
        ensures value { result ≡ reach_of client (board_of board.now) beat.now (values_of self.now) }
        ensures range { IfSome result IsByteRange }
        ensures good { IfSome result (λ range. is_good (standing_at (pages_of self.now.memory) range.address) ≡ true) }
    {
        if self.clients[client].coming().is_some() {
            return None;
        }
        let range = range_given(board, beat)?;
        if !is_good_at(&self.memory, range.address) {
            return None;
        }
        Some(range)
    }

    /// Makes room for the page of a range. The one error is that memory was refused; then nothing has changed.
    pub(crate) fn make_room(&mut self, reach: Option<ByteRange>) -> Result<(), AllocError>
        requires { IfSome reach (λ range. is_good (standing_at (pages_of self.old.memory) range.address) ≡ true) }
        ensures state { values_of self.new ≡ values_of self.old }
        ensures cause { OnErr result (lacks_reach (rooms_in self.old.memory) reach ≡ true) }
        ensures room { OnOk result (IfSome reach (λ range. rooms_in self.new.memory (range.address / 4096) ≡ true)) }
    {
        match reach {
            None => Ok(()),
            Some(range) => self.memory.make_room(range.address),
        }
    }

    /// A client's request begins that may give a range, where its message hadn't begun before.
    fn start(&mut self, client: usize, reach: Option<ByteRange>)
        requires client { client < length self.old.clients }
        requires few { self.old.memory.begun < 2 ^ 63 }
        requires room { length (numbers_of self.old.clients client).live < 258 }
        requires range { IfSome reach IsByteRange }
        requires page { IfSome reach (λ range. rooms_in self.old.memory (range.address / 4096) ≡ true) }
        ensures state { values_of self.new ≡ with_started client reach (values_of self.old) }
        ensures clients { length self.new.clients ≡ length self.old.clients }
    {
        let Values { memory, clients } = self;
        start(memory, &mut clients[client], reach);
    }

    /// A beat of the message that a client has begun came, which gives these lanes that nobody knows.
    fn hear(&mut self, client: usize, given: u8)
        requires { client < length self.old.clients }
        ensures state { values_of self.new ≡ with_heard client given (values_of self.old) }
        ensures clients { length self.new.clients ≡ length self.old.clients }
    {
        self.clients[client].hear(given);
    }

    /// The message that a client had begun is whole: what it gives is known.
    fn complete(
        &mut self,
        client: usize,
        begun: Begun,
        errors: Errors,
        request: &Request,
        due: &Option<ReplyView>,
    )
        requires client { client < length self.old.clients }
        requires range { HasRange begun }
        ensures state { values_of self.new ≡ with_complete client begun errors request.now due.now (values_of self.old) }
        ensures clients { length self.new.clients ≡ length self.old.clients }
    {
        let Values { memory, clients } = self;
        finish(memory, &mut clients[client], errors, begun, request, due);
    }

    /// A client's request ends, if it does.
    fn end_if(&mut self, client: usize, begun: Begun, ends: bool)
        requires client { client < length self.old.clients }
        requires range { HasRange begun }
        ensures { values_of self.new ≡ with_ended_if ends client begun (values_of self.old) }
    {
        if ends {
            self.end(client, begun);
        }
    }

    /// The message that a client had begun is whole, and a request; a reply to it is due, or came before, so that it has ended.
    fn finish(&mut self, client: usize, errors: Errors, request: &Request, due: &Option<ReplyView>)
        requires { client < length self.old.clients }
        ensures { values_of self.new ≡ with_finished client errors request.now due.now (values_of self.old) }
    {
        let Some(begun) = self.clients[client].coming() else {
            return;
        };
        self.complete(client, begun, errors, request, due);
        self.end_if(client, begun, due.is_none());
    }

    /// A beat of a client was taken, of which nobody knows some lanes, and that left a board: with the first of a message a request begins
    /// that may give a range.
    pub(crate) fn take(
        &mut self,
        board: &Scoreboard,
        client: u8,
        beat: &ABeat,
        lanes: u8,
        reach: Option<ByteRange>,
    )
        requires client { client < length self.old.clients }
        requires few { self.old.memory.begun < 2 ^ 63 }
        requires room { length (numbers_of self.old.clients client).live < 258 }
        requires range { IfSome reach IsByteRange }
        requires page { IfSome reach (λ range. rooms_in self.old.memory (range.address / 4096) ≡ true) }
        ensures { values_of self.new ≡ with_taken client reach (unknown_given beat.now lanes) board.now (values_of self.old) }
    {
        let number = usize::from(client);
        self.start(number, reach);
        self.hear(number, unknown_given(beat, lanes));
        if board.source_begun(client).is_some() {
            return;
        }
        let request = board.request();
        let due = board.due_reply(client, request.source());
        self.finish(number, board.errors(), request, &due);
    }

    /// The request of the reply whose next beat one of a source may be: of the one that has begun, if one has, else of the one that is due.
    pub(crate) fn asked_next(&self, client: usize, source: u8, has_begun: bool) -> Option<Asked>
        requires { client < length self.now.clients }
        ensures value { result ≡ asked_next client source has_begun (values_of self.now) }
        ensures sound { IfSome result IsAsked }
    {
        let found = &self.clients[client];
        if has_begun {
            return found.answering();
        }
        Some(found.asked_by(source))
    }

    /// What is found of a beat, of which nobody knows some lanes, as the next of a reply to a request.
    pub(crate) fn look(&self, view: &ReplyView, asked: Asked, beat: &DBeat, lanes: u8) -> Found
        ensures { result ≡ found_of (contents_of self.now.memory) view.now asked.begun.number beat.now.payload lanes }
    {
        found_of(&self.memory, view, asked.begun.number, beat.payload, lanes)
    }

    /// What an atomic makes is known, where its reply tells all that it reads, with a right beat.
    pub(crate) fn make(&mut self, asked: Asked, told: u8, payload: u64, lanes: u8)
        requires { IsAsked asked }
        ensures { values_of self.new ≡ record (values_of self.old) { memory = made_if asked told payload lanes (contents_of self.old.memory) } }
    {
        make(&mut self.memory, asked, told, payload, lanes);
    }

    /// The reply that has begun to a client is over: its request ends.
    fn end_answering(&mut self, client: usize)
        requires { client < length self.old.clients }
        ensures state { values_of self.new ≡ with_answered client (values_of self.old) }
        ensures clients { length self.new.clients ≡ length self.old.clients }
    {
        let Some(asked) = self.clients[client].answering() else {
            return;
        };
        self.clients[client].answered();
        self.end(client, asked.begun);
    }

    /// The same with its last beat.
    fn end_if_last(&mut self, client: usize, is_last: bool)
        requires { client < length self.old.clients }
        ensures { values_of self.new ≡ with_answered_if is_last client (values_of self.old) }
    {
        if is_last {
            self.end_answering(client);
        }
    }

    /// A beat comes of the reply to the last request of a source, if that is due: it begins.
    fn count_due(&mut self, client: usize, source: u8, due: &Option<ReplyView>)
        requires { client < length self.old.clients }
        ensures { values_of self.new ≡ with_due_begun client source due.now (values_of self.old) }
    {
        let Some(view) = due else {
            return;
        };
        self.clients[client].answer(source);
        self.end_if_last(client, view.left == 1);
    }

    /// A beat of a source comes, where no reply is over with it.
    fn count_next(
        &mut self,
        client: usize,
        source: u8,
        begun: &Option<ReplyView>,
        due: &Option<ReplyView>,
    )
        requires { client < length self.old.clients }
        ensures { values_of self.new ≡ with_next_counted client source begun.now due.now (values_of self.old) }
    {
        let Some(view) = begun else {
            return self.count_due(client, source, due);
        };
        self.end_if_last(client, view.due.source == source && view.left == 1);
    }

    /// A beat of a source comes on a client's channel D, by whether the reply that has begun is over with it, and by which replies had begun,
    /// and were due.
    pub(crate) fn count(
        &mut self,
        client: usize,
        source: u8,
        cut: bool,
        begun: &Option<ReplyView>,
        due: &Option<ReplyView>,
    )
        requires { client < length self.old.clients }
        ensures { values_of self.new ≡ with_counted client source cut begun.now due.now (values_of self.old) }
    {
        if !cut {
            return self.count_next(client, source, begun, due);
        }
        self.end_answering(client);
        self.count_due(client, source, due);
    }

    /// Each request in flight has failed that shares a byte with a burst, and this is kept with those whose messages have begun.
    pub(crate) fn fail(&mut self, span: Span)
        ensures { values_of self.new ≡ with_failed span (values_of self.old) }
    {
        fail_all(&mut self.memory, span, self.clients.as_slice());
        strike_each(self.clients.as_mut_slice(), span);
    }

    /// The bytes from an address on become these, before any request has begun.
    pub(crate) fn fill(&mut self, address: u32, bytes: &[u8]) -> Result<(), FillFault>
        requires { self.old.memory.begun ≡ 0 }
        ensures filled { OnOk result (values_of self.new ≡ record (values_of self.old) { memory = filled_with address bytes.now (contents_of self.old.memory) }) }
        ensures refused { OnErr result (values_of self.new ≡ values_of self.old) }
    {
        self.memory.fill(address, bytes)
    }

    /// All that are in flight are cut off.
    pub(crate) fn reset(&mut self)
        ensures { values_of self.new ≡ with_reset (values_of self.old) }
    {
        self.memory.reset();
        reset_each(self.clients.as_mut_slice());
    }
}

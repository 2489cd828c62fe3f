//! The numbers of all clients' requests beside the memory of values: what each beat does to them.
ghost use Rattle.std.specs.Prelude.{◌≡◌, ◌<◌, ◌≤◌, ◌*◌, ◌+◌, ◌/◌, ◌^◌, ℕ, true, None, Some, IfOk, IfSome, length, map, nat_le, slice_get, slice_index_or};
ghost use Rattle.std.specs.List.{AllByRecursion};
ghost use Rattle.subordinate.specs.Faults.{is_good, standing_at};
ghost use Rattle.value_memory.specs.States.{contents_of};
ghost use Rattle.value_memory.specs.ValueMemory.{IsByteRange, KeepsCounts, pages_of, rooms_in, word_count};
ghost use Rattle.scoreboard.specs.InsideBoards.{board_of};
ghost use Rattle.value_board.specs.ClientValues.{HasRange, IsAsked, IsStep};
ghost use Rattle.value_board.specs.Values.{count_started, ended_if, failed_all, failed_each, failed_if, finished, finished_memory, given_each, given_place, given_whole, giving_on, has_failed, lesser, made_if, oldest_from, range_at, range_given, range_of_operation, shares, started, started_memory, step_by, step_on, strikes, struck_by};

use crate::client_values::{Asked, AtomicStep, Begun, ClientValues};
use crate::given::{Giving, given_word, giving_of, is_sure};
use crate::made::{made_word, step_at};
use scoreboard::{Errors, ReplyView, Scoreboard, Span};
use tl_messages::{ABeat, Operation, Request};
use value_memory::{ByteRange, ValueMemory, word_at, word_count};

// ---- a request begins

/// The `2^size` bytes from an address on, if that is a multiple of their number, and there are at most 4,096.
pub(crate) fn range_at(address: u32, size: u8) -> Option<ByteRange>
    ensures value { result ≡ range_at address size }
    ensures range { IfSome result IsByteRange }
{
    if size > 12 || address % (1u32 << size) != 0 {
        return None;
    }
    Some(ByteRange { address, size })
}

/// The bytes that an operation may give that begins with a beat, if it may give some: those on which it acts, where it has data.
fn range_of_operation(board: &Scoreboard, beat: &ABeat, operation: Operation) -> Option<ByteRange>
    ensures value { result ≡ range_of_operation (board_of board.now) beat.now operation }
    ensures range { IfSome result IsByteRange }
{
    if !operation.has_data() || (beat.corrupt && board.errors() == Errors::Strict) {
        return None;
    }
    let address = board.place(operation, beat.address)?;
    range_at(address, beat.size)
}

/// The bytes that a message may give that begins with a beat, if it may give some.
pub(crate) fn range_given(board: &Scoreboard, beat: &ABeat) -> Option<ByteRange>
    ensures value { result ≡ range_given (board_of board.now) beat.now }
    ensures range { IfSome result IsByteRange }
{
    let operation = Operation::named(beat.opcode, beat.param)?;
    range_of_operation(board, beat, operation)
}

/// Whether the page of an address is good.
pub(crate) fn is_good_at(memory: &ValueMemory, address: u32) -> bool
    ensures value { result ≡ is_good (standing_at (contents_of memory.now).faults address) }
    ensures pages { result ≡ is_good (standing_at (pages_of memory.now) address) }
{
    memory.is_good(address)
}

/// A client's request begins that may give a range, where its message hadn't begun before.
pub(crate) fn start(memory: &mut ValueMemory, found: &mut ClientValues, reach: Option<ByteRange>)
    requires few { memory.old.begun < 2 ^ 63 }
    requires room { length found.old.live < 258 }
    requires range { IfSome reach IsByteRange }
    requires page { IfSome reach (λ range. rooms_in memory.old (range.address / 4096) ≡ true) }
    ensures memory { contents_of memory.new ≡ started_memory found.old.coming reach (contents_of memory.old) }
    ensures numbers { found.new ≡ started found.old.coming (record { number = memory.old.begun + 1; gives = reach }) found.old }
    ensures begun { memory.new.begun ≡ count_started found.old.coming memory.old.begun }
    ensures oldest { memory.new.oldest ≡ memory.old.oldest }
    ensures low { memory.old.oldest ≤ memory.old.begun + 1 }
{
    let number = memory.begun() + 1;
    if found.coming().is_some() {
        return;
    }
    let _number = memory.begin(reach);
    found.begin(Begun {
        number,
        gives: reach,
    });
}

// ---- a message is whole

/// Whether a request that is whole has failed, by whether an error response came to a burst that shares a byte with it before it was whole:
/// as the reply says that is due; where that came before, by such a response, or by a corrupt beat.
fn has_failed(errors: Errors, struck: bool, request: &Request, due: &Option<ReplyView>) -> bool
    ensures { result ≡ has_failed errors struck request.now due.now }
{
    match due {
        None => struck || (errors == Errors::Any && request.corrupt()),
        Some(view) => view.failed,
    }
}

/// How much counts of what a request gives that may give a range.
fn giving_on(
    memory: &ValueMemory,
    errors: Errors,
    gives: Option<ByteRange>,
    failed: bool,
    request: &Request,
) -> Giving
    ensures { result ≡ giving_on (contents_of memory.now) errors gives failed request.now }
{
    let Some(range) = gives else {
        return Giving::Nothing;
    };
    giving_of(errors, memory.refuses_reads(range.address), failed, request)
}

/// What a request gives to word `k` of a range is known.
fn give_place(
    memory: &mut ValueMemory,
    found: &ClientValues,
    number: u64,
    range: ByteRange,
    giving: Giving,
    request: &Request,
    k: u32,
)
    requires range { IsByteRange range }
    requires place { k < word_count range }
    ensures state { contents_of memory.new ≡ given_place giving number range request.now found.now.hidden k (contents_of memory.old) }
    ensures counts { KeepsCounts memory.old memory.new }
{
    let given = given_word(giving, request, range.address, k, found.hidden(k));
    memory.give(number, word_at(range, k), given.lanes, given.known);
}

/// And what it gives to each word.
fn give_each(
    memory: &mut ValueMemory,
    found: &ClientValues,
    number: u64,
    range: ByteRange,
    giving: Giving,
    request: &Request,
)
    requires { IsByteRange range }
    ensures state { contents_of memory.new ≡ given_each giving number range request.now found.now.hidden (contents_of memory.old) }
    ensures counts { KeepsCounts memory.old memory.new }
{
    for k in 0..word_count(range) {
        give_place(memory, found, number, range, giving, request, k);
    }
}

/// What a whole request gives is known, and it takes effect, where it does.
fn give_whole(
    memory: &mut ValueMemory,
    found: &ClientValues,
    begun: Begun,
    giving: Giving,
    request: &Request,
)
    requires { HasRange begun }
    ensures state { contents_of memory.new ≡ given_whole giving begun request.now found.now.hidden (contents_of memory.old) }
    ensures counts { KeepsCounts memory.old memory.new }
{
    let Some(range) = begun.gives else {
        return;
    };
    give_each(memory, found, begun.number, range, giving, request);
    if is_sure(giving) {
        memory.make_sure(begun.number, range);
    }
}

/// What an atomic makes of the bytes that it is told, that may give a range.
fn step_by(request: &Request, gives: Option<ByteRange>) -> Option<AtomicStep>
    ensures value { result ≡ step_by request.now.operation request.now gives }
    ensures sound { IfSome result IsStep }
{
    match (request.operation(), gives) {
        (Operation::Atomic(op), Some(range)) => step_at(op, request, range.address),
        _ => None,
    }
}

/// The same, where all that it gives is known, and counts.
fn step_on(
    found: &ClientValues,
    giving: Giving,
    gives: Option<ByteRange>,
    request: &Request,
) -> Option<AtomicStep>
    ensures value { result ≡ step_on giving gives request.now found.now.hidden }
    ensures sound { IfSome result IsStep }
{
    if giving != Giving::AsItSays || found.hidden(0) != 0 {
        return None;
    }
    step_by(request, gives)
}

/// The message that had begun is whole, and a request: what it gives is known. A reply to it is due, or came before.
pub(crate) fn finish(
    memory: &mut ValueMemory,
    found: &mut ClientValues,
    errors: Errors,
    begun: Begun,
    request: &Request,
    due: &Option<ReplyView>,
)
    requires { HasRange begun }
    ensures memory { contents_of memory.new ≡ finished_memory errors begun request.now due.now found.old (contents_of memory.old) }
    ensures numbers { found.new ≡ finished errors begun request.now due.now (contents_of memory.old) found.old }
    ensures counts { KeepsCounts memory.old memory.new }
{
    let failed = has_failed(errors, found.struck(), request, due);
    let giving = giving_on(memory, errors, begun.gives, failed, request);
    give_whole(memory, found, begun, giving, request);
    let step = step_on(found, giving, begun.gives, request);
    found.accept(request.source(), Asked { begun, step });
}

// ---- an atomic's reply

/// What an atomic makes is known, where its reply tells all that it reads, with a right beat.
pub(crate) fn make(memory: &mut ValueMemory, asked: Asked, told: u8, payload: u64, lanes: u8)
    requires { IsAsked asked }
    ensures state { contents_of memory.new ≡ made_if asked told payload lanes (contents_of memory.old) }
    ensures counts { KeepsCounts memory.old memory.new }
{
    let Some(step) = asked.step else {
        return;
    };
    if told == 0 || told & lanes != 0 {
        return;
    }
    let made = made_word(step, payload);
    memory.give(asked.begun.number, step.address, made.lanes, made);
}

// ---- a request ends

/// A request ends, on what it may give.
pub(crate) fn end_if(memory: &mut ValueMemory, begun: Begun)
    requires { HasRange begun }
    ensures state { contents_of memory.new ≡ ended_if begun (contents_of memory.old) }
    ensures counts { KeepsCounts memory.old memory.new }
{
    let Some(range) = begun.gives else {
        return;
    };
    memory.end(begun.number, range);
}

/// The lesser of a number and that of a client's oldest.
fn lesser(number: u64, live: &[Begun]) -> u64
    ensures { result ≡ lesser number live.now }
{
    match live.first() {
        None => number,
        Some(first) => number.min(first.number),
    }
}

/// The number of the oldest of all that are in flight, or have begun; of none, this number.
pub(crate) fn oldest_from(number: u64, clients: &[ClientValues]) -> u64
    ensures { result ≡ oldest_from number clients.now }
{
    let mut oldest = number;
    for client in clients {
        oldest = lesser(oldest, client.live());
    }
    oldest
}

// ---- error responses

/// Whether a burst has a byte of a range.
fn shares(span: Span, range: ByteRange) -> bool
    requires { IsByteRange range }
    ensures { result ≡ shares span range }
{
    u64::from(range.address) <= span.last
        && u64::from(span.first) < u64::from(range.address) + (1u64 << range.size)
}

/// A request has failed that shares a byte with a burst.
fn fail_if(memory: &mut ValueMemory, span: Span, begun: Begun)
    requires { HasRange begun }
    ensures state { contents_of memory.new ≡ failed_if span begun.number begun.gives (contents_of memory.old) }
    ensures counts { KeepsCounts memory.old memory.new }
{
    let Some(range) = begun.gives else {
        return;
    };
    if shares(span, range) {
        memory.fail(begun.number, range);
    }
}

/// Each of some requests has failed that shares a byte with a burst.
fn fail_each(memory: &mut ValueMemory, span: Span, live: &[Begun])
    requires { AllByRecursion HasRange live.now }
    ensures state { contents_of memory.new ≡ failed_each span live.now (contents_of memory.old) }
    ensures counts { KeepsCounts memory.old memory.new }
{
    for begun in live {
        fail_if(memory, span, *begun);
    }
}

/// And of those of some clients.
pub(crate) fn fail_all(memory: &mut ValueMemory, span: Span, clients: &[ClientValues])
    ensures state { contents_of memory.new ≡ failed_all span clients.now (contents_of memory.old) }
    ensures counts { KeepsCounts memory.old memory.new }
{
    for client in clients {
        fail_each(memory, span, client.live());
    }
}

/// Whether a burst shares a byte with what the request may give whose message has begun.
fn strikes(span: Span, coming: Option<Begun>) -> bool
    requires { IfSome coming HasRange }
    ensures { result ≡ strikes span coming }
{
    let Some(begun) = coming else {
        return false;
    };
    match begun.gives {
        None => false,
        Some(range) => shares(span, range),
    }
}

/// That is kept with the message.
fn strike(client: &mut ClientValues, span: Span)
    ensures { client.new ≡ struck_by span client.old }
{
    let shares = strikes(span, client.coming());
    client.strike(shares);
}

/// And with those of some clients.
pub(crate) fn strike_each(clients: &mut [ClientValues], span: Span)
    ensures { clients.new ≡ map (struck_by span) clients.old }
{
    for client in clients.iter_mut() {
        strike(client, span);
    }
}

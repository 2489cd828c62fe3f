//! The table of live requests: which of them are held back, and random histories.
ghost use Rattle.std.specs.Prelude.{◌≡◌, ◌<◌, false, IfSome, IsSome, IsSomeAnd, IsTrue};
ghost use Rattle.flight_table.specs.Order.{is_ready};
ghost use Rattle.flight_table.specs.Tables.{request_at, table_of};

mod histories;
mod plain;

use super::same;
use burst_plan::Plan;
use flight_table::{Flight, Key};
use std::alloc::{AllocError, Global};
use std::test::Fail;
use tl_messages::{ABeat, Operation, Request};

/// Where a request is sent.
#[derive(Clone, Copy)]
enum Way {
    /// To an AXI address, in bursts of up to 16 transfers of eight bytes.
    Wide(u32),
    /// To an AXI address, in bursts of up to 256 transfers of four bytes.
    Narrow(u32),
    Nowhere,
}

fn plan_of(size: u8, way: Way) -> Option<Plan> {
    let (start, is_narrow) = match way {
        Way::Wide(start) => (start, false),
        Way::Narrow(start) => (start, true),
        Way::Nowhere => return None,
    };
    if size > 12 || start % (1u32 << size) != 0 {
        return None;
    }
    if is_narrow {
        Some(Plan::new_of(start, size, 256, 4))
    } else {
        Some(Plan::new_of(start, size, 16, 8))
    }
}

/// Begins a request by its first beat, if it has an operation and a size.
fn begin(request: &mut Request, client: u8, beat: &ABeat) {
    if Operation::named(beat.opcode, beat.param).is_some() && beat.size <= 12 {
        request.begin(client, beat);
    }
}

/// Whether a key is that of the live request with this number, or none where there is no number.
fn is_of(flight: &Flight, key: Option<Key>, number: Option<u64>) -> bool {
    match number {
        Some(number) => key.is_some() && flight.key_of(number) == key,
        None => key.is_none(),
    }
}

/// Whether a live request has a smaller number than each that may send: so it may not.
fn is_before_ready(flight: &Flight, key: Key) -> bool
    requires { IsSome (request_at key flight.now) }
    ensures { IsTrue result → IfSome (request_at key flight.now) (λ request. is_ready (table_of flight.now) request ≡ false) }
{
    let Some(first) = flight.next_ready() else {
        return true;
    };
    flight.number(key) < flight.number(first)
}

/// The request that holds an ID, where it is seen of it that one of its bursts is unanswered: it isn't settled, and may not
/// send.
fn open_of(flight: &Flight, id: u8) -> Option<Key>
    ensures { IfSome result (λ key. IsSomeAnd (request_at key flight.now) (λ request. request.answered < request.sent)) }
{
    let key = flight.of_id(id)?;
    if flight.is_settled(key) || !is_before_ready(flight, key) {
        return None;
    }
    Some(key)
}

/// A request is accepted, where its client has room and its source is free.
fn accept(flight: &mut Flight, client: u8, request: &Request, plan: Option<Plan>)
    requires { flight.old.limits.clients ≡ 8 }
    ensures { flight.new.limits.clients ≡ 8 }
{
    if client >= 8 || flight.accepted() >= 1000 || !flight.room(client) {
        return;
    }
    if flight.busy(client, request.source()) {
        return;
    }
    flight.accept(client, request, plan);
}

/// The first beat of a request of eight bytes at 0.
fn asked(opcode: u8, source: u8) -> ABeat {
    ABeat {
        opcode,
        param: 0,
        size: 3,
        source,
        address: 0,
        mask: 0xff,
        payload: 0,
        corrupt: false,
    }
}

/// A table of eight requests of each of eight clients, all of this opcode and of the same bytes.
fn full(alloc: Global, opcode: u8) -> Result<Flight, AllocError> {
    let mut request = Request::new(alloc)?;
    let mut flight = Flight::new(alloc, 8, 8, 16, 2)?;
    for number in 0..64u8 {
        let client = number / 8;
        begin(&mut request, client, &asked(opcode, number % 8));
        let plan = plan_of(3, Way::Wide(0x10000));
        accept(&mut flight, client, &request, plan);
    }
    Ok(flight)
}

/// Sends the burst of the request with this number, which has to be the next and the only one that may send, under ID 0.
fn sends_alone(flight: &mut Flight, number: u64) -> bool {
    let Some(key) = flight.next_ready() else {
        return false;
    };
    let is_it = flight.number(key) == number;
    let id = flight.sent(key);
    is_it && id == 0 && flight.next_ready().is_none()
}

/// The burst of a request is answered, which is its only one, and the request is done; it holds ID 0.
fn ends(flight: &mut Flight, number: u64) -> bool {
    let Some(key) = open_of(flight, 0) else {
        return false;
    };
    flight.answered(key);
    let Some(key) = flight.key_of(number) else {
        return false;
    };
    if !flight.is_settled(key) {
        return false;
    }
    flight.finished(key);
    true
}

/// By how many the request of a number is held back; none where it isn't live.
fn held_by(flight: &Flight, number: u8) -> Option<u8> {
    let key = flight.key_of(u64::from(number))?;
    Some(flight.held_by(key))
}

/// How many of the 64 from a number on are held back by all from there to them, or by none.
fn held(flight: &Flight, first: u8, by_all: bool) -> u8 {
    let mut count = 0u8;
    for number in first..64 {
        let wanted = if by_all { number - first } else { 0 };
        let is_wanted = held_by(flight, number) == Some(wanted);
        count = count.saturating_add(u8::from(is_wanted));
    }
    count
}

#[test]
fn puts_are_held_by_those_before(rt: HostRuntime) -> Result<(), Fail> {
    let mut puts = full(rt.alloc(), 0)?;
    same(&rt, "Puts", held(&puts, 0, true), 64);
    same(&rt, "the first goes alone", sends_alone(&mut puts, 0), true);
    assert!(rt; ends(&mut puts, 0));
    same(&rt, "Puts behind the first", held(&puts, 1, true), 63);
    let second = sends_alone(&mut puts, 1);
    same(&rt, "the second goes alone", second, true);
    Ok(())
}

#[test]
fn gets_are_held_by_none(rt: HostRuntime) -> Result<(), Fail> {
    let gets = full(rt.alloc(), 4)?;
    same(&rt, "Gets", held(&gets, 0, false), 64);
    Ok(())
}

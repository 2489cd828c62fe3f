//! Random histories of the table, beside a plain one that walks over all its requests.
ghost use Rattle.std.specs.Prelude.{◌≡◌};

use super::plain::{Call, PlainRequest, PlainTable};
use super::{Way, begin, is_of, open_of, plan_of};
use crate::tests::same;
use burst_plan::Plan;
use flight_table::Flight;
use std::alloc::{AllocError, Global};
use std::test::Fail;
use tl_messages::{ABeat, Request};

/// How many turns each history has.
const TURNS: u32 = 800;

/// How many of the eight clients ask, the quota, the IDs and the depth of a history's table, and whether its bus has four
/// bytes.
type Shape = (u8, u8, u8, u8, bool);

const SHAPES: [Shape; 5] = [
    (8, 8, 16, 4, false),
    (8, 8, 3, 2, true),
    (2, 4, 16, 2, false),
    (3, 8, 1, 1, true),
    (1, 1, 16, 4, false),
];

/// Both tables, the lot, room for a request, and how many calls were made for live ones.
#[derive(Drop)]
struct Pair {
    flight: Flight,
    plain: PlainTable,
    lot: u64,
    request: Request,
    calls: u32,
    ghost clients: { flight.limits.clients ≡ 8 },
}

/// A number by lot, below `count`; 0 where `count` is 0.
fn draw(lot: &mut u64, count: u64) -> u64 {
    *lot = lot
        .wrapping_mul(6364136223846793005)
        .wrapping_add(1442695040888963407);
    if count == 0 { 0 } else { (*lot >> 33) % count }
}

fn draw_byte(lot: &mut u64, count: u8) -> u8 {
    u8::try_from(draw(lot, u64::from(count))).unwrap_or(0)
}

/// A request's first beat: of atomics and half of the others at most eight bytes, a third of the small ones in the same 64
/// bytes, a third of all in two pages, and the others anywhere in 80 pages.
fn draw_beat(lot: &mut u64) -> ABeat {
    let opcode = draw_byte(lot, 6);
    let is_small = matches!(opcode, 2 | 3) || draw(lot, 2) == 0;
    let size = draw_byte(lot, if is_small { 4 } else { 13 });
    let room = match draw(lot, 3) {
        0 if is_small => 64,
        1 => 8192,
        _ => 327_680,
    };
    let place = draw(lot, room);
    let start = place.saturating_sub(place % (1u64 << (size % 64)));
    ABeat {
        opcode,
        param: 0,
        size,
        source: draw_byte(lot, 16),
        address: u32::try_from(start).unwrap_or(0),
        mask: 0xff,
        payload: 0,
        corrupt: false,
    }
}

/// The plan of a request; one in eight has none.
fn draw_plan(lot: &mut u64, beat: &ABeat, is_narrow: bool) -> Option<Plan> {
    let start = beat.address.saturating_add(0x10000);
    let way = match draw(lot, 8) {
        0 => Way::Nowhere,
        _ if is_narrow => Way::Narrow(start),
        _ => Way::Wide(start),
    };
    plan_of(beat.size, way)
}

impl Pair {
    /// The request begins, and its client has room for it or not; both tables say the same, and accept it or don't.
    fn accepts(&mut self, client: u8, beat: &ABeat, plan: Option<Plan>) -> bool {
        begin(&mut self.request, client, beat);
        let source = self.request.source();
        let is_free = self.flight.room(client) && !self.flight.busy(client, source);
        if is_free != (self.plain.has_room(client) && !self.plain.is_busy(client, beat.source)) {
            return false;
        }
        if !is_free || client >= 8 || self.flight.accepted() >= 10_000 {
            return true;
        }
        let wanted = self.plain.accept(client, beat, plan).ok();
        if self.plain.accepted % 2 == 0 {
            return Some(self.flight.accept(client, &self.request, plan)) == wanted;
        }
        let (number, key) = self.flight.accept_keyed(client, &self.request, plan);
        Some(number) == wanted && self.flight.key_of(number) == Some(key)
    }

    /// Both send their next burst under the same ID, or neither has one.
    fn sends(&mut self) -> bool {
        let Some(key) = self.flight.next_ready() else {
            return true;
        };
        let Some(request) = self.plain.next_ready() else {
            return false;
        };
        let id = self.flight.sent(key);
        self.plain.send(&request) == Some(id)
    }

    /// A live request by lot of those that a call can be made for.
    fn one_for(&mut self, call: Call) -> Option<PlainRequest> {
        let count = self.plain.count_for(call);
        let k = draw(&mut self.lot, count);
        self.plain.one_for(call, k)
    }

    /// A burst of one request is answered, where no request up to it may send.
    fn answers(&mut self) -> bool {
        let Some(request) = self.one_for(Call::Answer) else {
            return true;
        };
        let is_open = match self.plain.next_ready() {
            Some(ready) => request.number < ready.number,
            None => true,
        };
        let Some(key) = open_of(&self.flight, request.id.unwrap_or(16)) else {
            return !is_open;
        };
        self.calls = self.calls.saturating_add(1);
        self.flight.answered(key);
        self.plain.make(request.number, Call::Answer);
        is_open && is_of(&self.flight, Some(key), Some(request.number))
    }

    /// The write of one atomic that has read is planned.
    fn plans(&mut self) -> bool {
        let Some(request) = self.one_for(Call::PlanWrite) else {
            return true;
        };
        let Some(key) = self.flight.key_of(request.number) else {
            return false;
        };
        if !self.flight.awaits_write(key) {
            return false;
        }
        self.calls = self.calls.saturating_add(1);
        self.flight.plan_write(key);
        self.plain.make(request.number, Call::PlanWrite).is_some()
    }

    /// One request is done.
    fn finishes(&mut self) -> bool {
        let Some(request) = self.one_for(Call::Finish) else {
            return true;
        };
        let Some(key) = self.flight.key_of(request.number) else {
            return false;
        };
        if !self.flight.is_settled(key) {
            return false;
        }
        self.calls = self.calls.saturating_add(1);
        self.flight.finished(key);
        self.plain.make(request.number, Call::Finish).is_some()
    }

    /// A client's done request of the smallest number leaves both, or none is there.
    fn releases(&mut self, client: u8) -> bool {
        let Some(number) = self.plain.oldest_done(client) else {
            return true;
        };
        let Some(key) = self.flight.oldest_done(client) else {
            return false;
        };
        self.calls = self.calls.saturating_add(1);
        self.plain.release(number);
        self.flight.release(key) == number && self.flight.key_of(number).is_none()
    }

    /// A turn by lot; whether both tables do the same.
    fn turns(&mut self, shape: Shape) -> bool {
        let (clients, _, _, _, is_narrow) = shape;
        let client = draw_byte(&mut self.lot, clients);
        match draw(&mut self.lot, 10) {
            0 | 1 => {
                let beat = draw_beat(&mut self.lot);
                let plan = draw_plan(&mut self.lot, &beat, is_narrow);
                self.accepts(client, &beat, plan)
            }
            2..=4 => self.sends(),
            5 | 6 => self.answers(),
            7 => self.plans(),
            8 => self.finishes(),
            _ => self.releases(client),
        }
    }

    /// Whether both show the same of a client and one of its sources.
    fn is_same_client(&self, client: u8, source: u8) -> bool {
        let (flight, plain) = (&self.flight, &self.plain);
        let done = plain.oldest_done(client);
        flight.room(client) == plain.has_room(client)
            && flight.busy(client, source) == plain.is_busy(client, source)
            && is_of(flight, flight.oldest_done(client), done)
            && flight.first_done(client) == done.is_some()
    }

    /// Whether both show the same of each client, one of its sources, and each ID.
    fn are_same_clients(&self, source: u8) -> bool {
        for client in 0..8u8 {
            if !self.is_same_client(client, source) {
                return false;
            }
        }
        for id in 0..16u8 {
            if !is_of(&self.flight, self.flight.of_id(id), self.plain.of_id(id)) {
                return false;
            }
        }
        true
    }

    /// Whether the table shows a live request as the plain one has it.
    fn is_same(&self, request: &PlainRequest) -> bool {
        let flight = &self.flight;
        let Some(key) = flight.key_of(request.number) else {
            return false;
        };
        let own = (flight.number(key), flight.client(key));
        own == (request.number, request.client)
            && usize::from(flight.held_by(key)) == self.plain.held_by(request)
            && flight.is_settled(key) == request.is_settled()
            && flight.awaits_write(key) == request.awaits_write()
            && flight.plan(key) == request.plan
    }

    /// Whether the table shows each live request as the plain one has it.
    fn are_same_requests(&self) -> bool {
        for request in self.plain.live.as_slice() {
            if !self.is_same(request) {
                return false;
            }
        }
        true
    }

    /// Whether both would send the same burst.
    fn is_same_next(&self) -> bool {
        let Some(key) = self.flight.next_ready() else {
            return self.plain.next_ready().is_none();
        };
        let Some(request) = self.plain.next_ready() else {
            return false;
        };
        let piece = self.flight.next_piece(key);
        let is_write = self.flight.next_is_write(key);
        (self.flight.number(key), Some(piece), is_write)
            == (request.number, request.next(), request.writing)
    }

    /// Whether both have accepted as many, and have the same sums.
    fn are_same_sums(&self) -> bool {
        let flight = &self.flight;
        let sums = (
            u64::from(flight.in_flight()),
            flight.work(),
            flight.unsent_work(),
        );
        sums == self.plain.sums()
            && flight.accepted() == self.plain.accepted
            && flight.key_of(self.plain.accepted).is_none()
    }

    /// Whether both show the same.
    fn are_same(&mut self) -> bool {
        let source = draw_byte(&mut self.lot, 16);
        self.are_same_clients(source)
            && self.are_same_requests()
            && self.is_same_next()
            && self.are_same_sums()
    }

    /// How many turns went so before one that didn't.
    fn goes(&mut self, shape: Shape) -> u32 {
        for made in 0..TURNS {
            if !self.turns(shape) || !self.are_same() {
                return made;
            }
        }
        TURNS
    }
}

/// Both tables, empty; none where there can't be such tables.
fn fresh(alloc: Global, shape: Shape) -> Result<Option<Pair>, AllocError> {
    let (_, quota, ids, depth, _) = shape;
    if quota < 1 || quota > 8 || ids < 1 || ids > 16 || depth < 1 || depth > 4 {
        return Ok(None);
    }
    Ok(Some(Pair {
        flight: Flight::new(alloc, 8, quota, ids, depth)?,
        plain: PlainTable::new(alloc, quota, ids, depth),
        lot: 1,
        request: Request::new(alloc)?,
        calls: 0,
    }))
}

#[test]
fn are_as_the_plain_table_has_them(rt: HostRuntime) -> Result<(), Fail> {
    for shape in SHAPES {
        let mut pair = fresh(rt.alloc(), shape)?.expect(&rt, "limits of a table");
        same(&rt, shape, pair.goes(shape), TURNS);
        assert!(rt; pair.plain.accepted > 10 && pair.calls > 50, "{shape:?}");
    }
    Ok(())
}

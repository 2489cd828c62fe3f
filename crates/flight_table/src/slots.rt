//! The live requests in a slab, and their keys by rising number.
ghost use Rattle.std.specs.Prelude.{◌≡◌, ◌<◌, ◌≤◌, ℕ, Bool, [], ◌∷◌, ◌++◌, Some, IfOk, IfSome, IsSome, IsSomeAnd, None, length, map, position};
ghost use Rattle.flight_table.specs.Inside.{lowered_place};
ghost use Rattle.flight_table.specs.LiveRequests.{LiveRequest};
ghost use Rattle.bus_words.specs.Places.{change_first, without_first};
ghost use Rattle.flight_table.specs.Tables.{change_entry, has_key, has_number, key_in, request_in, requests_of};
ghost use Rattle.flight_table.specs.Laws.{HaveOwnKeys};
ghost use Rattle.flight_table.specs.Progress.{MayStep, stepped};

use crate::live_request::{LiveRequest, Step};
use crate::scans::{key_at, of_number};
use slab::Slab;
use std::alloc::{AllocError, Global};
use std::marker::Model;

/// How many requests can be live at once.
pub(crate) const ROOM: usize = 64;

/// The key of a live request, by which calls name it; a plain value. After its release a key may name a later request. There
/// are 64 of them, so that what else is kept of a live request may lie in the slot of its key.
#[derive(Clone, Copy, PartialEq, Eq)]
pub struct Key {
    slot: u8,
}

impl Model for Key {
    ghost use Rattle.std.specs.Prelude.{ℕ, ◌<◌};

    ghost Value = { ℕ };

    ghost view = { λ k. k.slot };

    ghost invariant = { λ k. k.slot < 64 };

    ghost inverse = { λ n. record { slot = n } };
}

impl Key {
    /// Its slot, from 0 to 63: no other live request has it.
    pub fn slot(self) -> usize
        ensures value { result ≡ self }
        ensures within { result < 64 }
    {
        usize::from(self.slot)
    }
}

/// The live requests, each in a slab under its key, the keys in the order of acceptance, and by slot its request's place there.
#[derive(Drop)]
pub(crate) struct Slots {
    requests: Slab<LiveRequest>,
    order: Vec<Key>,
    places: [u8; 64],
}

impl Model for Slots {
    ghost use Rattle.std.specs.Prelude.{◌≡◌, List, ◌≤◌, length};
    ghost use Rattle.std.specs.Vec.{vec_len, vec_capacity};
    ghost use Rattle.flight_table.specs.Inside.{ArePlaces, IsIndex, entries_in};
    ghost use Rattle.flight_table.specs.Tables.{KeyedRequest};

    ghost Value = { List KeyedRequest };

    ghost view = { λ l. entries_in l.requests l.order.items };

    ghost invariant = { λ l. IsIndex l.requests l.order.items × (64 ≤ vec_capacity l.order) × (l.requests.capacity ≡ 64) × (vec_len l.order ≤ 64) × ArePlaces 0 l.places l.order.items × (length l.places ≡ 64) };
}

/// The places, after the request at one of them was taken out: the later ones fall by one.
fn lower(places: &mut [u8; 64], place: u8)
    ensures { places.new ≡ map (lowered_place place) places.old }
{
    for other in places.iter_mut() {
        *other -= u8::from(*other > place);
    }
}

impl Slots {
    /// No live requests, with room for 64.
    pub(crate) fn new(alloc: Global) -> Result<Self, AllocError>
        ensures { IfOk result (λ slots. slots ≡ []) }
    {
        let requests = Slab::with_capacity(alloc, ROOM)?;
        // A slab of more room would have keys beyond those that there are.
        if requests.capacity() != ROOM {
            return Err(AllocError);
        }
        let order = Vec::with_capacity(alloc, ROOM)?;
        Ok(Slots {
            requests,
            order,
            places: [0; 64],
        })
    }

    /// Adds the latest request, and answers its key.
    pub(crate) fn add(&mut self, request: LiveRequest) -> Key
        requires { length self.old < 64 }
        ensures entries { self.new ≡ self.old ++ record { key = result; request = request } ∷ [] }
        ensures fresh { request_in result self.old ≡ None }
        ensures old_keys { HaveOwnKeys self.old }
        ensures keys { HaveOwnKeys self.new }
    {
        let slot = self.requests.insert_reserved(request);
        let key = Key { slot: slot as u8 };
        self.places[slot] = self.order.len() as u8;
        self.order.push_reserved(key);
        key
    }

    /// The request of a key, where it lies.
    pub(crate) fn get(&self, key: Key) -> &LiveRequest
        requires { IsSome (request_in key self.now) }
        ensures request { request_in key self.now ≡ Some result.now }
        ensures keys { HaveOwnKeys self.now }
    {
        &self.requests[key.slot()]
    }

    /// The request of a key takes a step, where it lies.
    #[inline(always)]
    pub(crate) fn take(&mut self, key: Key, step: Step)
        requires { IsSomeAnd (request_in key self.old) (MayStep step) }
        ensures entries { self.new ≡ change_first (has_key key) (change_entry (stepped step)) self.old }
        ensures keys { HaveOwnKeys self.new }
    {
        self.requests[key.slot()].take(step);
    }

    /// The place of a slot's request in the order of acceptance.
    pub(crate) fn place_in(&self, slot: usize) -> usize
        requires slot { slot < 64 }
        requires live { IsSome (request_in slot self.now) }
        ensures place { position (has_key slot) self.now ≡ Some result }
        ensures within { result < length (requests_of self.now) }
        ensures keys { HaveOwnKeys self.now }
    {
        usize::from(self.places[slot])
    }

    /// The place of a key in the order of acceptance.
    pub(crate) fn place_of(&self, key: Key) -> usize
        requires { IsSome (request_in key self.now) }
        ensures place { position (has_key key) self.now ≡ Some result }
        ensures within { result < length (requests_of self.now) }
    {
        self.place_in(key.slot())
    }

    /// The key at a place, where there is one.
    pub(crate) fn key_at(&self, place: Option<usize>) -> Option<Key>
        requires { IfSome place (λ k. k < length (requests_of self.now)) }
        ensures key { (test : LiveRequest → Bool) → place ≡ position test (requests_of self.now) → result ≡ key_in test self.now }
        ensures keys { HaveOwnKeys self.now }
    {
        key_at(&self.order, place)
    }

    /// Takes the request of a key out.
    pub(crate) fn remove(&mut self, key: Key)
        requires { IsSome (request_in key self.old) }
        ensures entries { self.new ≡ without_first (has_key key) self.old }
        ensures keys { HaveOwnKeys self.new }
    {
        let place = self.places[key.slot()];
        self.order.remove(usize::from(place));
        lower(&mut self.places, place);
        self.requests.try_remove(key.slot());
    }

    /// The key of the request with this number.
    pub(crate) fn of_number(&self, number: u64) -> Option<Key>
        ensures key { result ≡ key_in (has_number number) self.now }
        ensures keys { HaveOwnKeys self.now }
    {
        of_number(&self.requests, &self.order, number)
    }
}

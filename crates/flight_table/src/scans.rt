//! Scans of the live requests in the order of their keys.
ghost use Rattle.std.specs.Prelude.{◌≡◌, ℕ, ◌<◌, Bool, IfSome, position, find, length};
ghost use Rattle.flight_table.specs.Inside.{stored};
ghost use Rattle.flight_table.specs.Tables.{has_number};

use crate::live_request::LiveRequest;
use crate::slots::Key;
use slab::Slab;
use tl_messages::Operation;

/// The request of a key.
pub(crate) fn stored(requests: &Slab<LiveRequest>, key: Key) -> LiveRequest
    ensures { result ≡ stored requests.now key }
{
    match requests.get(key.slot()) {
        Some(request) => *request,
        None => LiveRequest {
            number: 0,
            client: 0,
            source: 0,
            operation: Operation::Get,
            plan: None,
            id: None,
            writing: false,
            sent: 0,
            answered: 0,
            done: false,
        },
    }
}

/// The key at a place, where there is one.
pub(crate) fn key_at(order: &[Key], place: Option<usize>) -> Option<Key>
    requires { IfSome place (λ k. k < length order.now) }
    ensures { (test : ℕ → Bool) → place ≡ position test order.now → result ≡ find test order.now }
{
    match place {
        Some(place) => Some(order[place]),
        None => None,
    }
}

/// The place of the request with this number.
fn place_of_number(requests: &Slab<LiveRequest>, order: &[Key], number: u64) -> Option<usize>
    ensures { result ≡ position (λ k. has_number number (stored requests.now k)) order.now }
{
    order
        .iter()
        .position(|key| stored(requests, *key).number == number)
}

/// The key of the request with this number.
pub(crate) fn of_number(requests: &Slab<LiveRequest>, order: &[Key], number: u64) -> Option<Key>
    ensures { result ≡ find (λ k. has_number number (stored requests.now k)) order.now }
{
    key_at(order, place_of_number(requests, order, number))
}

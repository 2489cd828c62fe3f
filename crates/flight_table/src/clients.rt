//! Each client's live requests.
ghost use Rattle.std.specs.Prelude.{◌≡◌, ◌<◌, ◌≤◌, Bool, [], ◌∷◌, ◌++◌, IfOk, IsSome, find, length, map, option_map, position, replicate, slice_index_or, slice_set};
ghost use Rattle.std.specs.List.{list_any};
ghost use Rattle.std.specs.Vec.{vec_len, vec_capacity};
ghost use Rattle.bus_words.specs.Places.{change_first, without_first};
ghost use Rattle.flight_table.specs.Clients.{has_own_key, has_own_source, own_done, own_finished};

use crate::marks::Marks;
use crate::slots::Key;
use std::alloc::{AllocError, Global};
use std::marker::Model;

/// How many clients there can be.
pub(crate) const CLIENTS: usize = 8;

/// How many requests of a client can be live at once.
const QUOTA: usize = 8;

/// What is kept of a client's live request.
#[derive(Clone, Copy)]
pub(crate) struct OwnRequest {
    pub(crate) key: Key,
    pub(crate) source: u8,
    pub(crate) done: bool,
}

/// A client's live requests, in the order of acceptance, and marks of those that are done.
#[derive(Drop)]
pub(crate) struct Client {
    requests: Vec<OwnRequest>,
    done: Marks,
}

impl Model for Client {
    ghost use Rattle.std.specs.Prelude.{List, ◌≡◌, ◌≤◌, map};
    ghost use Rattle.std.specs.Vec.{vec_capacity};
    ghost use Rattle.flight_table.specs.Clients.{own_done};
    ghost use Rattle.flight_table.specs.declared.clients.OwnRequest.{OwnRequest};

    ghost Value = { List OwnRequest };

    ghost view = { λ c. c.requests.items };

    ghost invariant = { λ c. (8 ≤ vec_capacity c.requests) × (c.done ≡ map own_done c.requests.items) };
}

/// The place of a key.
fn place_of(requests: &[OwnRequest], key: Key) -> Option<usize>
    ensures { result ≡ position (has_own_key key) requests.now }
{
    requests.iter().position(|own| own.key == key)
}

impl Client {
    /// No live requests, with room for 8.
    fn new(alloc: Global) -> Result<Self, AllocError>
        ensures { IfOk result (λ client. client ≡ []) }
    {
        let requests = Vec::with_capacity(alloc, QUOTA)?;
        Ok(Client {
            requests,
            done: Marks::new(),
        })
    }

    /// Adds the client's latest request.
    fn add(&mut self, request: OwnRequest)
        requires { length self.old < 8 }
        ensures { self.new ≡ self.old ++ request ∷ [] }
    {
        self.done.push(request.done);
        self.requests.push_reserved(request);
    }

    /// The request of a key is done from here on.
    fn finish(&mut self, key: Key)
        requires { IsSome (position (has_own_key key) self.old) }
        ensures { self.new ≡ change_first (has_own_key key) own_finished self.old }
    {
        let place = place_of(&self.requests, key).unwrap();
        self.requests[place].done = true;
        self.done.put(place, true);
    }

    /// Takes the request of a key out.
    fn remove(&mut self, key: Key)
        requires { IsSome (position (has_own_key key) self.old) }
        ensures { self.new ≡ without_first (has_own_key key) self.old }
    {
        let place = place_of(&self.requests, key).unwrap();
        self.requests.remove(place);
        self.done.remove(place);
    }

    /// How many requests the client has.
    fn count(&self) -> usize
        ensures { result ≡ length self.now }
    {
        self.requests.len()
    }

    /// Whether one of them has this source.
    fn has_source(&self, source: u8) -> bool
        ensures { result ≡ list_any (has_own_source source) self.now }
    {
        self.requests.iter().any(|own| own.source == source)
    }

    /// The key of the first that is done.
    fn first_done(&self) -> Option<Key>
        ensures { result ≡ option_map (λ own. own.key) (find own_done self.now) }
    {
        let place = self.done.first()?;
        Some(self.requests[place].key)
    }
}

/// The live requests of each of 8 clients.
#[derive(Drop)]
pub(crate) struct Clients {
    clients: Vec<Client>,
}

impl Model for Clients {
    ghost use Rattle.std.specs.Prelude.{List};
    ghost use Rattle.flight_table.specs.declared.clients.OwnRequest.{OwnRequest};

    ghost Value = { List (List OwnRequest) };

    ghost view = { λ c. c.clients.items };
}

/// So many clients, none of which has a request.
fn fill(alloc: Global, clients: &mut Vec<Client>) -> Result<(), AllocError>
    requires none { clients.old.items ≡ [] }
    requires room { 8 ≤ vec_capacity clients.old }
    ensures { IfOk result (λ done. clients.new.items ≡ replicate 8 []) }
{
    for _client in 0..CLIENTS {
        clients.push_reserved(Client::new(alloc)?);
    }
    Ok(())
}

impl Clients {
    /// No live requests of 8 clients, with room for 8 of each.
    pub(crate) fn new(alloc: Global) -> Result<Self, AllocError>
        ensures { IfOk result (λ clients. clients ≡ replicate 8 []) }
    {
        let mut clients = Vec::with_capacity(alloc, CLIENTS)?;
        fill(alloc, &mut clients)?;
        Ok(Clients { clients })
    }

    /// Adds a client's latest request.
    pub(crate) fn add(&mut self, client: u8, request: OwnRequest)
        requires client { client < length self.old }
        requires room { length (slice_index_or self.old client []) < 8 }
        ensures { self.new ≡ slice_set self.old client (slice_index_or self.old client [] ++ request ∷ []) }
    {
        self.clients[usize::from(client)].add(request);
    }

    /// A client's request is done from here on.
    pub(crate) fn finish(&mut self, client: u8, key: Key)
        requires client { client < length self.old }
        requires there { IsSome (position (has_own_key key) (slice_index_or self.old client [])) }
        ensures { self.new ≡ slice_set self.old client (change_first (has_own_key key) own_finished (slice_index_or self.old client [])) }
    {
        self.clients[usize::from(client)].finish(key);
    }

    /// Takes a client's request out.
    pub(crate) fn remove(&mut self, client: u8, key: Key)
        requires client { client < length self.old }
        requires there { IsSome (position (has_own_key key) (slice_index_or self.old client [])) }
        ensures { self.new ≡ slice_set self.old client (without_first (has_own_key key) (slice_index_or self.old client [])) }
    {
        self.clients[usize::from(client)].remove(key);
    }

    /// How many live requests a client has.
    pub(crate) fn count(&self, client: u8) -> usize
        ensures { result ≡ length (slice_index_or self.now client []) }
    {
        match self.clients.get(usize::from(client)) {
            Some(own) => own.count(),
            None => 0,
        }
    }

    /// Whether a live request of a client has this source.
    pub(crate) fn has_source(&self, client: u8, source: u8) -> bool
        ensures { result ≡ list_any (has_own_source source) (slice_index_or self.now client []) }
    {
        match self.clients.get(usize::from(client)) {
            Some(own) => own.has_source(source),
            None => false,
        }
    }

    /// The key of a client's first request that is done.
    pub(crate) fn first_done(&self, client: u8) -> Option<Key>
        ensures { result ≡ option_map (λ own. own.key) (find own_done (slice_index_or self.now client [])) }
    {
        match self.clients.get(usize::from(client)) {
            Some(own) => own.first_done(),
            None => None,
        }
    }
}

//! The clients of a board, all of them.
ghost use Rattle.std.specs.Prelude.{◌≡◌, ◌≤◌, ℕ, length, map, IfOk, true};
ghost use Rattle.std.specs.List.{range_with_len};
ghost use Rattle.score_setup.specs.ScoreSetups.{is_valid_to_score, limits_of};
ghost use Rattle.scoreboard.specs.Boards.{client_beside, footprints_of, hit_client, opening_client, replies_open};
ghost use Rattle.scoreboard.specs.FailedBursts.{after_reached};
ghost use Rattle.serial_memory.specs.SerialMemory.{doubts_of, rooms_of};
ghost use Rattle.scoreboard.specs.InsideBoards.{ClientsHaveRoom, HaveRoomToWrite, IsMarkedAlone, client_of, footprint_of};
ghost use Rattle.scoreboard.specs.Races.{beside_all, beside_dependent};
ghost use Rattle.scoreboard.specs.Resets.{reset_client};
ghost use Rattle.scoreboard.specs.Unanswered.{messages_begun};

use crate::clients::Client;
use crate::failed_bursts::{Reach, Span};
use crate::footprint::Footprint;
use crate::in_flight::InFlight;
use crate::tellings::one_if;
use score_setup::ScoreConfig;
use serial_memory::SerialMemory;
use std::alloc::{AllocError, Global};

/// Each client of a set-up, of which nothing was observed, with room for so many words in each footprint.
pub(crate) fn opening_clients(
    alloc: Global,
    config: &ScoreConfig,
    room: usize,
) -> Result<Vec<Client>, AllocError>
    requires valid { is_valid_to_score (limits_of config.now) ≡ true }
    requires room { 1 ≤ room }
    ensures { IfOk result (λ clients. (map client_of clients.items ≡ map (opening_client (limits_of config.now)) (range_with_len 0 config.now.clients)) × ClientsHaveRoom room clients.items) }
{
    let mut clients = Vec::with_capacity(alloc, usize::from(config.clients))?;
    for client in 0..config.clients {
        clients.push(Client::new(alloc, config, client, room)?)?;
    }
    Ok(clients)
}

/// How many accepted requests of some clients, at most eight, have a reply that isn't whole.
pub(crate) fn outstanding_of(clients: &[Client]) -> u16
    requires { length clients.now ≤ 8 }
    ensures { result ≡ replies_open (map client_of clients.now) }
{
    let mut count = 0;
    for client in clients {
        count += client.outstanding();
    }
    count
}

/// How many of some clients, at most eight, have begun a message that isn't whole.
pub(crate) fn begun_of(clients: &[Client]) -> u8
    requires { length clients.now ≤ 8 }
    ensures { result ≡ messages_begun (map client_of clients.now) }
{
    let mut count = 0;
    for client in clients {
        count += one_if(client.has_begun());
    }
    count
}

/// What the requests of some clients may write, in flight or begun, isn't determined of another request.
pub(crate) fn limit(joined: &mut InFlight, clients: &[Client])
    ensures footprint { footprint_of joined.new.footprint ≡ beside_all (footprint_of joined.old.footprint) (footprints_of (map client_of clients.now)) }
    ensures room { length joined.new.footprint.determined ≡ length joined.old.footprint.determined }
{
    for client in clients {
        client.limit(joined);
    }
}

/// All bytes are indeterminate of those requests of some clients of which what they write may depend on another.
pub(crate) fn mark_beside(marks: &mut SerialMemory, clients: &[Client], other: &Footprint)
    requires room { HaveRoomToWrite (rooms_of marks.old) (footprints_of (map client_of clients.now)) }
    ensures rest { IsMarkedAlone marks.old marks.new }
    ensures bytes { doubts_of marks.new ≡ beside_dependent (doubts_of marks.old) (footprint_of other.now) (footprints_of (map client_of clients.now)) }
{
    for client in clients {
        client.mark(marks, other);
    }
}

/// What a request may write isn't determined of the requests of some clients, in flight or begun.
pub(crate) fn give_way(clients: &mut [Client], other: &Footprint)
    ensures clients { map client_of clients.new ≡ map (client_beside (footprint_of other.now)) (map client_of clients.old) }
    ensures room { (room : ℕ) → ClientsHaveRoom room clients.old → ClientsHaveRoom room clients.new }
{
    for client in clients.iter_mut() {
        client.give_way(other);
    }
}

/// What those requests of some clients may write, in flight or begun, is indeterminate that an event reaches.
pub(crate) fn mark_reached(marks: &mut SerialMemory, clients: &[Client], reach: Reach)
    requires room { HaveRoomToWrite (rooms_of marks.old) (footprints_of (map client_of clients.now)) }
    ensures rest { IsMarkedAlone marks.old marks.new }
    ensures bytes { doubts_of marks.new ≡ after_reached (doubts_of marks.old) reach (footprints_of (map client_of clients.now)) }
{
    for client in clients {
        client.mark_reached(marks, reach);
    }
}

/// Those requests of some clients, in flight or begun, may have failed that share a byte with a burst that was answered with
/// an error.
pub(crate) fn hit(clients: &mut [Client], span: Span)
    ensures clients { map client_of clients.new ≡ map (hit_client span) (map client_of clients.old) }
    ensures room { (room : ℕ) → ClientsHaveRoom room clients.old → ClientsHaveRoom room clients.new }
{
    for client in clients.iter_mut() {
        client.hit(span);
    }
}

/// Some clients have begun nothing, and nothing of them is in flight any more.
pub(crate) fn reset(clients: &mut [Client])
    ensures clients { map client_of clients.new ≡ map reset_client (map client_of clients.old) }
    ensures room { (room : ℕ) → ClientsHaveRoom room clients.old → ClientsHaveRoom room clients.new }
{
    for client in clients.iter_mut() {
        client.reset();
    }
}

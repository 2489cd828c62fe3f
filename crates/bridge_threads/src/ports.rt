//! What a client's script is on a port of its own.
ghost use Rattle.std.specs.Prelude.{◌≡◌, ◌+◌, ◌-◌, ◌^◌, min, None, true, false, IfSome};
ghost use Rattle.tl_messages.specs.Operations.{beats_of, reply_has_data};
ghost use Rattle.tl_checker.specs.Ports.{opening_port};
ghost use Rattle.tl_checker.specs.RequestRules.{first_fault};
ghost use Rattle.bridge_threads.specs.RefusedBeats.{BreaksRule, front_with};

use std::alloc::{AllocError, Global};
use tl_checker::{Port, Progress, TlRule};
use tl_messages::{ABeat, Request, beats_of};

/// How many replies a script gets at most, and how many beats these have.
#[derive(Clone, Copy)]
pub(crate) struct Room {
    pub replies: usize,
    pub beats: usize,
}

/// With the reply to one request more.
fn with_reply(room: Room, request: &Request) -> Room
    ensures replies { result.replies ≡ min (room.replies + 1) (2 ^ 64 - 1) }
    ensures beats { result.beats ≡ min (room.beats + beats_of request.now.size (reply_has_data request.now.operation)) (2 ^ 64 - 1) }
{
    let beats = beats_of(request.size(), request.operation().reply_has_data());
    Room {
        replies: room.replies.saturating_add(1),
        beats: room.beats.saturating_add(usize::from(beats)),
    }
}

/// The room for the replies to a script's requests, by one walk over its beats. A beat that is refused is passed over.
pub(crate) fn room_for(port: &mut Port, script: &[ABeat]) -> Room
    ensures { port.new ≡ opening_port port.old.limits }
{
    let mut room = Room {
        replies: 0,
        beats: 0,
    };
    port.clear_whole();
    for beat in script {
        if let Ok(Progress::Whole) = port.take_beat(beat, false) {
            if let Some(request) = port.whole() {
                room = with_reply(room, request);
            }
            port.clear_whole();
        }
    }
    port.clear_whole();
    room
}

/// Whether a port takes a beat with no source busy. A request that stands whole then is let go of.
fn passes(port: &mut Port, beat: &ABeat) -> bool
    requires { port.old.whole ≡ None }
    ensures taken { result ≡ true → (first_fault port.old.limits port.old.front beat.now false ≡ None) × (port.new ≡ record port.old { front = front_with port.old.limits port.old.front beat.now }) }
    ensures kept { result ≡ false → port.new ≡ port.old }
{
    let Ok(progress) = port.take_beat(beat, false) else {
        return false;
    };
    if progress == Progress::Whole {
        port.clear_whole();
        return true;
    }
    true
}

/// The rule that a beat of a script breaks where those before it were taken, with no source busy; none where it breaks none,
/// where one before it does, or where there is no such beat.
pub(crate) fn refused_at(port: &mut Port, script: &[ABeat], index: u32) -> Option<TlRule>
    ensures rule { IfSome result (λ rule. BreaksRule port.old.limits script.now index rule) }
    ensures limits { port.new.limits ≡ port.old.limits }
{
    let index = index as usize;
    if index >= script.len() {
        return None;
    }
    port.clear_whole();
    for beat in &script[..index] {
        if !passes(port, beat) {
            return None;
        }
    }
    port.judge(&script[index], false).err()
}

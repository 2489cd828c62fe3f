//! What a worker does in one hold of the lock, on the value under it.
ghost use Rattle.std.specs.Prelude.{◌≡◌, ◌⊎◌, ◌↔◌, ◌+◌, ◌≤◌, List, [], length, true, false, Ok, IsErr, IsTrue};
ghost use Rattle.world.specs.World.{enabled};
ghost use Rattle.world.specs.declared.Step.{Step};
ghost use Rattle.bridge_threads.specs.Turns.{IsChosen, IsHold, StoppedBy, client_move, idle_left, is_over, place_after, within_limit, word_at};
ghost use Rattle.bridge_threads.specs.SharedStates.{turned};
ghost use Rattle.bridge_threads.specs.declared.turns.Turn.TheVariants.{Ended};

use crate::{HistoryFull, Shared};
use tl_checker::TlRule;
use tl_messages::{ABeat, ReplyBox};

/// The most choices that a memory thread makes in one hold.
const MOST_CHOICES: u8 = 16;

/// Why a worker ended before its work was done.
#[derive(Clone, Copy)]
pub(crate) enum WorkerFault {
    /// The gate answered false.
    GateShut,
    /// Too many idle turns in a row.
    IdleLimit,
    /// The history has no room.
    HistoryFull,
    /// The beat at this place of the client's script was refused by this rule.
    BeatRefused(u32, TlRule),
    /// There is no room for the reply after these receipts.
    NoRoom(u32),
}

/// What a client does in a turn.
#[derive(Clone, Copy)]
pub(crate) enum Move {
    /// It ends.
    Ends,
    /// It takes a reply.
    Takes,
    /// It offers its next beat.
    Offers(ABeat),
    /// It counts itself out, and ends.
    CountsOut,
    /// It waits.
    Waits,
}

/// How a turn ended.
#[derive(Clone, Copy)]
pub(crate) enum Turn {
    /// The world was changed.
    Moved,
    /// It wasn't.
    Idle,
    /// The worker is done.
    Ended,
    /// The worker met a fault.
    Failed(WorkerFault),
}

/// What a client does next, whose next beat is this, and which did receive all its replies or didn't.
pub(crate) fn client_move(shared: &Shared, client: u8, beat: Option<ABeat>, received: bool) -> Move
    ensures { result ≡ client_move shared.now client beat received }
{
    if shared.is_stopped() {
        return Move::Ends;
    }
    if shared.world().first_done(client) {
        return Move::Takes;
    }
    match beat {
        Some(beat) => Move::Offers(beat),
        None if received => Move::CountsOut,
        None => Move::Waits,
    }
}

/// The word at a place of a ring; 0 where there are none.
fn word_at(words: &[u64], place: usize) -> u64
    ensures { result ≡ word_at words.now place }
{
    if place < words.len() { words[place] } else { 0 }
}

/// The place after one in a ring of so many words.
fn place_after(count: usize, place: usize) -> usize
    ensures { result ≡ place_after count place }
{
    match place.checked_add(1) {
        Some(next) if next < count => next,
        _ => 0,
    }
}

/// Makes the choice of the next word, if there is one to make.
fn choice(
    shared: &mut Shared,
    words: &[u64],
    place: &mut usize,
    reply: &mut ReplyBox,
) -> Result<bool, HistoryFull>
    ensures none { result ≡ Ok false → (enabled shared.old.world ≡ []) × (shared.new ≡ shared.old) × (place.new ≡ place.old) }
    ensures made { result ≡ Ok true → (step : Step) × IsChosen shared.old.world (word_at words.now place.old) step × (shared.new ≡ turned shared.old step) × (place.new ≡ place_after (length words.now) place.old) }
    ensures full { IsErr result → (shared.old.room ≤ length shared.old.steps) × (shared.new ≡ shared.old) × (place.new ≡ place.old) }
{
    let choices = shared.world().choices();
    if choices == 0 {
        return Ok(false);
    }
    let word = word_at(words, *place);
    let step = shared.world().choose((word % u64::from(choices)) as u32);
    let Ok(_) = shared.turn(&step, reply) else {
        return Err(HistoryFull);
    };
    *place = place_after(words.len(), *place);
    Ok(true)
}

/// Makes up to 16 choices by the words of a ring, from a place on; fewer where none is left. Where the history becomes full,
/// the steps before stay stored.
pub(crate) fn hold(
    shared: &mut Shared,
    words: &[u64],
    place: &mut usize,
    reply: &mut ReplyBox,
) -> Turn
    ensures { (made : List Step) × IsHold words.now place.old place.new shared.old shared.new made × StoppedBy result shared.new made }
{
    for made in 0..MOST_CHOICES {
        match choice(shared, words, place, reply) {
            Err(HistoryFull) => return Turn::Failed(WorkerFault::HistoryFull),
            Ok(false) if made == 0 => return Turn::Idle,
            Ok(false) => return Turn::Moved,
            Ok(true) => {}
        }
    }
    Turn::Moved
}

/// Whether a memory thread is done.
fn is_over(shared: &Shared) -> bool
    ensures { result ≡ is_over shared.now }
{
    if shared.is_stopped() {
        return true;
    }
    if shared.working() > 0 {
        return false;
    }
    shared.world().choices() == 0
}

/// One turn of a memory thread: it ends where all are to stop, or where no client is at work and there are no choices; else it
/// makes choices of one hold, by its words from their place on.
pub(crate) fn memory_turn(
    shared: &mut Shared,
    words: &[u64],
    place: &mut usize,
    reply: &mut ReplyBox,
) -> Turn
    ensures ended { (result ≡ Ended) ↔ IsTrue (is_over shared.old) }
    ensures kept { result ≡ Ended → (shared.new ≡ shared.old) × (place.new ≡ place.old) }
    ensures held { (result ≡ Ended) ⊎ ((made : List Step) × IsHold words.now place.old place.new shared.old shared.new made × StoppedBy result shared.new made) }
{
    if is_over(shared) {
        return Turn::Ended;
    }
    hold(shared, words, place, reply)
}

/// What a turn is where `limit` idle ones in a row end the worker; `left` is how many more it may have.
pub(crate) fn paced(turn: Turn, left: &mut u32, limit: u32) -> Turn
    ensures left { left.new ≡ idle_left limit left.old turn }
    ensures turn { result ≡ within_limit left.new turn }
{
    match turn {
        Turn::Moved => {
            *left = limit;
            turn
        }
        Turn::Idle => {
            *left = left.saturating_sub(1);
            if *left == 0 {
                Turn::Failed(WorkerFault::IdleLimit)
            } else {
                turn
            }
        }
        Turn::Ended | Turn::Failed(_) => turn,
    }
}

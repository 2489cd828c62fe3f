//! Which bytes of the memory are indeterminate: those that are in doubt.
ghost use Rattle.std.specs.Prelude.{◌≡◌, ◌<◌, ◌==◌, ◌+◌, ◌*◌, ◌%◌, ◌/◌, ◌&&◌, ◌||◌, ℕ, true, IsTrue, Some, if◌then◌else◌, is_some, not};
ghost use Rattle.bus_words.specs.Lanes.{given_at, has_lane, word_address};
ghost use Rattle.tl_messages.specs.Operations.{has_data};
ghost use Rattle.tl_messages.specs.Requests.{bytes_given, request_of};
ghost use Rattle.serial_memory.specs.SerialMemory.{HasRoomToGive, IsCheckedRequest, doubts_of, memory_of, place_in, rooms_of};
ghost use Rattle.scoreboard.specs.Boards.{acting};
ghost use Rattle.scoreboard.specs.InsideBoards.{HasRoomToWrite, IsMarkedAlone, determined_in, footprint_of, words_of};
ghost use Rattle.scoreboard.specs.FailedBursts.{reaches};
ghost use Rattle.scoreboard.specs.Unknown.{after_unknown, is_unknown_given, lanes_of};
ghost use Rattle.scoreboard.specs.Races.{after_given, covers, depends_on, may_write};

use crate::Errors;
use crate::board::place_of;
use crate::failed_bursts::Reach;
use crate::footprint::Footprint;
use crate::unknown::UnknownLanes;
use serial_memory::SerialMemory;
use tl_messages::Request;

/// Which bytes of the word at an address are determined, where what is left of them is fixed.
fn sure_in(footprint: &Footprint, fixed: bool, word: u32) -> u8
    requires { word % 8 ≡ 0 }
    ensures { (lane : ℕ) → lane < 8 → has_lane result lane ≡ (determined_in footprint.now (word + lane) && fixed) }
{
    if !fixed {
        return 0;
    }
    footprint.determined_in(word)
}

/// What a request gives in its word `k`, from 0, is indeterminate where it isn't determined, or where what it leaves isn't fixed.
fn mark_word(
    marks: &mut SerialMemory,
    footprint: &Footprint,
    request: &Request,
    fixed: bool,
    k: u32,
)
    requires checked { IsCheckedRequest request.now }
    requires data { IsTrue (has_data request.now.operation) }
    requires same_byte { footprint.now.address % 4096 ≡ request.now.address % 4096 }
    requires size { footprint.now.size ≡ request.now.size }
    requires room { rooms_of marks.old (footprint.now.address / 4096) ≡ true }
    requires inside { k < words_of footprint.now.size }
    ensures rest { IsMarkedAlone marks.old marks.new }
    ensures bytes { (x : ℕ) → doubts_of marks.new x
        ≡ (if is_some (given_at (bytes_given request.now) footprint.now.address x) && word_address x == word_address footprint.now.address + 8 * k then not (determined_in footprint.now x && fixed) else doubts_of marks.old x) }
{
    let word = footprint.word_at(k);
    let sure = sure_in(footprint, fixed, word);
    marks.put_doubts(word, !sure, request.mask(k as u16));
}

/// What a request gives is indeterminate where it isn't determined.
pub(crate) fn mark_given(marks: &mut SerialMemory, footprint: &Footprint, request: &Request)
    requires checked { IsCheckedRequest request.now }
    requires data { IsTrue (has_data request.now.operation) }
    requires same_byte { footprint.now.address % 4096 ≡ request.now.address % 4096 }
    requires size { footprint.now.size ≡ request.now.size }
    requires writes { footprint.now.writes ≡ true }
    requires room { rooms_of marks.old (footprint.now.address / 4096) ≡ true }
    ensures rest { IsMarkedAlone marks.old marks.new }
    ensures bytes { doubts_of marks.new ≡ after_given (doubts_of marks.old) (footprint_of footprint.now) (bytes_given request.now) }
{
    let fixed = footprint.is_fixed();
    for k in 0..footprint.words() {
        mark_word(marks, footprint, request, fixed, k);
    }
}

/// What a request that acts at an address gives in its word `k`, from 0, is in doubt where nobody knows it.
fn mark_unknown_word(
    marks: &mut SerialMemory,
    address: u32,
    request: &Request,
    lanes: &UnknownLanes,
    k: u16,
)
    requires checked { IsCheckedRequest request.now }
    requires data { IsTrue (has_data request.now.operation) }
    requires same_byte { address % 4096 ≡ request.now.address % 4096 }
    requires room { rooms_of marks.old (address / 4096) ≡ true }
    requires inside { k < words_of request.now.size }
    ensures rest { IsMarkedAlone marks.old marks.new }
    ensures bytes { (x : ℕ) → doubts_of marks.new x
        ≡ (if (is_some (given_at (bytes_given request.now) address x) && is_unknown_given lanes.now address x) && word_address x == word_address address + 8 * k then true else doubts_of marks.old x) }
{
    let word = address / 8 * 8 + 8 * u32::from(k);
    marks.put_doubts(word, 0xff, request.mask(k) & lanes.at(k));
}

/// What a request gives that acts at an address is in doubt where nobody knows it.
fn mark_unknown(marks: &mut SerialMemory, address: u32, request: &Request, lanes: &UnknownLanes)
    requires checked { IsCheckedRequest request.now }
    requires data { IsTrue (has_data request.now.operation) }
    requires same_byte { address % 4096 ≡ request.now.address % 4096 }
    requires room { rooms_of marks.old (address / 4096) ≡ true }
    ensures rest { IsMarkedAlone marks.old marks.new }
    ensures bytes { doubts_of marks.new ≡ after_unknown (doubts_of marks.old) lanes.now (Some address) (request_of request.now) }
{
    for k in 0..request.beats() {
        mark_unknown_word(marks, address, request, lanes, k);
    }
}

/// What a request gives and nobody knows is in doubt, if there is a good page at which it may act.
fn doubt_given(marks: &mut SerialMemory, errors: Errors, request: &Request, lanes: &UnknownLanes)
    requires checked { IsCheckedRequest request.now }
    requires room { HasRoomToGive marks.old (acting errors (request_of request.now)) }
    ensures rest { IsMarkedAlone marks.old marks.new }
    ensures bytes { doubts_of marks.new
        ≡ after_unknown (doubts_of marks.old) lanes.now (place_in (memory_of marks.old) (acting errors (request_of request.now))) (request_of request.now) }
{
    let Some(address) = place_of(marks, errors, request) else {
        return;
    };
    if request.operation().has_data() {
        mark_unknown(marks, address, request, lanes);
    }
}

/// The same by the message of a client, of whose lanes nobody may know some.
pub(crate) fn doubt_message(
    marks: &mut SerialMemory,
    errors: Errors,
    request: &Request,
    unknown: &[UnknownLanes],
    client: usize,
)
    requires checked { IsCheckedRequest request.now }
    requires room { HasRoomToGive marks.old (acting errors (request_of request.now)) }
    ensures rest { IsMarkedAlone marks.old marks.new }
    ensures bytes { doubts_of marks.new
        ≡ after_unknown (doubts_of marks.old) (lanes_of unknown.now client) (place_in (memory_of marks.old) (acting errors (request_of request.now))) (request_of request.now) }
{
    let Some(lanes) = unknown.get(client) else {
        return;
    };
    if lanes.has_some() {
        doubt_given(marks, errors, request, lanes);
    }
}

/// All bytes of a request are indeterminate.
fn mark_all(marks: &mut SerialMemory, footprint: &Footprint)
    requires room { rooms_of marks.old (footprint.now.address / 4096) ≡ true }
    ensures rest { IsMarkedAlone marks.old marks.new }
    ensures bytes { (x : ℕ) → doubts_of marks.new x ≡ (doubts_of marks.old x || covers (footprint_of footprint.now) x) }
{
    for k in 0..footprint.words() {
        let word = footprint.word_at(k);
        marks.put_doubts(word, 0xff, footprint.lanes_in(word));
    }
}

/// All bytes of a request are indeterminate where what it writes may depend on another.
pub(crate) fn mark_dependent(marks: &mut SerialMemory, footprint: &Footprint, other: &Footprint)
    requires room { HasRoomToWrite (rooms_of marks.old) (footprint_of footprint.now) }
    ensures rest { IsMarkedAlone marks.old marks.new }
    ensures bytes { (x : ℕ) → doubts_of marks.new x
        ≡ (doubts_of marks.old x || depends_on (footprint_of footprint.now) (footprint_of other.now) && covers (footprint_of footprint.now) x) }
{
    if !footprint.reads() || !footprint.writes() || !other.writes() || !footprint.meets(other) {
        return;
    }
    mark_all(marks, footprint);
}

/// All bytes of a request are indeterminate that may write, and that an event reaches.
pub(crate) fn mark_reached(marks: &mut SerialMemory, footprint: &Footprint, reach: Reach)
    requires room { HasRoomToWrite (rooms_of marks.old) (footprint_of footprint.now) }
    ensures rest { IsMarkedAlone marks.old marks.new }
    ensures bytes { (x : ℕ) → doubts_of marks.new x
        ≡ (doubts_of marks.old x || reaches reach (footprint_of footprint.now) && may_write (footprint_of footprint.now) x) }
{
    if !footprint.writes() || !footprint.is_reached(reach) {
        return;
    }
    mark_all(marks, footprint);
}

//! The bursts that go to the memory, each in a box: the pieces of a plan as reads, and as writes of a request's bytes or of
//! an atomic's result (this project's profile).
ghost use Rattle.std.specs.Prelude.{◌≡◌, ℕ, ◌+◌, ◌-◌, ◌/◌, ◌%◌, ◌^◌, ◌<◌, ◌≤◌, [], true, Some, length, map, slice_get, IsSome, IsTrue};
ghost use Rattle.tl_messages.specs.Operations.{beats_of, has_data};
ghost use Rattle.tl_messages.specs.Requests.{request_of};
ghost use Rattle.axi_beats.specs.Boxes.{aw_of, w_beats_of, with_w_beat};
ghost use Rattle.axi_beats.specs.Bursts.{WriteBurst};
ghost use Rattle.axi_beats.specs.Transfers.{fits_bus, transfer_address, IsBusWidth};
ghost use Rattle.data_unit.specs.Words.{bytes_of};
ghost use Rattle.burst_plan.specs.Pieces.{pieces, IsPlannable};
ghost use Rattle.burst_plan.specs.PlannedBursts.{given_by_word, read_of, w_beat, write_of};

use axi_beats::{ArBeat, AwBeat, BurstBox, transfer_address};
use burst_plan::{Piece, Plan, w_beat};
use data_unit::{full_mask, place};
use tl_messages::{MaskedWord, Request};

/// The type of a burst whose addresses rise, INCR (AXI4, A3.4.1).
const INCR: u8 = 1;

/// Holds a piece as a read, in place of whatever was held.
pub(crate) fn set_read(burst: &mut BurstBox, id: u8, piece: Piece)
    ensures { burst.new ≡ Some (read_of id piece) }
{
    burst.set_read(ArBeat {
        id,
        address: piece.address,
        len: piece.len,
        size: piece.size,
        burst: INCR,
    });
}

/// Holds a piece as a write with no W beats yet, in place of whatever was held.
fn begin_write(burst: &mut BurstBox, id: u8, piece: Piece)
    ensures { burst.new ≡ Some (WriteBurst (record { id = id; address = piece.address; len = piece.len; size = piece.size; burst = 1 }) []) }
{
    burst.begin_write(AwBeat {
        id,
        address: piece.address,
        len: piece.len,
        size: piece.size,
        burst: INCR,
    });
}

/// Appends the W beat of transfer `k`, from 0, of a piece, with the bytes that a word gives.
fn push_transfer(burst: &mut BurstBox, bus_bytes: u8, piece: Piece, k: u16, word: MaskedWord)
    requires bus { IsBusWidth bus_bytes }
    requires size { IsTrue (fits_bus bus_bytes piece.size) }
    requires last { k ≤ piece.len }
    requires write { IsSome (aw_of burst.old) }
    requires room { length (w_beats_of burst.old) < 256 }
    ensures { burst.new ≡ with_w_beat (w_beat bus_bytes (given_by_word word) piece (k + 1)) burst.old }
{
    burst.push_w(w_beat(&piece, k + 1, bus_bytes, word));
}

/// What a request gives of the eight bytes that hold transfer `k`, from 0, of a piece of its plan.
fn word_given(request: &Request, plan: &Plan, piece: Piece, k: u16) -> MaskedWord
    requires range { IsPlannable plan.now }
    requires listed { (k : ℕ) × (slice_get (pieces plan.now) k ≡ Some piece) }
    requires last { k ≤ piece.len }
    requires data { IsTrue (has_data request.now.operation) }
    requires beats { length request.now.beats ≡ beats_of request.now.size true }
    requires size { request.now.size ≡ plan.now.size }
    ensures { slice_get request.now.beats ((transfer_address piece.address piece.size (k + 1) - plan.now.address) / 8) ≡ Some result }
{
    let start = u64::from(plan.address());
    let place = ((transfer_address(piece.address, piece.size, k + 1) - start) / 8) as u16;
    MaskedWord {
        word: request.word(place),
        mask: request.mask(place),
    }
}

/// Holds a piece of a request's plan as a write of the bytes that the request gives, in place of whatever was held. The
/// request has data and all its beats, and its bytes stand in the same lanes on both sides.
pub(crate) fn set_put(burst: &mut BurstBox, id: u8, plan: &Plan, piece: Piece, request: &Request)
    requires listed { (k : ℕ) × (slice_get (pieces plan.now) k ≡ Some piece) }
    requires data { IsTrue (has_data request.now.operation) }
    requires beats { length request.now.beats ≡ beats_of request.now.size true }
    requires size { request.now.size ≡ plan.now.size }
    requires lanes { request.now.address % 8 ≡ plan.now.address % 8 }
    ensures { burst.new ≡ Some (write_of plan.now.bus_bytes id (request_of request.now).bytes plan.now.address piece) }
{
    let bus_bytes = plan.bus_bytes();
    begin_write(burst, id, piece);
    for k in 0..u16::from(piece.len) + 1 {
        let word = word_given(request, plan, piece, k);
        push_transfer(burst, bus_bytes, piece, k, word);
    }
}

/// Holds a piece of an atomic's plan as a write of its result, in place of whatever was held. The result has at most eight
/// bytes, at a multiple of their number.
pub(crate) fn set_number(burst: &mut BurstBox, id: u8, plan: &Plan, piece: Piece, number: u64)
    requires listed { (k : ℕ) × (slice_get (pieces plan.now) k ≡ Some piece) }
    requires size { plan.now.size ≤ 3 }
    ensures { burst.new ≡ Some (write_of plan.now.bus_bytes id (map Some (bytes_of (2 ^ plan.now.size) number)) plan.now.address piece) }
{
    let bus_bytes = plan.bus_bytes();
    begin_write(burst, id, piece);
    let word = MaskedWord {
        word: place(number, plan.address(), plan.size()),
        mask: full_mask(plan.address(), plan.size()),
    };
    for k in 0..u16::from(piece.len) + 1 {
        push_transfer(burst, bus_bytes, piece, k, word);
    }
}

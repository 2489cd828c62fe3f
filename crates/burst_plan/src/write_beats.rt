//! The W beats of a plan's writes.
ghost use Rattle.std.specs.Prelude.{◌≡◌, ℕ, ◌+◌, ◌*◌, ◌/◌, ◌<◌, ◌≤◌, IsTrue};
ghost use Rattle.tl_messages.specs.Requests.{given_in};
ghost use Rattle.axi_beats.specs.Transfers.{IsBusWidth, fits_bus};
ghost use Rattle.burst_plan.specs.PlannedBursts.{given_by_word, w_beat, PutsBytes};

use crate::Piece;
use axi_beats::{WBeat, lanes_of, transfer_address};
use bus_words::lanes_between;
use data_unit::merge;
use tl_messages::MaskedWord;

/// What the bus carries at an address of a word of eight bytes: the word, or the half that holds the address.
fn carried(word: MaskedWord, address: u64, bus_bytes: u8) -> MaskedWord
    requires { IsBusWidth bus_bytes }
    ensures { (lane : ℕ) → lane < bus_bytes → given_in lane result ≡ given_by_word word (address / bus_bytes * bus_bytes + lane) }
{
    if bus_bytes == 4 && address % 8 >= 4 {
        MaskedWord {
            word: word.word >> 32,
            mask: word.mask >> 4,
        }
    } else {
        word
    }
}

/// The W beat of transfer `n`, from 1, of a piece as a write, on a bus of `bus_bytes` bytes, 4 or 8 (AXI4, A3.4.3). It puts
/// the bytes that a word gives by its mask: a strobe in each lane of the transfer whose byte is given, and zero in the
/// lanes without a strobe (this project's profile). The word is that of the eight bytes that hold the transfer, in
/// TileLink's lanes.
pub fn w_beat(piece: &Piece, n: u16, bus_bytes: u8, word: MaskedWord) -> WBeat
    requires bus { IsBusWidth bus_bytes }
    requires size { IsTrue (fits_bus bus_bytes piece.now.size) }
    requires first { 1 ≤ n }
    requires last { n ≤ piece.now.len + 1 }
    ensures value { result ≡ w_beat bus_bytes (given_by_word word) piece.now n }
    ensures puts { PutsBytes bus_bytes (given_by_word word) piece.now n result }
{
    let (lowest, highest) = lanes_of(piece.address, piece.size, n, bus_bytes);
    let address = transfer_address(piece.address, piece.size, n);
    let data = carried(word, address, bus_bytes);
    let strobes = data.mask & lanes_between(lowest, highest);
    WBeat {
        payload: merge(0, data.word, strobes),
        strobes,
        last: n == u16::from(piece.len) + 1,
    }
}

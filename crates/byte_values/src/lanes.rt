//! Sets of lanes.
ghost use Rattle.std.specs.Prelude.{◌≡◌, ◌<◌, ◌==◌, ℕ};
ghost use Rattle.bus_words.specs.Lanes.{has_lane, lane_byte};
ghost use Rattle.byte_values.specs.Words.{lanes_without};

use bus_words::mask_of;

/// The lanes of one set that another doesn't have.
#[inline]
pub(crate) fn without(lanes: u8, others: u8) -> u8
    ensures { result ≡ lanes_without lanes others }
{
    lanes & !others
}

/// The lanes in which two words have the same byte.
pub(crate) fn same_bytes(a: u64, b: u64) -> u8
    ensures { (lane : ℕ) → lane < 8 → has_lane result lane ≡ (lane_byte a lane == lane_byte b lane) }
{
    if a == b {
        return 255;
    }
    let [a0, a1, a2, a3, a4, a5, a6, a7] = a.to_le_bytes();
    let [b0, b1, b2, b3, b4, b5, b6, b7] = b.to_le_bytes();
    mask_of([
        a0 == b0,
        a1 == b1,
        a2 == b2,
        a3 == b3,
        a4 == b4,
        a5 == b5,
        a6 == b6,
        a7 == b7,
    ])
}

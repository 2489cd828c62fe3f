//! Masks, words and numbers by their bytes. The byte at address x travels in lane x mod 8 (TileLink 1.8, byte lanes and
//! byte masks).
ghost use Rattle.std.specs.Prelude.{◌≡◌, ℕ, ◌+◌, ◌-◌, ◌<◌, ◌≤◌, ◌%◌, ◌^◌, if◌then◌else◌};
ghost use Rattle.bus_words.specs.Lanes.{lane_byte, has_lane, is_between, mask_of};
ghost use Rattle.tl_messages.specs.Lanes.{in_lanes};
ghost use Rattle.data_unit.specs.Words.{full_mask, merged, operand_in, placed_at};
ghost use Rattle.data_unit.specs.Atomics.{modulus};

/// The full mask (TileLink 1.8, byte lanes and byte masks): the lanes of `2^size` bytes from an address on, bit k for lane
/// k. It has all lanes where the size is 3 or more. The lanes of a range that isn't aligned wrap round the word: those of
/// two bytes at 7 are lanes 7 and 0. Any size is taken.
pub fn full_mask(address: u32, size: u8) -> u8
    ensures value { result ≡ full_mask address size }
    ensures lanes { (lane : ℕ) → lane < 8 → has_lane result lane ≡ in_lanes address size lane }
    ensures aligned { address % 2 ^ size ≡ 0 → result ≡ mask_of (is_between (address % 8) (address % 8 + 2 ^ size - 1)) }
{
    if size >= 3 {
        return 0xff;
    }
    let lowest = (1u8 << (1u8 << size)) - 1;
    lowest.rotate_left(address % 8)
}

/// The word that has each bit of the strobed lanes, and no other.
fn widened(strobes: u8) -> u64
    ensures { (lane : ℕ) → lane < 8 → lane_byte result lane ≡ (if has_lane strobes lane then 255 else 0) }
{
    // Each lane keeps its own strobe of all eight. Where it kept one, the sum sets its highest bit and leaves the lane
    // above as it is.
    let kept = (u64::from(strobes) * 0x0101010101010101) & 0x8040201008040201;
    let highest = (kept + 0x7f7f7f7f7f7f7f7f) & 0x8080808080808080;
    (highest >> 7) * 0xff
}

/// The new word's bytes in the strobed lanes, bit k of the strobes for lane k, and the old word's bytes elsewhere
/// (TileLink 1.8, byte lanes and byte masks; AXI4, A3.4.3).
pub fn merge(old: u64, new: u64, strobes: u8) -> u64
    ensures { result ≡ merged old new strobes }
{
    let wide = widened(strobes);
    (old & !wide) | (new & wide)
}

/// The number that `2^size` bytes at an aligned address hold in their lanes of a word (TileLink 1.8, byte lanes and byte
/// masks), from bit 0: an atomic's old value or operand.
pub fn cut(word: u64, address: u32, size: u8) -> u64
    requires size { size ≤ 3 }
    requires aligned { address % 2 ^ size ≡ 0 }
    ensures value { result ≡ operand_in word address size }
    ensures fits { result < modulus (2 ^ size) }
{
    (word >> (8 * (address % 8))) & largest(1 << size)
}

/// The word that has the lowest `2^size` bytes of a number in the lanes of their aligned address (TileLink 1.8, byte
/// lanes and byte masks), and zero in the others.
pub fn place(value: u64, address: u32, size: u8) -> u64
    requires size { size ≤ 3 }
    requires aligned { address % 2 ^ size ≡ 0 }
    ensures value { result ≡ placed_at value address size }

    // A number that fits is cut out again.
    ensures comes_back { value < modulus (2 ^ size) → operand_in result address size ≡ value }
{
    (value & largest(1 << size)) << (8 * (address % 8))
}

/// The largest number of so many bytes, from 1 to 8.
pub(crate) fn largest(operand_bytes: u8) -> u64
    requires some { 0 < operand_bytes }
    requires most { operand_bytes ≤ 8 }
    ensures { result ≡ modulus operand_bytes - 1 }
{
    u64::MAX >> (64 - 8 * operand_bytes)
}

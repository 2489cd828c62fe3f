//! What both protocols share: bytes in the lanes of a word, sets of lanes, and the text of flags.
//!
//! A word has 64 bits and eight lanes; lane 0 is its least significant byte. A set of lanes has 8 bits, bit k for
//! lane k: TileLink calls it a mask (TileLink 1.8, byte lanes and byte masks), AXI4 calls it write strobes
//! (AXI4, A3.4.3).
#![tactic(auto)]

ghost use Rattle.std.specs.Prelude.{◌≡◌, ℕ, ◌<◌, ◌≤◌, false, slice_index, slice_index_or, unwrap_or};
ghost use Rattle.bus_words.specs.Lanes.{lane_byte, has_lane, is_between, mask_of, word_of_lanes, payload_of};
ghost use Rattle.bus_words.specs.Text.{flag as flag_of};

/// The byte that a word holds in a lane, from 0 to 7.
pub fn lane_byte(word: u64, lane: u8) -> u8
    requires { lane < 8 }
    ensures { result ≡ lane_byte word lane }
{
    word.to_le_bytes()[usize::from(lane)]
}

/// Whether a mask, or strobes, have this lane, from 0 to 7.
pub fn has_lane(mask: u8, lane: u8) -> bool
    requires { lane < 8 }
    ensures { result ≡ has_lane mask lane }
{
    (mask >> lane) % 2 == 1
}

/// The mask, or the strobes, of these lanes, that of lane 0 first.
pub fn mask_of(lanes: [bool; 8]) -> u8
    ensures value { result ≡ mask_of (λ lane. slice_index_or lanes lane false) }
    ensures lanes { (lane : ℕ) → lane < 8 → has_lane result lane ≡ slice_index_or lanes lane false }
{
    let mut mask = 0;
    for (lane, held) in lanes.iter().enumerate() {
        if *held {
            mask += 1 << lane;
        }
    }
    mask
}

/// The mask, or the strobes, of the lanes from the lowest to the highest, both from 0 to 7 and both among them.
pub fn lanes_between(lowest: u8, highest: u8) -> u8
    requires order { lowest ≤ highest }
    requires top { highest < 8 }
    ensures value { result ≡ mask_of (is_between lowest highest) }
    ensures lanes { (lane : ℕ) → lane < 8 → has_lane result lane ≡ is_between lowest highest lane }
{
    ((2u16 << highest) - (1u16 << lowest)) as u8
}

/// The word that has these bytes in its lanes, that of lane 0 first.
fn word_of_lanes(bytes: [u8; 8]) -> u64
    ensures value { result ≡ word_of_lanes (λ lane. slice_index bytes lane) }
    ensures lanes { (lane : ℕ) → lane < 8 → lane_byte result lane ≡ slice_index bytes lane }
{
    u64::from_le_bytes(bytes)
}

/// The word that has these bytes in its lanes, that of lane 0 first, and zero where there is none.
pub fn payload_of(bytes: [Option<u8>; 8]) -> u64
    ensures value { result ≡ payload_of (λ lane. slice_index_or bytes lane None) }
    ensures lanes { (lane : ℕ) → lane < 8 → lane_byte result lane ≡ unwrap_or (slice_index_or bytes lane None) 0 }
{
    word_of_lanes(bytes.map(|byte| byte.unwrap_or(0)))
}

/// The text of a flag in a trace: `1` where it is set, else `0`.
pub fn flag_text(flag: bool) -> &'static str
    ensures { result.now ≡ flag_of flag }
{
    if flag { "1" } else { "0" }
}

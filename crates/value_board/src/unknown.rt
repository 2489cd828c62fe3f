//! Lanes that a beat on channel A gives and that nobody knows.
ghost use Rattle.std.specs.Prelude.{◌≡◌};
ghost use Rattle.bus_words.specs.Lanes.{has_lane};
ghost use Rattle.scoreboard.specs.Unknown.{lanes_given, some_unknown, unknown_given};

use tl_messages::ABeat;

/// Whether a lane that nobody knows is among others.
pub(crate) fn some_unknown(lanes: u8, looked: u8) -> bool
    ensures { result ≡ some_unknown lanes (has_lane looked) }
{
    lanes & !looked != lanes
}

/// The lanes of its payload that a beat gives.
fn lanes_given(beat: &ABeat) -> u8
    ensures { result ≡ lanes_given beat.now }
{
    if beat.opcode > 3 {
        return 0;
    }
    beat.mask
}

/// Those of them that nobody knows: all that an atomic gives, if one of them isn't known.
pub(crate) fn unknown_given(beat: &ABeat, lanes: u8) -> u8
    ensures { result ≡ unknown_given beat.now lanes }
{
    let given = lanes_given(beat);
    if !some_unknown(lanes, given) {
        return 0;
    }
    if beat.opcode >= 2 {
        return given;
    }
    given & lanes
}

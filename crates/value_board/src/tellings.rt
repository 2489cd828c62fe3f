//! How much a beat tells, and how much of that is compared.
ghost use Rattle.std.specs.Prelude.{◌≡◌, ◌≤◌};
ghost use Rattle.bus_words.specs.Lanes.{has_lane};
ghost use Rattle.scoreboard.specs.Telling.{lanes_with, nothing_told, one_if};
ghost use Rattle.value_board.specs.Given.{lanes_telling};

use bus_words::has_lane;
use scoreboard::Telling;
use tl_messages::DBeat;

/// 1 where a mask has a lane, else 0.
fn one_if(mask: u8, lane: u8) -> u8
    requires { lane ≤ 7 }
    ensures value { result ≡ one_if (has_lane mask lane) }
    ensures most { result ≤ 1 }
{
    if has_lane(mask, lane) { 1 } else { 0 }
}

/// How many lanes a mask has.
fn lanes_in(mask: u8) -> u8
    ensures { result ≡ lanes_with (has_lane mask) }
{
    one_if(mask, 0)
        + one_if(mask, 1)
        + one_if(mask, 2)
        + one_if(mask, 3)
        + one_if(mask, 4)
        + one_if(mask, 5)
        + one_if(mask, 6)
        + one_if(mask, 7)
}

/// That of a beat that tells nothing.
pub(crate) fn nothing_told() -> Telling
    ensures { result ≡ nothing_told }
{
    Telling {
        told: 0,
        compared: 0,
        lanes: 0,
        due: 0,
    }
}

/// That of a beat where this one is due, and these lanes are compared, bit k for lane k.
pub(crate) fn lanes_telling(due: &DBeat, lanes: u8) -> Telling
    ensures { result ≡ lanes_telling due.now lanes }
{
    if due.opcode != 1 {
        return nothing_told();
    }
    Telling {
        told: 1 << due.size.min(3),
        compared: lanes_in(lanes),
        lanes,
        due: due.payload,
    }
}

//! The bytes of a burst that was answered with an error, and what that reaches.
ghost use Rattle.std.specs.Prelude.{◌≡◌, ◌≤◌};
ghost use Rattle.axi_checker.specs.Rules.{address_of_read, address_of_write};
ghost use Rattle.scoreboard.specs.FailedBursts.{reach_of_burst, reach_of_reset, span_of};

use axi_beats::{ArBeat, AwBeat, last_byte};
use std::marker::Model;

/// The bytes of a burst, from the first to the last (AXI4, A3.4.1).
#[derive(Clone, Copy, Debug, PartialEq, Eq)]
pub struct Span {
    /// The address of the first one.
    pub first: u32,
    /// The address of the last one. It has more than 32 bits where the burst runs past the last address.
    pub last: u64,
}

impl Model for Span {
    ghost use Rattle.scoreboard.specs.FailedBursts.{Span};

    ghost Value = { Span };

    ghost view = { λ s. record { first = s.first; last = s.last } };

    ghost inverse = { λ s. record { first = s.first; last = s.last } };
}

impl Span {
    /// Those of a write.
    pub(crate) fn of_write(aw: AwBeat) -> Self
        requires { aw.size ≤ 7 }
        ensures { result ≡ span_of (address_of_write aw) }
    {
        Span {
            first: aw.address,
            last: last_byte(aw.address, aw.len, aw.size),
        }
    }

    /// Those of a read.
    pub(crate) fn of_read(ar: ArBeat) -> Self
        requires { ar.size ≤ 7 }
        ensures { result ≡ span_of (address_of_read ar) }
    {
        Span {
            first: ar.address,
            last: last_byte(ar.address, ar.len, ar.size),
        }
    }
}

/// Which requests an event reaches, so that what they may write isn't known any more: all that are in flight, or have begun, or those
/// that share a byte with a burst.
#[derive(Clone, Copy)]
pub(crate) struct Reach {
    pub(crate) all: bool,
    pub(crate) burst: Span,
}

impl Model for Reach {
    ghost use Rattle.scoreboard.specs.FailedBursts.{Reach};

    ghost Value = { Reach };

    ghost view = { λ r. record { all = r.all; burst = r.burst } };

    ghost inverse = { λ r. record { all = r.all; burst = r.burst } };
}

impl Reach {
    /// A reset reaches all.
    pub(crate) fn of_reset() -> Self
        ensures { result ≡ reach_of_reset }
    {
        Reach {
            all: true,
            burst: Span { first: 0, last: 0 },
        }
    }

    /// An error response to a burst reaches those that share a byte with it.
    pub(crate) fn of_burst(burst: Span) -> Self
        ensures { result ≡ reach_of_burst burst }
    {
        Reach { all: false, burst }
    }
}

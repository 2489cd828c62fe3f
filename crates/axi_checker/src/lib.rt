//! A monitor of an AXI4 port: it takes the beats of all five channels, and answers the first rule that one breaks.
//!
//! The rules are those of AMBA AXI4 (Arm IHI 0022). This project's profile adds to them: INCR bursts alone, a limit on
//! IDs and on the outstanding bursts of an ID, no write data ahead of its address, and the order of the tests.
#![tactic(auto)]

ghost use Rattle.std.specs.Prelude.{◌≡◌};
ghost use Rattle.axi_checker.specs.Names.{rule_name, rule_number};

mod entries;
mod id_list;
mod id_row;
mod ids;
mod long_queue;
mod long_row;
mod monitor;
mod outstanding;
mod queue;
mod rooms;
mod row;
mod rules;

use axi_beats::{ArBeat, AwBeat, BBeat, RBeat, WBeat};
pub use monitor::{LargeMonitor, Monitor};
pub use rooms::{LargeRooms, Rooms, SmallRooms};
pub use rules::PortLimits;

/// A beat on one of the five channels.
#[derive(Clone, Copy, Debug, PartialEq, Eq)]
pub enum AxiBeat {
    /// On the write address channel.
    Aw(AwBeat),
    /// On the write data channel.
    W(WBeat),
    /// On the write response channel.
    B(BBeat),
    /// On the read address channel.
    Ar(ArBeat),
    /// On the read data channel.
    R(RBeat),
}

/// The rules on AXI4 beats, 1 to 12.
#[derive(Clone, Copy, Debug, PartialEq, Eq)]
pub enum AxiRule {
    /// AW, AR: the transfers are wider than the bus.
    Size = 1,
    /// AW, AR: the burst type isn't INCR.
    BurstKind,
    /// AW, AR: the first and the last byte lie in different pages of 4 KB.
    Cross4K,
    /// AW, AR, B, R: the ID isn't below the port's number of IDs.
    IdRange,
    /// AW, AR: the ID has as many outstanding bursts on that side as the port allows.
    Depth,
    /// W: every accepted AW has all its data.
    WWithoutAw,
    /// W: a strobe in a lane that the transfer doesn't cover.
    Strobe,
    /// W: last is set on a transfer that isn't the last, or not set on the last.
    WLast,
    /// B: the ID has no outstanding write, or the data of its oldest aren't complete.
    BWithoutWrite,
    /// R: the ID has no outstanding read.
    RWithoutRead,
    /// R: last isn't as the ID's oldest outstanding read has it at this beat.
    RLast,
    /// B, R: the response is EXOKAY.
    ExOkay,
}

impl AxiRule {
    /// The rule's number, from 1 to 12 (this project's profile).
    pub fn number(self) -> u8
        ensures { result ≡ rule_number self }
    {
        self as u8
    }

    /// The rule's name, in capital letters (this project's profile).
    pub fn name(self) -> &'static str
        ensures { result.now ≡ rule_name self }
    {
        match self {
            AxiRule::Size => "SIZE",
            AxiRule::BurstKind => "BURST_KIND",
            AxiRule::Cross4K => "CROSS_4K",
            AxiRule::IdRange => "ID_RANGE",
            AxiRule::Depth => "DEPTH",
            AxiRule::WWithoutAw => "W_WITHOUT_AW",
            AxiRule::Strobe => "STROBE",
            AxiRule::WLast => "WLAST",
            AxiRule::BWithoutWrite => "B_WITHOUT_WRITE",
            AxiRule::RWithoutRead => "R_WITHOUT_READ",
            AxiRule::RLast => "RLAST",
            AxiRule::ExOkay => "EXOKAY",
        }
    }
}

//! A scoreboard: which of the beats that were observed at the ports of a bridge can't be right.
#![tactic(auto)]

mod all_clients;
mod answers;
mod axi_port;
mod board;
mod clients;
mod early_port;
mod failed_bursts;
mod filling;
mod flights;
mod footprint;
mod in_flight;
mod in_turn;
mod marks;
mod names;
mod places;
mod replies;
mod tellings;
mod unknown;
mod unknown_beats;
mod views;

use axi_checker::{AxiBeat, AxiRule};
pub use board::Scoreboard;
pub use failed_bursts::Span;
pub use filling::can_fill;
pub use places::AxiPlaces;
pub use serial_memory::FillFault;
pub use tellings::Telling;
use tl_checker::TlRule;
use tl_messages::{ABeat, DBeat};
pub use views::ReplyView;

/// In which orders requests may take effect.
#[derive(Clone, Copy, Debug, PartialEq, Eq)]
pub enum Policy {
    /// In that of their acceptance alone, which comes with their last beats. A source is busy until its reply's last beat, and an AW
    /// beat comes before its W beats.
    AcceptanceOrder,
    /// In each in which a request that was whole, and whose whole reply was seen, before another began comes before it. A request
    /// begins with its first beat, and its reply is due from its last on, or by `Errors::Any` from its first. A source is free from
    /// its reply's first beat on, and W beats may come before their AW.
    RealTime,
}

/// How errors may be told. It counts where requests take effect in real time; in order of acceptance they are told as by `Strict`.
#[derive(Clone, Copy, Debug, PartialEq, Eq)]
pub enum Errors {
    /// As this project's bridge tells them: a request of which a beat was corrupt, or whose access fails by the page map or a bad
    /// word, writes nothing, and each beat of its reply is denied and corrupt as this project's profile says.
    Strict,
    /// In any way that TileLink allows: a request of which a beat was corrupt, or whose access fails by the page map or a bad word,
    /// may be denied or not, its data may be corrupt or not, and what it may have written is in doubt; so may one be that shares a
    /// byte with a burst to which a response came that is an error (AXI4, A3.4.4) before the last beat of its reply. An Intent fails
    /// as a read of its bytes would, but by a bad word only with such a response. A reply is due from its request's first beat on.
    Any,
}

/// What was observed: a beat that was taken at a port, where the two sides agreed on it, or that a port went unobserved.
#[derive(Clone, Copy, Debug, PartialEq, Eq)]
pub enum ObservedBeat {
    /// On channel A of a client.
    A(u8, ABeat),
    /// On channel D of a client.
    D(u8, DBeat),
    /// On a channel of the AXI4 port.
    Axi(AxiBeat),
    /// No beat: those of the AXI4 port went unobserved, until nothing was outstanding there.
    Drained,
}

/// How a beat on channel D isn't the next one of a reply that is due (TileLink 1.8, channel D; this project's profile).
#[derive(Clone, Copy, Debug, PartialEq, Eq)]
pub enum ReplyRule {
    /// No reply has begun on its client's channel, and none of its source is due there.
    Unasked = 1,
    /// The reply that has begun on its channel isn't whole, and has another source.
    Interleaved,
    /// Its opcode isn't the reply's, or its param isn't 0.
    Opcode,
    /// Its size isn't the request's.
    Size,
    /// It is denied and shouldn't be, or the other way round.
    Denied,
    /// It is corrupt and shouldn't be, or the other way round.
    Corrupt,
    /// Its payload isn't the reply's.
    Payload,
    /// Nobody knows a byte that it tells, and that is compared: it was x or z.
    Unknown,
}

/// What is wrong with a beat.
#[derive(Clone, Copy, Debug, PartialEq, Eq)]
pub enum Wrong {
    /// There is no such client.
    NoClient,
    /// A beat on channel A breaks this rule.
    Request(TlRule),
    /// A beat on channel D breaks this rule; with it the beat that was due, where one was.
    Reply(ReplyRule, Option<DBeat>),
    /// A beat of the AXI4 port breaks this rule.
    Axi(AxiRule),
    /// A burst goes to an AXI page to which no region leads (this project's profile).
    Place,
    /// Nobody knows a byte that a beat on channel A gives: it was x or z (this project's profile).
    UnknownRequest,
    /// Nobody knows a strobed byte of a W beat, or one in the lanes of an R beat's transfer (this project's profile).
    UnknownAxi,
}

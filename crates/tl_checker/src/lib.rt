//! The checker of TileLink traffic: which beats a port takes, when they spell a request, and which beats are a reply
//! (TileLink 1.8, TL-UL and TL-UH, channels A and D; this project's profile).
#![tactic(auto)]

mod names;
mod port;
mod reply_rules;
mod request_rules;

pub use port::Port;
pub use reply_rules::check_reply;

/// The conformance level of a port (TileLink 1.8, TL-UL and TL-UH).
#[derive(Clone, Copy, Debug, PartialEq, Eq)]
pub enum Level {
    /// TL-UL: Gets and Puts of one beat.
    Ul,
    /// TL-UH: bursts, atomics and Intents too.
    Uh,
}

/// The rules on request beats, 1 to 10, and on replies, 11 to 16.
#[derive(Clone, Copy, Debug, PartialEq, Eq)]
pub enum TlRule {
    /// The opcode is over 5.
    Opcode = 1,
    /// The port is TL-UL, and the opcode is 2, 3 or 5 or the size is over 3.
    Level,
    /// The size is over the port's largest.
    Size,
    /// An atomic's size is over 3.
    AtomicSize,
    /// The address isn't a multiple of `2^size`.
    Align,
    /// The param isn't one of the opcode's.
    Param,
    /// PutPartialData has a lane outside the full mask, or another message hasn't the full mask.
    Mask,
    /// A Get or an Intent is corrupt.
    Corrupt,
    /// The source has a live request: one that was accepted and whose reply wasn't handed out.
    SourceBusy,
    /// A later beat's control fields aren't the first beat's.
    BurstControl,
    /// A reply beat's opcode isn't that of the request's reply, or its param isn't 0.
    DOpcode,
    /// A reply beat's size isn't the request's.
    DSize,
    /// A reply beat's source isn't the request's.
    DSource,
    /// The reply hasn't as many beats as it must.
    DBeats,
    /// Two beats of the reply differ in denied.
    DDenied,
    /// A denied AccessAckData isn't corrupt, or another reply is.
    DCorrupt,
}

/// How far a message is with a beat.
#[derive(Clone, Copy, Debug, PartialEq, Eq)]
pub enum Progress {
    /// Beats are still to come.
    More,
    /// This was the last beat.
    Whole,
}

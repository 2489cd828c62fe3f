//! TileLink messages of channels A and D as plain values, a request as it comes in, a reply's box, and the beats' lines
//! in a trace.
//!
//! The rules are those of the SiFive TileLink Specification 1.8, levels TL-UL and TL-UH, on a bus of 64 bits.
#![tactic(auto)]

mod lines;
mod operations;
mod reply_box;
mod request;

pub use lines::{a_line, d_line, d_words};
pub use operations::beats_of;
pub use reply_box::ReplyBox;
pub use request::Request;

/// The most beats that a message has: 4,096 bytes in words of eight (sizes over 12 are left out by this project's
/// profile).
pub const MAX_BEATS: usize = 512;

/// One beat of a request, on channel A.
#[derive(Clone, Copy, Debug, PartialEq, Eq)]
pub struct ABeat {
    /// What is asked for: PutFullData 0, PutPartialData 1, ArithmeticData 2, LogicalData 3, Get 4, Intent 5.
    pub opcode: u8,
    /// Which atomic, or which Intent; else 0.
    pub param: u8,
    /// How many bytes are asked for, as a power of two.
    pub size: u8,
    /// The number by which the client knows the reply.
    pub source: u8,
    /// The address of the first byte, a multiple of `2^size`.
    pub address: u32,
    /// The lanes that are asked for, bit k for lane k.
    pub mask: u8,
    /// Whether the data of this beat are known to be wrong.
    pub corrupt: bool,
    /// The data, lane 0 in the least significant byte.
    pub payload: u64,
}

/// One beat of a reply, on channel D.
#[derive(Clone, Copy, Debug, PartialEq, Eq)]
pub struct DBeat {
    /// The reply's kind: AccessAck 0, AccessAckData 1, HintAck 2.
    pub opcode: u8,
    /// Always 0 on these replies.
    pub param: u8,
    /// The size of the request.
    pub size: u8,
    /// The source of the request.
    pub source: u8,
    /// Whether the request was not carried out.
    pub denied: bool,
    /// Whether the data of this beat are not to be used.
    pub corrupt: bool,
    /// The data, lane 0 in the least significant byte.
    pub payload: u64,
}

/// What an atomic leaves in memory, from the old value and its operand: ArithmeticData has Min to Add, LogicalData has
/// Xor to Swap.
#[derive(Clone, Copy, Debug, PartialEq, Eq)]
pub enum AtomicOp {
    /// The lesser, as signed numbers.
    Min,
    /// The greater, as signed numbers.
    Max,
    /// The lesser, as unsigned numbers.
    MinU,
    /// The greater, as unsigned numbers.
    MaxU,
    /// The sum, which wraps at the operand's width.
    Add,
    /// Bit by bit, whether just one has it.
    Xor,
    /// Bit by bit, whether one has it.
    Or,
    /// Bit by bit, whether both have it.
    And,
    /// The operand.
    Swap,
}

/// What a request asks for.
#[derive(Clone, Copy, Debug, PartialEq, Eq)]
pub enum Operation {
    /// Write all bytes.
    PutFull,
    /// Write the bytes whose lanes the masks have.
    PutPartial,
    /// Read, and write what the atomic makes of it.
    Atomic(AtomicOp),
    /// Read all bytes.
    Get,
    /// A hint: `Intent(true)` is PrefetchWrite, `Intent(false)` PrefetchRead.
    Intent(bool),
}

/// A beat's payload with its mask.
#[derive(Clone, Copy, Debug, PartialEq, Eq)]
pub struct MaskedWord {
    /// The payload.
    pub word: u64,
    /// The lanes that are given, bit k for lane k.
    pub mask: u8,
}

//! Opcodes, params and beat counts of operations (TileLink 1.8, the messages of TL-UL and TL-UH).
ghost use Rattle.std.specs.Prelude.{◌≡◌, ◌≤◌};
ghost use Rattle.tl_messages.specs.Operations.{opcode_of, param_of, named_operation, has_data, reply_has_data, reply_opcode, beats_of};

use crate::{AtomicOp, Operation};

impl Operation {
    /// The operation that an opcode and a param on channel A name, if they name one.
    pub fn named(opcode: u8, param: u8) -> Option<Operation>
        ensures { result ≡ named_operation opcode param }
    {
        match (opcode, param) {
            (0, 0) => Some(Operation::PutFull),
            (1, 0) => Some(Operation::PutPartial),
            (2, 0) => Some(Operation::Atomic(AtomicOp::Min)),
            (2, 1) => Some(Operation::Atomic(AtomicOp::Max)),
            (2, 2) => Some(Operation::Atomic(AtomicOp::MinU)),
            (2, 3) => Some(Operation::Atomic(AtomicOp::MaxU)),
            (2, 4) => Some(Operation::Atomic(AtomicOp::Add)),
            (3, 0) => Some(Operation::Atomic(AtomicOp::Xor)),
            (3, 1) => Some(Operation::Atomic(AtomicOp::Or)),
            (3, 2) => Some(Operation::Atomic(AtomicOp::And)),
            (3, 3) => Some(Operation::Atomic(AtomicOp::Swap)),
            (4, 0) => Some(Operation::Get),
            (5, 0) => Some(Operation::Intent(false)),
            (5, 1) => Some(Operation::Intent(true)),
            _ => None,
        }
    }

    /// The opcode on channel A.
    pub fn opcode(self) -> u8
        ensures { result ≡ opcode_of self }
    {
        match self {
            Operation::PutFull => 0,
            Operation::PutPartial => 1,
            Operation::Atomic(op) => match op {
                AtomicOp::Min | AtomicOp::Max | AtomicOp::MinU | AtomicOp::MaxU | AtomicOp::Add =>
                    2,
                AtomicOp::Xor | AtomicOp::Or | AtomicOp::And | AtomicOp::Swap => 3,
            },
            Operation::Get => 4,
            Operation::Intent(_) => 5,
        }
    }

    /// The param on channel A.
    pub fn param(self) -> u8
        ensures { result ≡ param_of self }
    {
        match self {
            Operation::PutFull | Operation::PutPartial | Operation::Get => 0,
            Operation::Atomic(op) => match op {
                AtomicOp::Min | AtomicOp::Xor => 0,
                AtomicOp::Max | AtomicOp::Or => 1,
                AtomicOp::MinU | AtomicOp::And => 2,
                AtomicOp::MaxU | AtomicOp::Swap => 3,
                AtomicOp::Add => 4,
            },
            Operation::Intent(write) => u8::from(write),
        }
    }

    /// Whether the message on channel A carries data.
    pub fn has_data(self) -> bool
        ensures { result ≡ has_data self }
    {
        matches!(
            self,
            Operation::PutFull | Operation::PutPartial | Operation::Atomic(_)
        )
    }

    /// Whether the reply on channel D carries data.
    pub fn reply_has_data(self) -> bool
        ensures { result ≡ reply_has_data self }
    {
        matches!(self, Operation::Get | Operation::Atomic(_))
    }

    /// The opcode of the reply on channel D: AccessAck 0, AccessAckData 1, HintAck 2.
    pub fn reply_opcode(self) -> u8
        ensures { result ≡ reply_opcode self }
    {
        match self {
            Operation::PutFull | Operation::PutPartial => 0,
            Operation::Get | Operation::Atomic(_) => 1,
            Operation::Intent(_) => 2,
        }
    }
}

/// How many beats a message of `2^size` bytes has on a bus of eight bytes: one for each eight bytes, and at least one,
/// where it carries data; else one. A size is at most 12.
pub fn beats_of(size: u8, has_data: bool) -> u16
    requires { size ≤ 12 }
    ensures { result ≡ beats_of size has_data }
{
    if has_data {
        ((1u16 << size) / 8).max(1)
    } else {
        1
    }
}

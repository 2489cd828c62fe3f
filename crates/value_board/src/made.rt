//! What an atomic makes of the bytes that its reply tells.
ghost use Rattle.std.specs.Prelude.{◌≡◌, ◌%◌, ◌^◌, ◌≤◌, IfSome};
ghost use Rattle.value_board.specs.ClientValues.{IsStep};
ghost use Rattle.value_board.specs.Given.{made_word, step_at, step_of};

use crate::client_values::AtomicStep;
use crate::given::beat_of;
use byte_values::KnownBytes;
use data_unit::{apply, cut, full_mask, merge, place};
use tl_messages::{AtomicOp, Request};

/// What an atomic does to the bytes at an address, by its message.
fn step_of(op: AtomicOp, request: &Request, address: u32) -> AtomicStep
    requires size { request.now.size ≤ 3 }
    requires aligned { address % 2 ^ request.now.size ≡ 0 }
    ensures value { result ≡ step_of op request.now address }
    ensures sound { IsStep result }
{
    let beat = beat_of(request, 0);
    let word = merge(0, beat.word, beat.mask);
    AtomicStep {
        op,
        address,
        size: request.size(),
        operand: cut(word, address, request.size()),
    }
}

/// The same, where these bytes are at most eight, at a multiple of their number.
pub(crate) fn step_at(op: AtomicOp, request: &Request, address: u32) -> Option<AtomicStep>
    ensures value { result ≡ step_at op request.now address }
    ensures sound { IfSome result IsStep }
{
    if request.size() > 3 || address % (1 << request.size()) != 0 {
        return None;
    }
    Some(step_of(op, request, address))
}

/// The word that it leaves of a payload that tells all that it reads.
pub(crate) fn made_word(step: AtomicStep, payload: u64) -> KnownBytes
    requires { IsStep step }
    ensures { result ≡ made_word step payload }
{
    let old = cut(payload, step.address, step.size);
    let made = apply(step.op, 1 << step.size, old, step.operand);
    KnownBytes {
        value: place(made, step.address, step.size),
        lanes: full_mask(step.address, step.size),
    }
}

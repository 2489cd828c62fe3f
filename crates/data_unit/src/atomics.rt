//! What atomics leave, from the old value and their operand (TileLink 1.8, ArithmeticData and LogicalData).
ghost use Rattle.std.specs.Prelude.{◌≡◌, ◌+◌, ◌<◌, ◌≤◌, ◌%◌, ◌^◌, IsTrue, int_lt, if◌then◌else◌, length};
ghost use Rattle.tl_messages.specs.Operations.{has_data};
ghost use Rattle.tl_messages.specs.Requests.{request_of};
ghost use Rattle.data_unit.specs.Atomics.{atomic_result, modulus, operand_of, signed};

use crate::words::{cut, largest, merge};
use tl_messages::{AtomicOp, Request};

/// What an atomic leaves, from the old value and its operand (TileLink 1.8, ArithmeticData and LogicalData). Both have so
/// many bytes: 1, 2, 4 or 8 in this project's profile; any number from 1 to 8 is taken. Min and Max compare signed
/// numbers, MinU and MaxU unsigned ones; Add wraps at the operand's bytes.
pub fn apply(op: AtomicOp, operand_bytes: u8, old: u64, operand: u64) -> u64
    requires some { 0 < operand_bytes }
    requires most { operand_bytes ≤ 8 }
    requires old_fits { old < modulus operand_bytes }
    requires operand_fits { operand < modulus operand_bytes }
    ensures value { result ≡ atomic_result op operand_bytes old operand }
    ensures fits { result < modulus operand_bytes }
{
    match op {
        AtomicOp::Min => chosen(is_below_signed(operand_bytes, operand, old), old, operand),
        AtomicOp::Max => chosen(is_below_signed(operand_bytes, old, operand), old, operand),
        AtomicOp::MinU => chosen(operand < old, old, operand),
        AtomicOp::MaxU => chosen(old < operand, old, operand),
        AtomicOp::Add => sum(operand_bytes, old, operand),
        AtomicOp::Xor => old ^ operand,
        AtomicOp::Or => old | operand,
        AtomicOp::And => old & operand,
        AtomicOp::Swap => operand,
    }
}

/// What an atomic leaves of the old value (TileLink 1.8, ArithmeticData and LogicalData). Its operand is the number that the
/// request's bytes make, where those that aren't given count as zero.
pub fn atomic_number(op: AtomicOp, request: &Request, old: u64) -> u64
    requires data { IsTrue (has_data request.now.operation) }
    requires beats { length request.now.beats ≡ 1 }
    requires size { request.now.size ≤ 3 }
    requires aligned { request.now.address % 2 ^ request.now.size ≡ 0 }
    requires old_fits { old < modulus (2 ^ request.now.size) }
    ensures value { result ≡ atomic_result op (2 ^ request.now.size) old (operand_of (request_of request.now)) }
    ensures fits { result < modulus (2 ^ request.now.size) }
{
    let word = merge(0, request.word(0), request.mask(0));
    let operand = cut(word, request.address(), request.size());
    apply(op, 1 << request.size(), old, operand)
}

/// The operand where it replaces the old value, and else the old value.
fn chosen(replaces: bool, old: u64, operand: u64) -> u64
    ensures { result ≡ (if replaces then operand else old) }
{
    if replaces { operand } else { old }
}

/// Whether a number of so many bytes is below another, both read as signed.
fn is_below_signed(operand_bytes: u8, first: u64, second: u64) -> bool
    requires some { 0 < operand_bytes }
    requires most { operand_bytes ≤ 8 }
    requires first_fits { first < modulus operand_bytes }
    requires second_fits { second < modulus operand_bytes }
    ensures { result ≡ int_lt (signed operand_bytes first) (signed operand_bytes second) }
{
    let half = 1u64 << (8 * operand_bytes - 1);
    let first_negative = half <= first;
    let second_negative = half <= second;
    if first_negative == second_negative {
        first < second
    } else {
        first_negative
    }
}

/// The sum of two numbers of so many bytes, without the carry out of them.
fn sum(operand_bytes: u8, first: u64, second: u64) -> u64
    requires some { 0 < operand_bytes }
    requires most { operand_bytes ≤ 8 }
    ensures { result ≡ (first + second) % modulus operand_bytes }
{
    first.wrapping_add(second) & largest(operand_bytes)
}

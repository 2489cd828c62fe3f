//! The rules on request beats (TileLink 1.8, TL-UL and TL-UH; this project's profile).
ghost use Rattle.std.specs.Prelude.{◌≡◌, ℕ, ◌≤◌, Bool, None, Some};
ghost use Rattle.tl_checker.specs.RequestRules.{TlPortLimits, beyond_level, first_fault, largest_param, wrong_mask, same_control};

use crate::{Level, TlRule};
use data_unit::full_mask;
use tl_messages::{ABeat, Request};

/// The first rule that a beat breaks on a port on which no message has begun, of 1 to 9; or none.
pub(crate) fn first_beat_fault(
    level: Level,
    max_size: u8,
    beat: &ABeat,
    busy: bool,
) -> Option<TlRule>
    requires { max_size ≤ 12 }
    ensures { (client : ℕ) → result ≡ first_fault (record { client = client; level = level; max_size = max_size }) None beat.now busy }
{
    if beat.opcode > 5 {
        return Some(TlRule::Opcode);
    }
    if is_beyond(level, beat) {
        return Some(TlRule::Level);
    }
    if beat.size > max_size {
        return Some(TlRule::Size);
    }
    if matches!(beat.opcode, 2 | 3) && beat.size > 3 {
        return Some(TlRule::AtomicSize);
    }
    if !beat.address.is_multiple_of(1 << beat.size) {
        return Some(TlRule::Align);
    }
    if beat.param > largest_param(beat.opcode) {
        return Some(TlRule::Param);
    }
    if has_wrong_mask(beat) {
        return Some(TlRule::Mask);
    }
    if beat.opcode > 3 && beat.corrupt {
        return Some(TlRule::Corrupt);
    }
    if busy {
        return Some(TlRule::SourceBusy);
    }
    None
}

/// The first rule that a beat breaks after a message that has begun, of 10 and 7; or none.
pub(crate) fn later_beat_fault(held: &Request, beat: &ABeat) -> Option<TlRule>
    ensures { (limits : TlPortLimits) (busy : Bool) → result ≡ first_fault limits (Some held.now) beat.now busy }
{
    if !has_same_control(held, beat) {
        return Some(TlRule::BurstControl);
    }
    if has_wrong_mask(beat) {
        return Some(TlRule::Mask);
    }
    None
}

/// Whether a TL-UL port has no such message: an atomic, an Intent, or one of more than a beat.
fn is_beyond(level: Level, beat: &ABeat) -> bool
    ensures { result ≡ beyond_level level beat.now }
{
    match level {
        Level::Ul => matches!(beat.opcode, 2 | 3 | 5) || beat.size > 3,
        Level::Uh => false,
    }
}

/// The largest param of an opcode.
fn largest_param(opcode: u8) -> u8
    ensures { result ≡ largest_param opcode }
{
    match opcode {
        2 => 4,
        3 => 3,
        5 => 1,
        _ => 0,
    }
}

/// Whether a mask is wrong: PutPartialData may leave out lanes, the others have just the lanes of address and size.
fn has_wrong_mask(beat: &ABeat) -> bool
    ensures { result ≡ wrong_mask beat.now }
{
    let full = full_mask(beat.address, beat.size);
    if beat.opcode == 1 {
        beat.mask & full != beat.mask
    } else {
        beat.mask != full
    }
}

/// Whether a later beat has the control fields of the message that has begun.
fn has_same_control(held: &Request, beat: &ABeat) -> bool
    ensures { result ≡ same_control held.now beat.now }
{
    let operation = held.operation();
    beat.opcode == operation.opcode()
        && beat.param == operation.param()
        && beat.size == held.size()
        && beat.source == held.source()
        && beat.address == held.address()
}

//! Answers as numbers.
ghost use Rattle.std.specs.Prelude.{◌≡◌, get_or};
ghost use Rattle.call_words.specs.Answers.{FaultTold, byte_answer, fault_answer};

use script_text::ScriptFault;
use std::io::Write;

/// More words are wanted.
pub(crate) const PENDING: u64 = 17_179_869_184;

/// There is no such call, or not here.
pub const WRONG_CALL: u64 = 8_589_934_595;

/// No byte is there.
const NO_BYTE: u64 = 4_294_967_296;

/// A fault: 2^32 and the first wrong word, 2^33 where the set-up is refused, and one more where memory is.
pub fn fault_answer(fault: ScriptFault) -> u64
    ensures { result ≡ fault_answer fault }
{
    match fault {
        ScriptFault::Script { word, .. } => 4_294_967_296 + u64::from(word),
        ScriptFault::Setup(_) => 8_589_934_592,
        ScriptFault::NoMemory => 8_589_934_593,
        ScriptFault::Read | ScriptFault::Write => 8_589_934_594,
    }
}

/// A byte, or that there is none.
pub fn byte_answer(byte: Option<u8>) -> u64
    ensures { result ≡ byte_answer byte }
{
    match byte {
        Some(byte) => u64::from(byte),
        None => NO_BYTE,
    }
}

/// Writes the text of a fault, as far as there is one, and tells how many bytes it has.
#[inline(never)]
pub(crate) fn fault_length(text: &mut Vec<u8>, fault: Option<ScriptFault>) -> u64
    ensures { FaultTold text.new.items result }
{
    text.clear();
    let Some(fault) = fault else {
        return 0;
    };
    match write!(text, "{fault}") {
        Ok(()) => text.len() as u64,
        Err(_) => fault_answer(ScriptFault::NoMemory),
    }
}

/// The byte of a text at a place; 0 behind its end.
pub(crate) fn text_byte(text: &[u8], place: u32) -> u64
    ensures { result ≡ get_or text.now place 0 }
{
    match text.get(place as usize) {
        Some(byte) => u64::from(*byte),
        None => 0,
    }
}

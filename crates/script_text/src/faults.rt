//! Why a script isn't carried out to its end.
ghost use Rattle.std.specs.Prelude.{◌≡◌};
ghost use Rattle.script_text.specs.declared.faults.ScriptFault.TheVariants as script_fault;

use line_text::WriteFault;
use setups::SetupFault;
use std::alloc::AllocError;
use thiserror::Error;

/// Why a script isn't carried out to its end (this project's profile).
#[derive(Clone, Copy, Debug, PartialEq, Eq, Error)]
pub enum ScriptFault {
    /// A line may not stand as it is. Lines and words are counted from 1; word 0 is the line as a whole.
    #[error("script fault: line {line}, word {word}")]
    Script {
        /// The line.
        line: u32,
        /// The first wrong word.
        word: u32,
    },
    /// The set-up is refused.
    #[error("set-up fault: {0}")]
    Setup(SetupFault),
    /// A read failed; one that was interrupted failed too.
    #[error("read fault")]
    Read,
    /// A write failed.
    #[error("write fault")]
    Write,
    /// Memory was refused.
    #[error("out of memory")]
    NoMemory,
}

impl ScriptFault {
    /// The fault of a line that may not stand as it is: its number, and its first wrong word. Both are counted from 1; word 0 is the line
    /// as a whole.
    pub fn at(line: u32, word: u32) -> ScriptFault
        ensures { result ≡ script_fault.Script line word }
    {
        ScriptFault::Script { line, word }
    }
}

impl From<WriteFault> for ScriptFault {
    ghost from_gives = { λ fault result. result ≡ script_fault.Write };

    fn from(_: WriteFault) -> ScriptFault {
        ScriptFault::Write
    }
}

impl From<AllocError> for ScriptFault {
    ghost from_gives = { λ fault result. result ≡ script_fault.NoMemory };

    fn from(_: AllocError) -> ScriptFault {
        ScriptFault::NoMemory
    }
}

//! How a text call ends that isn't carried out to its end, and the program's exit status.
ghost use Rattle.std.specs.Prelude.{◌≡◌};
ghost use Rattle.tlbridge.specs.Results.{status_of};

use bridge_threads::Fault;
use burst_plan::MapFault;
use script_text::ScriptFault;
use subordinate::DeviceFault;
use thiserror::Error;
use world::SetupFault;

/// Why a script isn't carried out to its end (this project's profile).
#[derive(Clone, Copy, Debug, PartialEq, Eq, Error)]
pub enum TextFault {
    /// A line may not stand as it is. Lines and words are counted from 1; word 0 is the line as a whole.
    #[error("script fault: line {line}, word {word}")]
    Script {
        /// The line.
        line: u32,
        /// The first wrong word.
        word: u32,
    },
    /// The set-up is refused.
    #[error("set-up fault: {0}")]
    Setup(SetupFault),
    /// A read failed; one that was interrupted failed too.
    #[error("read fault")]
    Read,
    /// A write failed.
    #[error("write fault")]
    Write,
    /// Memory was refused.
    #[error("out of memory")]
    NoMemory,
    /// A threaded run has no report.
    #[error("thread fault: {0}")]
    Thread(Fault),
}

impl From<ScriptFault> for TextFault {
    ghost use Rattle.std.specs.Prelude.{◌≡◌};
    ghost use Rattle.tlbridge.specs.Endings.{text_fault};

    ghost from_gives = { λ fault result. result ≡ text_fault fault };

    fn from(fault: ScriptFault) -> TextFault {
        match fault {
            ScriptFault::Script { line, word } => TextFault::Script { line, word },
            ScriptFault::Setup(fault) => TextFault::Setup(fault),
            ScriptFault::Read => TextFault::Read,
            ScriptFault::Write => TextFault::Write,
            ScriptFault::NoMemory => TextFault::NoMemory,
        }
    }
}

/// The exit status of a text call's result: 0 where all went well, 1 where `check` refused something, 2 for a fault of
/// the script or its set-up, 3 for one of the reader or writer, 4 where allocation failed, 5 for a fault of the threads.
pub fn status_of(ending: &Result<bool, TextFault>) -> u8
    ensures { result ≡ status_of ending.now }
{
    match ending {
        Ok(refused) => u8::from(*refused),
        Err(TextFault::Script { .. }) => 2,
        Err(
            TextFault::Setup(
                SetupFault::NoMemory
                | SetupFault::Map(MapFault::NoMemory)
                | SetupFault::Device(DeviceFault::NoMemory),
            ),
        ) => 4,
        Err(TextFault::Setup(_)) => 2,
        Err(TextFault::Read | TextFault::Write) => 3,
        Err(TextFault::NoMemory | TextFault::Thread(Fault::NoMemory)) => 4,
        Err(TextFault::Thread(_)) => 5,
    }
}

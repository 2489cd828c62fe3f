//! The program: it reads what was observed at the ports of a bridge, and prints each beat that can't be right.
#![tactic(auto)]

mod endings;
mod tasks;
mod version;

use endings::{scored, status_of};
use score_script::fault_reason;
use script_text::{ScriptFault, StoppedLine};
use std::alloc::Global;
use std::env;
use std::io::{BufWriter, Read, Write};
use std::process::ExitCode;
use std::rt::Env;
use tasks::{Task, task_of};
use version::version_told;

/// The exit status where the words are refused.
const BAD_WORDS: u8 = 6;

fn words_given<R: Env + AllocGlobal>(rt: &R) -> Option<Vec<String>> {
    let args = env::args(rt).ok()?;
    args.collect(rt.alloc()).ok()
}

/// Does what is asked.
fn carried_out<R: Read, W: Write + Drop>(
    task: Task,
    alloc: Global,
    reader: &mut R,
    output: W,
    stopped: &mut StoppedLine,
) -> Result<bool, ScriptFault> {
    let Ok(mut writer) = BufWriter::new(alloc, output) else {
        return Err(ScriptFault::NoMemory);
    };
    match task {
        Task::Judge => scored(alloc, reader, &mut writer, stopped),
        Task::Version => version_told(&mut writer),
    }
}

fn main(rt: HostRuntime) -> ExitCode {
    let Some(task) = task_of(words_given(&rt)) else {
        let _ = eprintln!(rt; "usage: tlscore [--version]");
        return ExitCode::from(BAD_WORDS);
    };
    let mut stopped = StoppedLine::new();
    let ending = carried_out(
        task,
        rt.alloc(),
        &mut rt.reader(),
        rt.stdout(),
        &mut stopped,
    );
    if let Err(fault) = ending {
        let _ = match fault_reason(&fault, &stopped) {
            Some(reason) => eprintln!(rt; "{fault}: {}", reason.text()),
            None => eprintln!(rt; "{fault}"),
        };
    }
    ExitCode::from(status_of(&ending))
}

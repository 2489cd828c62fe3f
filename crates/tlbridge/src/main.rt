//! The program: it reads a script and prints its trace.
#![tactic(auto)]

mod faults;
mod modes;
#[cfg(test)]
mod tests;
mod threads;

use clap::Command;
use faults::{TextFault, status_of};
use modes::{Mode, Task, carried_out, carried_out_in_threads, task_named};
use std::alloc::{AllocError, Global};
use std::env;
use std::io::{BufWriter, Read, Write};
use std::process::ExitCode;
use std::rt::Env;
use std::sync::Wait;
use std::thread::Threads;

/// The exit status where the words are refused.
const BAD_WORDS: u8 = 6;

fn command<'a>(alloc: Global) -> Result<Command<'a>, AllocError> {
    Command::new(alloc, "tlbridge")
        .disable_help_flag(true)
        .disable_version_flag(true)
        .disable_help_subcommand(true)
        .subcommand(Command::new(alloc, "run").disable_help_flag(true))?
        .subcommand(Command::new(alloc, "check").disable_help_flag(true))?
        .subcommand(Command::new(alloc, "threads").disable_help_flag(true))
}

/// What the words ask for; none where they are refused.
fn task_of<'a>(alloc: Global, words: &'a [String]) -> Option<Task> {
    let command: Command<'a> = command(alloc).ok()?;
    let matches = command.try_get_matches_from(words).ok()?;
    match matches.subcommand_name() {
        None => Some(Task::Script(Mode::Run)),
        Some(name) => task_named(name.as_bytes()),
    }
}

fn words_given<R: Env + AllocGlobal>(rt: &R) -> Option<Vec<String>> {
    let args = env::args(rt).ok()?;
    args.collect(rt.alloc()).ok()
}

/// Does with a script what is asked.
fn read_input<T: Threads + Wait + Sync, R: Read, W: Write + Drop>(
    rt: &T,
    alloc: Global,
    task: Task,
    reader: &mut R,
    output: W,
) -> Result<bool, TextFault> {
    let Ok(mut writer) = BufWriter::new(alloc, output) else {
        return Err(TextFault::NoMemory);
    };
    match task {
        Task::Script(mode) => carried_out(mode, alloc, reader, &mut writer),
        Task::Threads => carried_out_in_threads(rt, alloc, reader, &mut writer),
    }
}

fn main(rt: HostRuntime) -> ExitCode {
    let task = match words_given(&rt) {
        None => None,
        Some(words) => task_of(rt.alloc(), words.as_slice()),
    };
    let Some(task) = task else {
        let _ = eprintln!(rt; "usage: tlbridge run, check or threads");
        return ExitCode::from(BAD_WORDS);
    };
    let ending = read_input(&rt, rt.alloc(), task, &mut rt.reader(), rt.stdout());
    if let Err(fault) = ending {
        let _ = eprintln!(rt; "{fault}");
    }
    ExitCode::from(status_of(&ending))
}

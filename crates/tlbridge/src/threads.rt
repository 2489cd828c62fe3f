//! `tlbridge threads`: a script that asks for a run in threads.
ghost use Rattle.std.specs.Prelude.{◌≡◌, Some, take, true, IfErr, IfOk};
ghost use Rattle.std.specs.Result.{result_map_both};
ghost use Rattle.thread_reports.specs.Reports.{IsReport};
ghost use Rattle.threads_script.specs.Asked.{IsSoundAsked};
ghost use Rattle.tlbridge.specs.Threads.{EndsAsRead, FailsToRun, run_fault};
ghost use Rattle.world_run.specs.Headline.{IsOneAtATime};
ghost use Rattle.world_run.specs.Runs.{answers_of, handed_in, sent_in};
ghost use Rattle.setups.specs.Setups.{SetupLists};
ghost use Rattle.world.specs.World.{byte_of, in_flight, opening_world};

use crate::faults::TextFault;
use bridge_threads::{Fault, Gate, Limits, Who, run_threads};
use script_text::read_script;
use std::alloc::Global;
use std::io::{Read, Write};
use std::sync::Wait;
use std::thread::Threads;
use thread_reports::Report;
use threads_script::{Asked, report_lines};

/// How many steps and idle turns the program's run may have.
const LIMITS: Limits = Limits {
    steps: 200_000,
    idle: 100_000_000,
};

/// Lets each worker make each of its turns.
#[derive(Drop)]
struct OpenGate;

impl Gate for OpenGate {
    fn pass(&self, _who: Who, _index: u32) -> bool
        ensures { result ≡ true }
    {
        true
    }
}

/// A fault of the threads; failed allocation is told as such.
fn run_fault(fault: Fault) -> TextFault
    ensures { result ≡ run_fault fault }
{
    match fault {
        Fault::NoMemory => TextFault::NoMemory,
        _ => TextFault::Thread(fault),
    }
}

/// What a run answered, with its fault as one of a text call.
fn asked_of(answer: Result<Report, Fault>) -> Result<Report, TextFault>
    ensures { result ≡ result_map_both (λ report. report) run_fault answer }
{
    match answer {
        Ok(report) => Ok(report),
        Err(fault) => Err(run_fault(fault)),
    }
}

/// Runs what a script asks for.
fn run_asked<T: Threads + Wait + Sync>(
    rt: &T,
    alloc: Global,
    asked: &Asked,
) -> Result<Report, TextFault>
    requires { IsSoundAsked asked.now }
    ensures report { IfOk result (λ report. (setup : SetupLists) → asked.now.setup ≡ Some setup → IsReport setup (take setup.config.clients asked.now.scripts) report.steps.items report.receipts.items report.world) }
    ensures one_at_a_time { IfOk result (λ report. (setup : SetupLists) → asked.now.setup ≡ Some setup → IsOneAtATime setup report.steps.items (answers_of (opening_world setup) report.steps.items) (handed_in (opening_world setup) report.steps.items) (sent_in (opening_world setup) report.steps.items) (in_flight report.world) (byte_of report.world)) }
    ensures fault { IfErr result (FailsToRun asked.now) }
{
    let Some(setup) = asked.setup() else {
        unreachable!();
    };
    let scripts = asked.scripts(setup.config.clients);
    asked_of(run_threads(rt, alloc, setup, scripts, asked.words(), &OpenGate, LIMITS))
}

/// Reads a script to its end, runs what it asks for in threads, and writes the text of the report. Nothing is written before
/// that.
pub fn threads_text<T: Threads + Wait + Sync, R: Read, W: Write>(
    rt: &T,
    alloc: Global,
    reader: &mut R,
    writer: &mut W,
) -> Result<bool, TextFault>
    ensures { EndsAsRead (R.remaining reader.old) (R.remaining reader.new) (W.contents writer.old) (W.contents writer.new) result }
{
    let Ok(nothing) = Asked::new(alloc) else {
        return Err(TextFault::NoMemory);
    };
    let asked = match read_script(nothing, alloc, reader, writer) {
        Ok(asked) => asked,
        Err(fault) => return Err(TextFault::from(fault)),
    };
    let report = match run_asked(rt, alloc, &asked) {
        Ok(report) => report,
        Err(fault) => return Err(fault),
    };
    match report_lines(&report, asked.addresses(), writer) {
        Ok(()) => Ok(false),
        Err(_) => Err(TextFault::Write),
    }
}

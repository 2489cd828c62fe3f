//! Workloads by which the time of each public call is measured. Without a word it does nothing, and prints nothing.
#![tactic(auto)]

mod beats;
mod calls;
mod rounds;
mod worlds;

use beats::{monitor, port, writes};
use calls::{
    ask_byte, ask_choice, ask_choices, ask_in_flight, ask_work, offer_again, pump_idle,
    take_nothing,
};
use rounds::{drains, reads, requests};
use std::env;
use std::process::ExitCode;
use std::rt::Env;
use worlds::Load;

/// The exit status where the words are refused.
const BAD_WORDS: u8 = 6;

fn words_given<R: Env + AllocGlobal>(rt: &R) -> Option<Vec<String>> {
    let args = env::args(rt).ok()?;
    args.collect(rt.alloc()).ok()
}

/// The number that a word is; none where it is no number.
fn number_of(word: Option<&String>) -> Option<u32> {
    word?.as_str().parse().ok()
}

/// What the words after the first say: how large a workload is, and how often it is done.
fn load_of(words: &[String]) -> Option<Load> {
    let size = number_of(words.get(2))?;
    let times = number_of(words.get(3))?;
    if size == 0 || size > 64 {
        return None;
    }
    Some(Load { size, times })
}

/// What is done again and again.
#[derive(Clone, Copy)]
enum Workload {
    Pump,
    Offer,
    Take,
    InFlight,
    Work,
    Choices,
    Choose,
    Byte,
    Requests,
    Reads,
    Drains,
    Monitor,
    Writes,
    Port,
}

/// The workloads by their words.
const WORKLOADS: &[(&str, Workload)] = &[
    ("pump", Workload::Pump),
    ("offer", Workload::Offer),
    ("take", Workload::Take),
    ("in_flight", Workload::InFlight),
    ("work", Workload::Work),
    ("choices", Workload::Choices),
    ("choose", Workload::Choose),
    ("byte", Workload::Byte),
    ("requests", Workload::Requests),
    ("reads", Workload::Reads),
    ("drains", Workload::Drains),
    ("monitor", Workload::Monitor),
    ("writes", Workload::Writes),
    ("port", Workload::Port),
];

/// The workload of a word; none where there is no such workload.
fn workload_of(word: &str) -> Option<Workload> {
    for (name, workload) in WORKLOADS {
        if *name == word {
            return Some(*workload);
        }
    }
    None
}

/// Does a workload, and answers what it counted on the way; none where memory is refused.
fn counted(alloc: std::alloc::Global, workload: Workload, load: Load) -> Option<u64> {
    match workload {
        Workload::Pump => pump_idle(alloc, load),
        Workload::Offer => offer_again(alloc, load),
        Workload::Take => take_nothing(alloc, load),
        Workload::InFlight => ask_in_flight(alloc, load),
        Workload::Work => ask_work(alloc, load),
        Workload::Choices => ask_choices(alloc, load),
        Workload::Choose => ask_choice(alloc, load),
        Workload::Byte => ask_byte(alloc, load),
        Workload::Requests => requests(alloc, load),
        Workload::Reads => reads(alloc, load),
        Workload::Drains => drains(alloc, load),
        Workload::Monitor => monitor(alloc, load),
        Workload::Writes => writes(alloc, load),
        Workload::Port => port(alloc, load),
    }
}

/// Does the workload that the words name.
fn answered(alloc: std::alloc::Global, words: &[String]) -> Option<u64> {
    let load = load_of(words)?;
    let workload = workload_of(words.get(1)?.as_str())?;
    counted(alloc, workload, load)
}

fn main(rt: HostRuntime) -> ExitCode {
    let Some(words) = words_given(&rt) else {
        return ExitCode::from(BAD_WORDS);
    };
    if words.len() <= 1 {
        return ExitCode::from(0);
    }
    match answered(rt.alloc(), words.as_slice()) {
        Some(count) => {
            let _ = println!(rt; "{count}");
            ExitCode::from(0)
        }
        None => {
            let _ = eprintln!(rt; "usage: benches WORKLOAD SIZE TIMES");
            ExitCode::from(BAD_WORDS)
        }
    }
}

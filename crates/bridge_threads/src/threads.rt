//! A run in threads: what it takes, what came of it, and the report.
ghost use Rattle.std.specs.Prelude.{◌≡◌, ◌≢◌, ◌⊎◌, ◌<◌, ◌≤◌, ◌↔◌, ℕ, List, [], length, None, Some, Ok, Err, true, false, IfOk, IfSome, IsTrue};
ghost use Rattle.tl_checker.specs.Ports.{opening_port};
ghost use Rattle.tl_checker.specs.declared.TlRule.{TlRule};
ghost use Rattle.tl_checker.specs.declared.TlRule.TheVariants.{SourceBusy};
ghost use Rattle.config.specs.Configs.{is_valid, port_of};
ghost use Rattle.world_run.specs.Headline.{IsOneAtATime};
ghost use Rattle.world_run.specs.Runs.{answers_of, handed_in, sent_in};
ghost use Rattle.setups.specs.Setups.{SetupLists, lists_of, setup_fault};
ghost use Rattle.world.specs.World.{byte_of, in_flight, opening_world};
ghost use Rattle.world.specs.declared.Step.{Step};
ghost use Rattle.bridge_threads.specs.Faults.{IsConfirmed, IsTold, first_of, is_of_worker};
ghost use Rattle.bridge_threads.specs.RefusedBeats.{IsRefusedBeat, client_limits, limits_of_ports};
ghost use Rattle.bridge_threads.specs.SharedStates.{opening_shared};
ghost use Rattle.thread_reports.specs.FullHistories.{IsFullHistory};
ghost use Rattle.thread_reports.specs.Refusals.{is_refused};
ghost use Rattle.thread_reports.specs.Reports.{items_of, IsReport};
ghost use Rattle.bridge_threads.specs.declared.threads.Fault.TheVariants.{BadConfig, BeatRefused, GateShut, HistoryFull, IdleLimit, NoMemory, ReceiptMismatch};
ghost use Rattle.bridge_threads.specs.declared.turns.WorkerFault.TheVariants as met;

use crate::Shared;
use crate::clients::ClientWork;
use crate::gates::Gate;
use crate::limits::is_refused;
use crate::ports::{refused_at, room_for};
use crate::turns::WorkerFault;
use crate::workers::{Crew, Joined, Seat, Site, run_crew};
use std::alloc::{AllocError, Global};
use std::sync::{Mutex, Wait};
use std::thread::Threads;
use thiserror::Error;
use thread_reports::{Mismatch, Receipts, Report, SecondWorld};
use tl_checker::{Port, TlRule};
use tl_messages::{ABeat, ReplyBox};
use world::Setup;

/// The limits of a threaded run.
#[derive(Clone, Copy, Debug, PartialEq, Eq)]
pub struct Limits {
    /// How many steps may be stored, 1 to 1,000,000.
    pub steps: u32,
    /// How many idle turns in a row end a worker, at least 1.
    pub idle: u32,
}

/// Why a threaded run has no report.
#[derive(Clone, Copy, Debug, PartialEq, Eq, Error)]
pub enum Fault {
    /// The set-up is refused for another cause than memory; there isn't one script for each client, or one has over 4,096
    /// beats; there are not 1 to 4 lists of words; or a limit is 0, or over 1,000,000 steps.
    #[error("1 BadConfig")]
    BadConfig,
    /// Memory was refused, before the first thread started.
    #[error("out of memory")]
    NoMemory,
    /// A thread was refused.
    #[error("3 Spawn")]
    Spawn,
    /// The gate answered false.
    #[error("4 GateShut")]
    GateShut,
    /// A worker had too many idle turns in a row.
    #[error("5 IdleLimit")]
    IdleLimit,
    /// The history has no room.
    #[error("6 HistoryFull")]
    HistoryFull,
    /// A beat of a client's script was refused, by another rule than a busy source.
    #[error("7 BeatRefused client {client} beat {index} rule {} {}", .rule.number(), .rule.name())]
    BeatRefused {
        /// The client.
        client: u8,
        /// The beat's place in its script, from 0.
        index: u32,
        /// The first rule that it breaks.
        rule: TlRule,
    },
    /// The stored steps, made once more, don't give what the workers received and offered.
    #[error("8 ReceiptMismatch client {client} index {index}")]
    ReceiptMismatch {
        /// The first client by number of whom this is so; 0 where no client shows it.
        client: u8,
        /// The first of its receipts that differs, or the place after its last.
        index: u32,
    },
}

/// All that a run needs, made before its first thread.
#[derive(Drop)]
struct Prepared {
    shared: Shared,
    second: SecondWorld,
    ports: Vec<Port>,
    crew: Crew,
}

/// One client's place, and its port, by whose walk over the script its receipts have room.
fn seat_of(
    alloc: Global,
    setup: &Setup,
    number: u8,
    script: &[ABeat],
) -> Result<(Seat, Port), AllocError>
    requires { is_valid setup.now.config ≡ true }
    ensures { IfOk result (λ seated. seated.1 ≡ opening_port (port_of setup.now.config number)) }
{
    let level = setup.config.level_of(number);
    let mut port = Port::new(alloc, number, level, setup.config.max_size)?;
    let room = room_for(&mut port, script);
    let receipts = Receipts::new(alloc, room.replies, room.beats)?;
    let reply = ReplyBox::new(alloc)?;
    let work = ClientWork::new(number, receipts);
    Ok((Seat { work, reply }, port))
}

/// Each client's place, and its port.
fn seats_of(
    alloc: Global,
    setup: &Setup,
    scripts: &[Vec<ABeat>],
) -> Result<(Vec<Seat>, Vec<Port>), AllocError>
    requires { is_valid setup.now.config ≡ true }
    ensures ports { IfOk result (λ seated. length scripts.now ≤ 256 → limits_of_ports seated.1.items ≡ client_limits setup.now.config (length scripts.now)) }
{
    let mut seats = Vec::with_capacity(alloc, scripts.len())?;
    let mut ports = Vec::with_capacity(alloc, scripts.len())?;
    let mut number = 0u8;
    for script in scripts {
        let (seat, port) = seat_of(alloc, setup, number, script.as_slice())?;
        seats.push(seat)?;
        ports.push(port)?;
        number = number.saturating_add(1);
    }
    Ok((seats, ports))
}

/// So many reply boxes.
fn boxes_of(alloc: Global, count: usize) -> Result<Vec<ReplyBox>, AllocError> {
    let mut boxes = Vec::with_capacity(alloc, count)?;
    for _ in 0..count {
        boxes.push(ReplyBox::new(alloc)?)?;
    }
    Ok(boxes)
}

/// The crew of these clients, and of so many memory threads.
fn crew_of(alloc: Global, seats: Vec<Seat>, memories: usize) -> Result<Crew, AllocError> {
    let clients = seats.len();
    Ok(Crew {
        seats,
        boxes: boxes_of(alloc, memories)?,
        clients: Vec::with_capacity(alloc, clients)?,
        memories: Vec::with_capacity(alloc, memories)?,
        faults: Vec::with_capacity(alloc, clients.saturating_add(memories))?,
        receipts: Vec::with_capacity(alloc, clients)?,
    })
}

/// Takes all room.
fn prepare(
    alloc: Global,
    setup: &Setup,
    scripts: &[Vec<ABeat>],
    memories: usize,
    limits: Limits,
) -> Result<Prepared, AllocError>
    requires { setup_fault (lists_of setup.now) ≡ None }
    ensures fresh { IfOk result (λ room. room.second ≡ opening_world (lists_of setup.now)) }
    ensures shared { IfOk result (λ room. room.shared ≡ opening_shared (lists_of setup.now) limits.steps) }
    ensures ports { IfOk result (λ room. length scripts.now ≤ 256 → limits_of_ports room.ports.items ≡ client_limits setup.now.config (length scripts.now)) }
{
    let Ok(second) = SecondWorld::new(alloc, setup) else {
        return Err(AllocError);
    };
    let Ok(shared) = Shared::new(alloc, setup, limits.steps) else {
        return Err(AllocError);
    };
    let (seats, ports) = seats_of(alloc, setup, scripts)?;
    let crew = crew_of(alloc, seats, memories)?;
    Ok(Prepared {
        shared,
        second,
        ports,
        crew,
    })
}

/// Whether a beat of a client's script is refused by this rule, where there is such a client.
fn is_refused_beat(
    ports: &mut Vec<Port>,
    scripts: &[Vec<ABeat>],
    client: usize,
    index: u32,
    rule: TlRule,
) -> bool
    ensures refused { result ≡ true → (setup : SetupLists) (clients : ℕ) → limits_of_ports ports.old.items ≡ client_limits setup.config clients → IsRefusedBeat setup (items_of scripts.now) client index rule × (client < clients) }
    ensures limits { limits_of_ports ports.new.items ≡ limits_of_ports ports.old.items }
{
    if client >= ports.len() {
        return false;
    }
    if client >= scripts.len() {
        return false;
    }
    match refused_at(&mut ports[client], scripts[client].as_slice(), index) {
        Some(broken) => broken == rule,
        None => false,
    }
}

/// What a worker's fault is told as, or where it doesn't hold, what fault 8 would tell.
fn confirmed(
    fault: WorkerFault,
    worker: usize,
    ports: &mut Vec<Port>,
    scripts: &[Vec<ABeat>],
    full: bool,
) -> Result<Fault, Mismatch>
    ensures own { IfOk result (λ told. is_of_worker told ≡ true) }
    ensures shut { fault ≡ met.GateShut → result ≡ Ok GateShut }
    ensures idle { fault ≡ met.IdleLimit → result ≡ Ok IdleLimit }
    ensures told { IsConfirmed full worker fault result }
    ensures full { result ≡ Ok HistoryFull → full ≡ true }
    ensures beat { (setup : SetupLists) (clients client index : ℕ) (rule : TlRule) → limits_of_ports ports.old.items ≡ client_limits setup.config clients → clients ≤ 256 → result ≡ Ok (BeatRefused client index rule) → IsRefusedBeat setup (items_of scripts.now) client index rule }
    ensures limits { limits_of_ports ports.new.items ≡ limits_of_ports ports.old.items }
{
    let client = worker.min(usize::from(u8::MAX)) as u8;
    match fault {
        WorkerFault::GateShut => Ok(Fault::GateShut),
        WorkerFault::IdleLimit => Ok(Fault::IdleLimit),
        WorkerFault::HistoryFull if full => Ok(Fault::HistoryFull),
        WorkerFault::HistoryFull => Err(Mismatch {
            client: 0,
            index: 0,
        }),
        WorkerFault::BeatRefused(index, rule) => {
            if is_refused_beat(ports, scripts, worker, index, rule) {
                return Ok(Fault::BeatRefused {
                    client,
                    index,
                    rule,
                });
            }
            Err(Mismatch { client, index })
        }
        WorkerFault::NoRoom(index) => Err(Mismatch { client, index }),
    }
}

/// The first of two faults, the first of which may be missing.
fn first_of(first: Option<Fault>, later: Fault) -> Option<Fault>
    ensures { result ≡ first_of first later }
{
    match first {
        Some(_) => first,
        None => Some(later),
    }
}

/// The fault to tell of the workers': the first that holds, else the first that doesn't, as fault 8; none where none met one.
fn told(
    faults: &[Option<WorkerFault>],
    ports: &mut Vec<Port>,
    scripts: &[Vec<ABeat>],
    full: bool,
) -> Option<Fault>
    ensures first { IsTold full 0 faults.now None result }
    ensures own { IfSome result (λ told. is_of_worker told ≡ true) }
    ensures full { result ≡ Some HistoryFull → full ≡ true }
    ensures beat { (setup : SetupLists) (clients client index : ℕ) (rule : TlRule) → limits_of_ports ports.old.items ≡ client_limits setup.config clients → clients ≤ 256 → result ≡ Some (BeatRefused client index rule) → IsRefusedBeat setup (items_of scripts.now) client index rule }
{
    let mut late = None;
    for worker in 0..faults.len() {
        let Some(fault) = faults[worker] else {
            continue;
        };
        match confirmed(fault, worker, ports, scripts, full) {
            Ok(fault) => return Some(fault),
            Err(mismatch) => late = first_of(late, mismatched(mismatch)),
        }
    }
    late
}

/// A mismatch as the fault that tells of it.
fn mismatched(mismatch: Mismatch) -> Fault
    ensures { result ≡ ReceiptMismatch mismatch.client mismatch.index }
{
    Fault::ReceiptMismatch {
        client: mismatch.client,
        index: mismatch.index,
    }
}

/// The fault to tell where a worker met a full history, which is full or isn't.
fn told_at_full(
    faults: &[Option<WorkerFault>],
    ports: &mut Vec<Port>,
    scripts: &[Vec<ABeat>],
    full: bool,
) -> Fault
    ensures first { IsTold full 0 faults.now None (Some result) ⊎ (IsTold full 0 faults.now None None × (result ≡ ReceiptMismatch 0 0)) }
    ensures own { is_of_worker result ≡ true }
    ensures full { result ≡ HistoryFull → full ≡ true }
    ensures beat { (setup : SetupLists) (clients client index : ℕ) (rule : TlRule) → limits_of_ports ports.old.items ≡ client_limits setup.config clients → clients ≤ 256 → result ≡ BeatRefused client index rule → IsRefusedBeat setup (items_of scripts.now) client index rule }
{
    match told(faults, ports, scripts, full) {
        Some(fault) => fault,
        None => Fault::ReceiptMismatch {
            client: 0,
            index: 0,
        },
    }
}

/// Whether a worker met a full history.
fn met_full_history(faults: &[Option<WorkerFault>]) -> bool {
    faults
        .iter()
        .any(|fault| matches!(fault, Some(WorkerFault::HistoryFull)))
}

/// Runs a set-up in threads: one for each client, which offers its script and takes its replies, and one for each list of
/// words, 1 to 4, which makes the choices of bridge and memory by these words, over and over. Each thread asks the gate
/// before each of its turns, so that a caller can hold it up, or end the run.
///
/// Where there is no report, `Fault` says why.
pub fn run_threads<R: Threads + Wait + Sync, G: Gate + Sync>(
    rt: &R,
    alloc: Global,
    setup: &Setup,
    scripts: &[Vec<ABeat>],
    words: &[Vec<u64>],
    gate: &G,
    limits: Limits,
) -> Result<Report, Fault>
    ensures report { IfOk result (λ report. IsReport (lists_of setup.now) (items_of scripts.now) report.steps.items report.receipts.items report.world) }
    ensures one_at_a_time { IfOk result (λ report. IsOneAtATime (lists_of setup.now) report.steps.items (answers_of (opening_world (lists_of setup.now)) report.steps.items) (handed_in (opening_world (lists_of setup.now)) report.steps.items) (sent_in (opening_world (lists_of setup.now)) report.steps.items) (in_flight report.world) (byte_of report.world)) }
    ensures refused { (result ≡ Err BadConfig) ↔ IsTrue (is_refused (lists_of setup.now) (items_of scripts.now) (items_of words.now) limits.steps limits.idle) }
    ensures full { result ≡ Err HistoryFull → (steps : List Step) × IsFullHistory (lists_of setup.now) (items_of scripts.now) limits.steps steps }
    ensures beat { (client index : ℕ) (rule : TlRule) → result ≡ Err (BeatRefused client index rule) → IsRefusedBeat (lists_of setup.now) (items_of scripts.now) client index rule × (rule ≢ SourceBusy) }
    ensures memory { result ≡ Err NoMemory → is_refused (lists_of setup.now) (items_of scripts.now) (items_of words.now) limits.steps limits.idle ≡ false }
{
    if is_refused(setup, scripts, words, limits) {
        return Err(Fault::BadConfig);
    }
    let Ok(room) = prepare(alloc, setup, scripts, words.len(), limits) else {
        return Err(Fault::NoMemory);
    };
    let Prepared {
        shared,
        second,
        mut ports,
        crew,
    } = room;
    let lock = Mutex::new(shared);
    let site = Site {
        rt,
        lock: &lock,
        gate,
        scripts,
        words,
        idle: limits.idle,
    };
    let Joined {
        refused,
        faults,
        receipts,
    } = run_crew(&site, crew);
    if refused {
        return Err(Fault::Spawn);
    }
    let steps = lock.into_inner().into_steps();
    let faults = faults.as_slice();
    if met_full_history(faults) {
        let full = second.fills(scripts, steps.as_slice(), receipts.as_slice(), limits.steps);
        return Err(told_at_full(faults, &mut ports, scripts, full));
    }
    if let Some(fault) = told(faults, &mut ports, scripts, false) {
        return Err(fault);
    }
    match second.compared(scripts, steps.as_slice(), receipts.as_slice()) {
        Ok(world) => Ok(Report {
            steps,
            receipts,
            world,
        }),
        Err(mismatch) => Err(mismatched(mismatch)),
    }
}

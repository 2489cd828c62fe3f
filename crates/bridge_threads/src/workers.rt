//! The workers of a run, each in a thread: it asks the gate, locks, makes a turn and lets go.
use crate::Shared;
use crate::clients::{ClientWork, client_turn};
use crate::gates::{Gate, Who};
use crate::turns::{Turn, WorkerFault, memory_turn, paced};
use std::sync::{Mutex, MutexGuard, Wait};
use std::thread;
use std::thread::{JoinHandle, Scope, Threads};
use thread_reports::Receipts;
use tl_messages::{ABeat, ReplyBox};

/// How often a worker asks for the lock, and lets others work in between, before it waits for it asleep.
const ASKINGS: u32 = 64;

/// Gets the lock. A hold is much shorter than a sleep and the waking from it, so that a worker sleeps only where it asked in vain for
/// long.
fn hold<'a, R: Wait>(rt: &R, lock: &'a Mutex<Shared>) -> MutexGuard<'a, Shared> {
    for _ in 0..ASKINGS {
        if let Some(held) = lock.try_lock() {
            return held;
        }
        thread::yield_now();
    }
    lock.lock(rt)
}

/// What all workers of a run go by.
#[derive(Drop)]
pub(crate) struct Site<'e, R, G> {
    pub(crate) rt: &'e R,
    pub(crate) lock: &'e Mutex<Shared>,
    pub(crate) gate: &'e G,
    pub(crate) scripts: &'e [Vec<ABeat>],
    pub(crate) words: &'e [Vec<u64>],
    /// How many idle turns in a row end a worker.
    pub(crate) idle: u32,
}

/// A client with its box, before its thread starts.
#[derive(Drop)]
pub(crate) struct Seat {
    pub(crate) work: ClientWork,
    pub(crate) reply: ReplyBox,
}

/// What a client hands back.
#[derive(Drop)]
pub(crate) struct ClientOutcome {
    fault: Option<WorkerFault>,
    receipts: Receipts,
}

/// Item `k` of some lists; an empty one where there are not so many.
fn list_at<T>(lists: &[Vec<T>], k: u8) -> &[T] {
    let k = usize::from(k);
    if k < lists.len() {
        lists[k].as_slice()
    } else {
        &[]
    }
}

/// One client's thread.
fn client<R: Wait, G: Gate>(site: &Site<R, G>, seat: Seat) -> ClientOutcome {
    let Seat {
        mut work,
        mut reply,
    } = seat;
    let script = list_at(site.scripts, work.number);
    let who = Who::Client(work.number);
    let mut fault = None;
    let mut index = 0u32;
    let mut left = site.idle;
    for _ in site.rt.forever() {
        let turn = if site.gate.pass(who, index) {
            let mut held = hold(site.rt, site.lock);
            client_turn(&mut work, &mut held, script, &mut reply)
        } else {
            Turn::Failed(WorkerFault::GateShut)
        };
        index = index.saturating_add(1);
        match paced(turn, &mut left, site.idle) {
            Turn::Moved => {}
            // Others get the lock, which may have what this worker waits for.
            Turn::Idle => thread::yield_now(),
            Turn::Ended => break,
            Turn::Failed(failed) => {
                site.lock.lock(site.rt).stop();
                fault = Some(failed);
                break;
            }
        }
    }
    let ClientWork { receipts, .. } = work;
    ClientOutcome { fault, receipts }
}

/// A memory thread, which goes by its own list of words.
fn memory<R: Wait, G: Gate>(site: &Site<R, G>, number: u8, reply: ReplyBox) -> Option<WorkerFault> {
    let mut reply = reply;
    let words = list_at(site.words, number);
    let mut place = 0usize;
    let mut index = 0u32;
    let mut left = site.idle;
    for _ in site.rt.forever() {
        let turn = if site.gate.pass(Who::Memory(number), index) {
            let mut held = hold(site.rt, site.lock);
            memory_turn(&mut held, words, &mut place, &mut reply)
        } else {
            Turn::Failed(WorkerFault::GateShut)
        };
        index = index.saturating_add(1);
        match paced(turn, &mut left, site.idle) {
            Turn::Moved => {}
            // Others get the lock, which may have what this worker waits for.
            Turn::Idle => thread::yield_now(),
            Turn::Ended => break,
            Turn::Failed(failed) => {
                site.lock.lock(site.rt).stop();
                return Some(failed);
            }
        }
    }
    None
}

/// What the threads of a run take with them, and the lists of what they hand back.
#[derive(Drop)]
pub(crate) struct Crew {
    pub(crate) seats: Vec<Seat>,
    pub(crate) boxes: Vec<ReplyBox>,
    pub(crate) clients: Vec<JoinHandle<ClientOutcome>>,
    pub(crate) memories: Vec<JoinHandle<Option<WorkerFault>>>,
    pub(crate) faults: Vec<Option<WorkerFault>>,
    pub(crate) receipts: Vec<Receipts>,
}

/// What came of all threads: whether one was refused, the fault of each worker, clients by number before memory threads, and
/// what each client received.
#[derive(Drop)]
pub(crate) struct Joined {
    pub(crate) refused: bool,
    pub(crate) faults: Vec<Option<WorkerFault>>,
    pub(crate) receipts: Vec<Receipts>,
}

/// Starts a thread for each client. Whether one was refused.
fn start_clients<'s, 'e, R: Wait + Sync, G: Gate + Sync>(
    scope: &'s Scope<'s, &'e ()>,
    site: &'e Site<'e, R, G>,
    seats: Vec<Seat>,
    clients: &mut Vec<JoinHandle<ClientOutcome>>,
) -> bool {
    let mut refused = false;
    for seat in seats {
        match scope.spawn(move || client(site, seat)) {
            Ok(handle) => {
                let _ = clients.push(handle);
            }
            Err(_) => refused = true,
        }
    }
    refused
}

/// Starts a thread for each list of words. Whether one was refused.
fn start_memories<'s, 'e, R: Wait + Sync, G: Gate + Sync>(
    scope: &'s Scope<'s, &'e ()>,
    site: &'e Site<'e, R, G>,
    boxes: Vec<ReplyBox>,
    memories: &mut Vec<JoinHandle<Option<WorkerFault>>>,
) -> bool {
    let mut refused = false;
    let mut number = 0u8;
    for reply in boxes {
        let mine = number;
        match scope.spawn(move || memory(site, mine, reply)) {
            Ok(handle) => {
                let _ = memories.push(handle);
            }
            Err(_) => refused = true,
        }
        number = number.saturating_add(1);
    }
    refused
}

/// Waits for the clients, and keeps what they hand back.
fn join_clients<R: Threads + Wait>(
    rt: &R,
    clients: Vec<JoinHandle<ClientOutcome>>,
    joined: &mut Joined,
) {
    for handle in clients {
        let ClientOutcome { fault, receipts } = handle.join(rt);
        let _ = joined.faults.push(fault);
        let _ = joined.receipts.push(receipts);
    }
}

/// Waits for the memory threads, and keeps what they hand back.
fn join_memories<R: Threads + Wait>(
    rt: &R,
    memories: Vec<JoinHandle<Option<WorkerFault>>>,
    joined: &mut Joined,
) {
    for handle in memories {
        let _ = joined.faults.push(handle.join(rt));
    }
}

/// Starts a thread for each client and for each list of words, and joins them all. Where one is refused, all are told to stop.
pub(crate) fn run_crew<'e, R: Threads + Wait + Sync, G: Gate + Sync>(
    site: &'e Site<'e, R, G>,
    crew: Crew,
) -> Joined {
    let Crew {
        seats,
        boxes,
        mut clients,
        mut memories,
        faults,
        receipts,
    } = crew;
    thread::scope(thread::scope_env(), site.rt, |scope| {
        let some_client = start_clients(scope, site, seats, &mut clients);
        let some_memory = start_memories(scope, site, boxes, &mut memories);
        let refused = some_client || some_memory;
        if refused {
            site.lock.lock(site.rt).stop();
        }
        let mut joined = Joined {
            refused,
            faults,
            receipts,
        };
        join_clients(site.rt, clients, &mut joined);
        join_memories(site.rt, memories, &mut joined);
        joined
    })
}

//! Gates.
use bridge_threads::{Gate, Who};
use std::sync::atomic::{AtomicBool, AtomicU64, Ordering};

/// Lets everyone pass.
pub(crate) struct Open;

impl Gate for Open {
    fn pass(&self, _who: Who, _index: u32) -> bool {
        true
    }
}

/// Answers false to a worker's first turn.
#[derive(Drop)]
pub(crate) struct Shut(pub(crate) Who);

impl Gate for Shut {
    fn pass(&self, who: Who, _index: u32) -> bool {
        who != self.0
    }
}

/// At each index below 4, two clients and some memory threads wait for one another.
#[derive(Drop)]
pub(crate) struct Meeting {
    /// A bit for each worker that meets: two clients, then the memory threads.
    all: u64,
    /// A flag for each worker, as such a bit, at each index.
    seen: [AtomicU64; 4],
    /// How many answers were false.
    shut: AtomicU64,
}

impl Meeting {
    /// Before anyone came.
    pub(crate) fn new(all: u64) -> Meeting {
        Meeting {
            all,
            seen: [
                AtomicU64::new(0),
                AtomicU64::new(0),
                AtomicU64::new(0),
                AtomicU64::new(0),
            ],
            shut: AtomicU64::new(0),
        }
    }

    /// At how many indexes all flags are set, and no other.
    pub(crate) fn met(&self) -> usize {
        let mut met = 0usize;
        for flags in &self.seen {
            if flags.load(Ordering::SeqCst) == self.all {
                met = met.saturating_add(1);
            }
        }
        met
    }

    /// How many answers were false.
    pub(crate) fn shut(&self) -> u64 {
        self.shut.load(Ordering::SeqCst)
    }
}

impl Gate for Meeting {
    fn pass(&self, who: Who, index: u32) -> bool {
        if index >= 4 {
            return true;
        }
        let worker = match who {
            Who::Client(client) => u32::from(client),
            Who::Memory(memory) => 2 + u32::from(memory),
        };
        let flags = &self.seen[index as usize];
        let mine = 1u64.wrapping_shl(worker);
        // A look writes the flag again, which is slow enough for others to get on where processors are few.
        for _ in 0..100_000_000u32 {
            if (flags.fetch_or(mine, Ordering::SeqCst) | mine) & self.all == self.all {
                return true;
            }
        }
        self.shut.fetch_add(1, Ordering::SeqCst);
        false
    }
}

/// Holds memory thread 0 before its first turn until client 0 has asked for its eleventh, and some time more; then
/// answers false.
#[derive(Drop)]
pub(crate) struct Holding {
    asked: AtomicBool,
    /// How often memory thread 0 looked.
    looks: AtomicU64,
}

impl Holding {
    pub(crate) fn new() -> Holding {
        Holding {
            asked: AtomicBool::new(false),
            looks: AtomicU64::new(0),
        }
    }

    /// Whether client 0 has asked. The look is counted, which is slow enough for the client to get on.
    fn look(&self) -> bool {
        self.looks.fetch_add(1, Ordering::SeqCst);
        self.asked.load(Ordering::SeqCst)
    }
}

impl Gate for Holding {
    fn pass(&self, who: Who, index: u32) -> bool {
        if who == Who::Client(0) && index == 10 {
            self.asked.store(true, Ordering::SeqCst);
        }
        if who != Who::Memory(0) || index != 0 {
            return true;
        }
        for _ in 0..1_000_000_000u32 {
            if self.look() {
                break;
            }
        }
        let mut seen = true;
        for _ in 0..100_000_000u32 {
            seen = self.look();
        }
        !seen
    }
}

/// Holds memory thread 1 before its first turn until client 0 asks for its second, and memory thread 0 until memory thread 1
/// asks for its second.
#[derive(Drop)]
pub(crate) struct SecondFirst {
    offered: AtomicBool,
    made: AtomicBool,
    looks: AtomicU64,
}

impl SecondFirst {
    pub(crate) fn new() -> SecondFirst {
        SecondFirst {
            offered: AtomicBool::new(false),
            made: AtomicBool::new(false),
            looks: AtomicU64::new(0),
        }
    }

    fn look(&self, flag: &AtomicBool) -> bool {
        self.looks.fetch_add(1, Ordering::SeqCst);
        flag.load(Ordering::SeqCst)
    }

    fn wait(&self, flag: &AtomicBool) {
        for _ in 0..1_000_000_000u32 {
            if self.look(flag) {
                return;
            }
        }
    }
}

impl Gate for SecondFirst {
    fn pass(&self, who: Who, index: u32) -> bool {
        match (who, index) {
            (Who::Client(0), 1) => self.offered.store(true, Ordering::SeqCst),
            (Who::Memory(1), 0) => self.wait(&self.offered),
            (Who::Memory(1), 1) => self.made.store(true, Ordering::SeqCst),
            (Who::Memory(0), 0) => self.wait(&self.made),
            _ => {}
        }
        true
    }
}

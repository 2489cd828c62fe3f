//! What a caller has in hand of the workers of a run: before each turn its gate is asked.

/// A worker.
#[derive(Clone, Copy, Debug, PartialEq, Eq)]
pub enum Who {
    /// The thread of the client of this number.
    Client(u8),
    /// The memory thread of this number.
    Memory(u8),
}

/// Is asked before each turn of a worker, without the lock: by it a caller can hold workers up, or end a run.
pub trait Gate {
    /// Whether a worker may make its turn `index`, counted from 0; the count stays at the largest number.
    fn pass(&self, who: Who, index: u32) -> bool;
}

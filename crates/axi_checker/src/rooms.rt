//! The rooms in which a monitor keeps what is outstanding.
use crate::entries::Entries;
use crate::id_row::IdRow;
use crate::ids::Ids;
use crate::long_queue::LongQueue;
use crate::long_row::LongRow;
use crate::outstanding::{OpenRead, OpenWrite};
use crate::queue::Queue;

/// How a monitor keeps the outstanding bursts of each side, and their IDs.
pub trait Rooms {
    /// The writes.
    type Writes: Entries<OpenWrite>;
    /// The reads.
    type Reads: Entries<OpenRead>;
    /// The IDs of a side.
    type Ids: Ids;
}

/// Rooms for at most 64 bursts on each side. No beat costs more however many are outstanding.
pub struct SmallRooms;

impl Rooms for SmallRooms {
    type Writes = Queue<OpenWrite>;

    type Reads = Queue<OpenRead>;

    type Ids = IdRow;
}

/// Rooms for at most 4,096 bursts on each side. An answer costs a pass over those that are outstanding.
pub struct LargeRooms;

impl Rooms for LargeRooms {
    type Writes = LongQueue<OpenWrite>;

    type Reads = LongQueue<OpenRead>;

    type Ids = LongRow;
}

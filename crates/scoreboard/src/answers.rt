//! What a board answers that is asked of it; nothing changes.
ghost use Rattle.std.specs.Prelude.{◌≡◌, length, slice_get};
ghost use Rattle.axi_checker.specs.OpenBursts.{open_count};
ghost use Rattle.serial_memory.specs.SerialMemory.{byte_at};
ghost use Rattle.scoreboard.specs.Boards.{replies_open};
ghost use Rattle.scoreboard.specs.InsideBoards.{board_of};
ghost use Rattle.scoreboard.specs.Telling.{telling_of};
ghost use Rattle.scoreboard.specs.Unanswered.{messages_begun, reads_open, source_begun, sources_due, writes_open, writes_without_address};

use crate::all_clients::{begun_of, outstanding_of};
use crate::board::Scoreboard;
use crate::{ObservedBeat, Telling};

impl Scoreboard {
    /// How many accepted requests have a reply that isn't over.
    pub fn outstanding(&self) -> u16
        ensures { result ≡ replies_open (board_of self.now).clients }
    {
        outstanding_of(&self.clients)
    }

    /// How many bursts are outstanding on the AXI4 port.
    pub fn open_bursts(&self) -> usize
        ensures { result ≡ open_count self.now.axi.open_bursts }
    {
        self.axi.open_bursts()
    }

    /// How many clients there are.
    pub fn clients(&self) -> u8
        ensures { result ≡ length (board_of self.now).clients }
    {
        self.clients.len() as u8
    }

    /// The source of a client's accepted request whose reply isn't over, by its place; none behind the last.
    pub fn source_due(&self, client: u8, place: usize) -> Option<u8>
        ensures { result ≡ slice_get (sources_due (slice_get (board_of self.now).clients client)) place }
    {
        let found = self.clients.get(usize::from(client))?;
        found.source_at(place)
    }

    /// The ID of a write that is open on the AXI4 port, by its place, the oldest first; none behind the last.
    pub fn open_write(&self, place: usize) -> Option<u8>
        ensures { result ≡ slice_get (writes_open self.now.axi) place }
    {
        self.axi.open_write(place)
    }

    /// The ID of a read that is open on the AXI4 port, by its place, the oldest first; none behind the last.
    pub fn open_read(&self, place: usize) -> Option<u8>
        ensures { result ≡ slice_get (reads_open self.now.axi) place }
    {
        self.axi.open_read(place)
    }

    /// The source of the message that a client has begun and that isn't whole, if there is one.
    pub fn source_begun(&self, client: u8) -> Option<u8>
        ensures { result ≡ source_begun (slice_get (board_of self.now).clients client) }
    {
        let found = self.clients.get(usize::from(client))?;
        found.source_begun()
    }

    /// How many clients have begun a message that isn't whole.
    pub fn messages_begun(&self) -> u8
        ensures { result ≡ messages_begun (board_of self.now).clients }
    {
        begun_of(&self.clients)
    }

    /// How many writes have data on the AXI4 port and no address, so that the data are early: each write's data end with the beat that
    /// says that it is the last.
    pub fn writes_without_address(&self) -> usize
        ensures { result ≡ writes_without_address self.now.axi }
    {
        self.axi.writes_without_address()
    }

    /// The byte at an address of a good page, as the requests accepted so far leave it in order of acceptance; none outside
    /// these pages.
    pub fn byte(&self, address: u32) -> Option<u8>
        ensures { result ≡ byte_at (board_of self.now).memory address }
    {
        self.serial.byte(address)
    }

    /// How much a beat tells that may come next, and how much of that is compared. What was observed stays.
    #[inline(always)]
    pub fn telling(&self, seen: &ObservedBeat) -> Telling
        ensures { result ≡ telling_of self.now.policy (board_of self.now) seen.now }
    {
        let ObservedBeat::D(client, beat) = seen else {
            return Telling::nothing();
        };
        match self.clients.get(usize::from(*client)) {
            None => Telling::nothing(),
            Some(found) => found.telling(self.policy, beat.source),
        }
    }
}

//! The device.
ghost use Rattle.std.specs.Prelude.{◌≡◌, ◌+◌, ◌*◌, ◌<◌, ◌≤◌, ◌^◌, Bool, [], ◌∷◌, ◌++◌, length, filter, find, position, None, Some, IsNone, IsSome, IfSome, IfOk, IsOk, Ok, Err, MatchOption, MatchResult, is_some, option_map, slice_get};
ghost use Rattle.std.specs.Option.{option_copied};
ghost use Rattle.std.specs.Vec.{vec_capacity, vec_len};
ghost use Rattle.axi_beats.specs.Bursts.{IsLegal};
ghost use Rattle.axi_beats.specs.Transfers.{IsBusWidth};
ghost use Rattle.axi_checker.specs.OpenBursts.{nothing_open, open_after};
ghost use Rattle.axi_checker.specs.declared.AxiBeat.TheVariants.{B as OnB, R as OnR};
ghost use Rattle.axi_checker.specs.Rules.{axi_fault, beats_sent, id_of, open_after_all, open_with_burst, outstanding_beside};
ghost use Rattle.subordinate.specs.Bursts.{IsFirstWaiting, is_in};
ghost use Rattle.subordinate.specs.FreeMemory.{Pending, beat_after, beat_at, device_port, has_serial, is_read_of, is_write_of, memory_after, open_bursts_of, transfers_in};
ghost use Rattle.subordinate.specs.Inside.{after_closing, after_counting, after_performing, captured_at, memory_over};
ghost use Rattle.subordinate.specs.Laws.{IsSoundMemory, IsSoundPending};

use crate::beats::Beats;
use crate::bursts::{Bursts, MOST_OPEN};
use crate::open_burst::{OpenBurst, queue_of};
use crate::pages::Pages;
use crate::{BeatState, DeviceFault, PageKind, Performed, SendRefused, device_fault};
use axi_beats::{BBeat, BurstBox, RBeat};
use axi_checker::{AxiRule, PortLimits};
use std::alloc::{AllocError, Global};
use std::marker::Model;

/// How many IDs the device knows (this project's profile).
const IDS: u8 = 16;

/// How many open bursts of an ID it takes on each side (this project's profile).
const DEPTH: u8 = 4;

/// A memory at the end of an AXI4 port. It performs the beats of the bursts that it was sent in any order, and answers
/// them as AXI4's ordering allows (AXI4, A5). A box moves in with `send_box`, and out with `take_closed` when its burst is
/// answered. All room is taken by `new`; no other call takes memory.
///
/// A burst is found by its serial, first looked at where it stands as the serials rise by one, else in their order; the
/// oldest of an ID is found by the serials of that ID's.
pub struct Device {
    bus_bytes: u8,
    pages: Pages,
    /// The open bursts in the order sent.
    open: Bursts,
    /// The beats of bursts that closed, to be used again.
    spare: Vec<Beats>,
    closed: Vec<BurstBox>,
    sent: u64,
}

impl Model for Device {
    ghost use Rattle.std.specs.Prelude.{IsSome, length};
    ghost use Rattle.std.specs.List.{AllByRecursion};
    ghost use Rattle.std.specs.Vec.{vec_capacity, vec_len};
    ghost use Rattle.subordinate.specs.Device.{DeviceState};
    ghost use Rattle.subordinate.specs.Inside.{HasRoom, device_state, memory_of};
    ghost use Rattle.subordinate.specs.Laws.{IsSoundMemory};

    ghost Value = { DeviceState };

    ghost view = { λ d. device_state d.bus_bytes d.pages d.open d.sent d.closed.items };

    ghost invariant = { λ d. IsSoundMemory (memory_of d.bus_bytes d.pages d.open d.sent)
        × HasRoom (length d.open) (vec_len d.closed) (vec_len d.spare) (vec_capacity d.closed) (vec_capacity d.spare)
        × AllByRecursion IsSome d.closed.items };
}

// Written out, so that what lets go of one calls this, and proves nothing of its parts.
impl Drop for Device {
    fn drop(self) {
        let Device {
            bus_bytes: _,
            pages: _,
            open: _,
            spare: _,
            closed: _,
            sent: _,
        } = self;
    }
}

impl Device {
    ghost use Rattle.subordinate.specs.Device.{after_b, after_r, after_take, open_burst, opening_device};
    ghost use Rattle.subordinate.specs.Effects.{HasEffectAt};
    ghost use Rattle.subordinate.specs.Faults.{device_fault};
    ghost use Rattle.subordinate.specs.FreeMemory.{b_of, first_with_b, first_with_r, performed, performed_waiting, r_of, send_fault, waiting_beats, with_burst, work_open};
    ghost use Rattle.subordinate.specs.Order.{AnswersNextBeat, AnswersOldestWrite, OwesAfterOthers, OwesTheSame};
    ghost use Rattle.subordinate.specs.Pages.{byte_at_address};
    ghost use Rattle.subordinate.specs.declared.DeviceFault.TheVariants.{NoMemory};

    /// A memory of these pages, at most 64, and of these bad words in them, at most 64, on a bus of `bus_bytes` bytes, 4 or
    /// 8, with no burst sent.
    ///
    /// It refuses what `device_fault` does; else the one error is that memory was refused.
    pub fn new(
        alloc: Global,
        bus_bytes: u8,
        pages: &[(u32, PageKind)],
        bad: &[u32],
    ) -> Result<Self, DeviceFault>
        requires bus { IsBusWidth bus_bytes }
        requires pages { length pages.now ≤ 64 }
        requires bad { length bad.now ≤ 64 }

        ensures state { MatchOption (device_fault pages.now bad.now)
            (MatchResult result (λ device. device ≡ opening_device bus_bytes pages.now bad.now) (λ fault. fault ≡ NoMemory))
            (λ fault. result ≡ Err fault) }
        ensures laws { IfOk result (λ device. IsSoundMemory device.memory) }

        // A monitor of its port begins with nothing open.
        ensures monitor { IfOk result (λ device. open_bursts_of device.memory ≡ nothing_open) }
    {
        if let Some(fault) = device_fault(pages, bad) {
            return Err(fault);
        }
        match Device::opening(alloc, bus_bytes, pages, bad) {
            Ok(device) => Ok(device),
            Err(_) => Err(DeviceFault::NoMemory),
        }
    }

    fn opening(
        alloc: Global,
        bus_bytes: u8,
        pages: &[(u32, PageKind)],
        bad: &[u32],
    ) -> Result<Self, AllocError>
        requires bus { IsBusWidth bus_bytes }
        requires fine { device_fault pages.now bad.now ≡ None }
        requires pages { length pages.now ≤ 64 }
        requires bad { length bad.now ≤ 64 }
        ensures state { IfOk result (λ device. device ≡ opening_device bus_bytes pages.now bad.now) }
        ensures laws { IfOk result (λ device. IsSoundMemory device.memory) }
    {
        let pages = Pages::new(alloc, pages, bad)?;
        let open = Bursts::new(alloc)?;
        let spare = spare_beats(alloc)?;
        let closed = Vec::with_capacity(alloc, MOST_OPEN)?;
        Ok(Device {
            bus_bytes,
            pages,
            open,
            spare,
            closed,
            sent: 0,
        })
    }

    /// How many bursts were taken.
    pub fn sent(&self) -> u64
        ensures { result ≡ self.now.memory.sent }
    {
        self.sent
    }

    /// How many boxes of closed bursts wait to be taken back.
    pub fn closed(&self) -> u8
        ensures { result ≡ length self.now.closed }
    {
        self.closed.len() as u8
    }

    /// How many performed beats of open bursts wait for their R, or for their burst's B.
    pub fn performed_waiting(&self) -> u64
        ensures { result ≡ performed_waiting self.now.memory }
    {
        let mut count = 0;
        for burst in self.open.as_slice() {
            count += u64::from(burst.performed_waiting());
        }
        count
    }

    /// How many beats of open bursts aren't performed.
    pub fn pending(&self) -> u32
        ensures { result ≡ length (waiting_beats self.now.memory) }
    {
        self.open.waiting()
    }

    /// The work left in open bursts: unperformed beats, and answers to come.
    pub fn work_left(&self) -> u64
        ensures work { result ≡ work_open self.now.memory }
        ensures most { result ≤ 65536 }
    {
        self.open.work_left()
    }

    /// Serial and beat of a beat that isn't performed, counted among these from 0 by rising serial and beat.
    pub fn pending_at(&self, k: u32) -> (u64, u16)
        requires { k < length (waiting_beats self.now.memory) }
        ensures { slice_get (waiting_beats self.now.memory) k ≡ Some result }
    {
        self.open.waiting_at(k)
    }

    /// The byte at an address of a good page; none outside these.
    pub fn byte(&self, address: u32) -> Option<u8>
        ensures { result ≡ byte_at_address self.now.memory.memory address }
    {
        self.pages.byte(address)
    }

    /// The box of the open burst with this serial; none where no open burst has it.
    pub fn burst(&self, serial: u64) -> Option<&BurstBox>
        ensures { option_copied result ≡ option_map Some (open_burst self.now.memory serial) }
    {
        match self.place_of(serial) {
            Some(place) => Some(self.open_at(place).burst()),
            None => None,
        }
    }

    /// Gives back the box of a closed burst, the one that closed first; none where none waits.
    pub fn take_closed(&mut self) -> Option<BurstBox>
        ensures first { result ≡ option_map Some (slice_get self.old.closed 0) }
        ensures rest { self.new ≡ after_take self.old }
        ensures kept { IsNone result → self.new ≡ self.old }
        ensures laws { IsSoundMemory self.new.memory }
    {
        if self.closed.is_empty() {
            return None;
        }
        Some(self.closed.remove(0))
    }

    /// Takes a burst, which is open from here on, and answers its serial: 0, 1, 2, .. in the order sent. It refuses what
    /// a monitor of 16 IDs and depth 4 refuses that took all beats sent and answered so far (this project's profile), and
    /// hands the box back. No box of a closed burst waits to be taken back, and fewer than 2^60 bursts were sent.
    pub fn send_box(&mut self, burst: BurstBox) -> Result<u64, SendRefused>
        requires full { IsSome burst }
        requires serial { self.old.memory.sent < 2 ^ 60 }
        requires given { self.old.closed ≡ [] }

        ensures answer { IfSome burst (λ b. MatchResult result
            (λ serial. (send_fault self.old.memory b ≡ None) × (serial ≡ self.old.memory.sent)
            × (self.new ≡ record self.old { memory = with_burst self.old.memory b }))
            (λ refused. (send_fault self.old.memory b ≡ Some refused.rule) × (refused.burst ≡ burst) × (self.new ≡ self.old))) }

        // Its answers are owed after those of all bursts of its ID before it.
        ensures order { IsOk result → IfSome burst (λ b. OwesAfterOthers self.old.memory.sent b self.old.memory.pending self.new.memory.pending) }

        // The monitor that judges the next burst has this one open, which is the same as that it took the beats one by one.
        ensures monitor { IsOk result → IfSome burst (λ b. open_bursts_of self.new.memory ≡ open_with_burst (open_bursts_of self.old.memory) b) }
        ensures beats { IsOk result → IfSome burst (λ b. open_bursts_of self.new.memory ≡ open_after_all (open_bursts_of self.old.memory) (beats_sent b)) }
        ensures laws { IsSoundMemory self.new.memory }
    {
        if let Some(rule) = self.send_fault(&burst) {
            return Err(SendRefused { rule, burst });
        }
        let serial = self.sent;
        let beats = self.spare.pop().unwrap();
        self.open.push(OpenBurst::new(serial, burst, beats));
        self.sent = serial + 1;
        Ok(serial)
    }

    /// Performs a beat, from 0, of the open burst with this serial: a write beat sets its strobed bytes on good pages, a
    /// read beat captures its bytes and its response.
    pub fn perform(&mut self, serial: u64, beat: u16) -> Performed
        ensures answer { result ≡ (performed self.old.memory serial beat).1 }
        ensures state { self.new ≡ record self.old { memory = (performed self.old.memory serial beat).0 } }

        // By addresses: just the strobed bytes of good pages are set, or each byte is captured in its lane.
        ensures effect { result ≡ Performed.Done → HasEffectAt serial beat self.old.memory self.new.memory }

        // No answer is given, and the order of those to come stays.
        ensures order { OwesTheSame self.old.memory.pending self.new.memory.pending }

        // It is no beat of the port: the monitor knows what it knew.
        ensures monitor { open_bursts_of self.new.memory ≡ open_bursts_of self.old.memory }
        ensures laws { IsSoundMemory self.new.memory }
    {
        let Some(place) = self.place_of(serial) else {
            return Performed::NoSuch;
        };
        match self.open_at(place).beat_at(beat) {
            None => Performed::NoSuch,
            Some(BeatState::Waiting) => {
                self.perform_at(place, beat);
                Performed::Done
            }
            Some(_) => Performed::Already,
        }
    }

    /// Performs the first beat that isn't performed, by rising serial and beat, and answers whether there was one: what
    /// `perform` does with the beat that `pending_at(0)` tells, which isn't looked for twice.
    pub fn perform_first(&mut self) -> bool
        ensures answer { result ≡ is_some (slice_get (waiting_beats self.old.memory) 0) }
        ensures state { MatchOption (slice_get (waiting_beats self.old.memory) 0)
            (self.new ≡ self.old)
            (λ first. (self.new ≡ record self.old { memory = (performed self.old.memory first.0 first.1).0 })
            × ((performed self.old.memory first.0 first.1).1 ≡ Performed.Done)) }

        // By addresses: just the strobed bytes of good pages are set, or each byte is captured in its lane.
        ensures effect { IfSome (slice_get (waiting_beats self.old.memory) 0) (λ first. HasEffectAt first.0 first.1 self.old.memory self.new.memory) }

        // No answer is given, and the order of those to come stays.
        ensures order { OwesTheSame self.old.memory.pending self.new.memory.pending }

        // It is no beat of the port: the monitor knows what it knew.
        ensures monitor { open_bursts_of self.new.memory ≡ open_bursts_of self.old.memory }
        ensures laws { IsSoundMemory self.new.memory }
    {
        let Some((place, beat)) = self.place_waiting() else {
            return false;
        };
        self.perform_at(place, beat);
        true
    }

    /// The B of the oldest open write of an ID, once all its beats are performed; it closes the write.
    pub fn answer_b(&mut self, id: u8) -> Option<BBeat>
        ensures answer { result ≡ b_of self.old.memory id }
        ensures closed { IsSome result → self.new ≡ after_b self.old id }
        ensures kept { IsNone result → self.new ≡ self.old }

        // Write responses of one ID come in the order of its addresses.
        ensures order { IsSome result → AnswersOldestWrite id self.old.memory.pending self.new.memory.pending }

        // The monitor takes the B: it breaks no rule of a port of 16 IDs, and closes the same write.
        ensures takes { IfSome result (λ beat. axi_fault (device_port self.old.memory) (open_bursts_of self.old.memory) (OnB beat) ≡ None) }
        ensures monitor { IfSome result (λ beat. open_bursts_of self.new.memory ≡ open_after (open_bursts_of self.old.memory) (OnB beat)) }
        ensures laws { IsSoundMemory self.new.memory }
    {
        let place = self.oldest_write(id)?;
        if !self.open_at(place).all_performed() {
            return None;
        }
        let resp = self.pages.write_response(self.open_at(place).start());
        self.close(2 * usize::from(id), place);
        Some(BBeat { id, resp })
    }

    /// The next R beat of the oldest open read of an ID, once that beat is performed; the last one closes the read.
    pub fn answer_r(&mut self, id: u8) -> Option<RBeat>
        ensures answer { result ≡ r_of self.old.memory id }
        ensures closed { IsSome result → self.new ≡ after_r self.old id }
        ensures kept { IsNone result → self.new ≡ self.old }

        // Read data of one ID come in the order of its addresses, each as its beat captured it.
        ensures order { IfSome result (λ beat. AnswersNextBeat id beat self.old.memory.pending self.new.memory.pending) }

        // The monitor takes the R: it breaks no rule of a port of 16 IDs, and is counted at the same read.
        ensures takes { IfSome result (λ beat. axi_fault (device_port self.old.memory) (open_bursts_of self.old.memory) (OnR beat) ≡ None) }
        ensures monitor { IfSome result (λ beat. open_bursts_of self.new.memory ≡ open_after (open_bursts_of self.old.memory) (OnR beat)) }
        ensures laws { IsSoundMemory self.new.memory }
    {
        let place = self.oldest_read(id)?;
        let (payload, resp) = self.open_at(place).captured()?;
        let last = self.open_at(place).gives_last();
        if last {
            self.close(2 * usize::from(id) + 1, place);
        } else {
            self.count_answer(id, place);
        }
        Some(RBeat {
            id,
            payload,
            resp,
            last,
        })
    }

    /// Whether `answer_b` would give a B.
    pub fn can_b(&self, id: u8) -> bool
        ensures { result ≡ is_some (b_of self.now.memory id) }
    {
        id < IDS && self.open.can_b(id)
    }

    /// Whether `answer_r` would give an R.
    pub fn can_r(&self, id: u8) -> bool
        ensures { result ≡ is_some (r_of self.now.memory id) }
    {
        id < IDS && self.open.can_r(id)
    }

    /// The smallest ID for which `answer_b` would give a B.
    pub fn first_b(&self) -> Option<u8>
        ensures { result ≡ first_with_b self.now.memory }
    {
        self.open.first_b()
    }

    /// The smallest ID for which `answer_r` would give an R.
    pub fn first_r(&self) -> Option<u8>
        ensures { result ≡ first_with_r self.now.memory }
    {
        self.open.first_r()
    }

    /// The first rule that a burst would break, were it sent now.
    fn send_fault(&self, burst: &BurstBox) -> Option<AxiRule>
        requires { IsSome burst.now }
        ensures rule { IfSome burst.now (λ b. result ≡ send_fault self.now.memory b) }
        ensures legal { result ≡ None → IfSome burst.now (IsLegal self.now.memory.bus_bytes) }
        ensures room { result ≡ None → IfSome burst.now (λ b. (id_of b < 16) × (outstanding_beside (open_bursts_of self.now.memory) b < 4)) }
    {
        PortLimits::new(self.bus_bytes, IDS, DEPTH).burst_fault(
            burst,
            self.open.count(queue_of(burst)),
        )
    }

    /// The place of the open burst with this serial.
    fn place_of(&self, serial: u64) -> Option<usize>
        ensures place { result ≡ position (has_serial serial) self.now.memory.pending }
        ensures laws { IsSoundMemory self.now.memory }
    {
        self.open.place_of(serial)
    }

    /// The place of the oldest open write of an ID.
    fn oldest_write(&self, id: u8) -> Option<usize>
        ensures place { result ≡ position (is_write_of id) self.now.memory.pending }
        ensures laws { IsSoundMemory self.now.memory }
    {
        self.open.oldest(2 * usize::from(id))
    }

    /// The place of the oldest open read of an ID.
    fn oldest_read(&self, id: u8) -> Option<usize>
        ensures place { result ≡ position (is_read_of id) self.now.memory.pending }
        ensures laws { IsSoundMemory self.now.memory }
    {
        self.open.oldest(2 * usize::from(id) + 1)
    }

    /// The place of the burst of the first beat that isn't performed, and that beat.
    fn place_waiting(&self) -> Option<(usize, u16)>
        ensures first { MatchOption result (slice_get (waiting_beats self.now.memory) 0 ≡ None) (λ first. IsFirstWaiting self.now.memory.pending first.0 first.1) }
        ensures laws { IsSoundMemory self.now.memory }
    {
        self.open.place_waiting()
    }

    /// The open burst at a place.
    fn open_at(&self, place: usize) -> &OpenBurst
        requires { place < length self.now.memory.pending }
        ensures found { (test : Pending → Bool) → position test self.now.memory.pending ≡ Some place → find test self.now.memory.pending ≡ Some result.now }
        ensures here { slice_get self.now.memory.pending place ≡ Some result.now }
        ensures sound { IsSoundPending self.now.memory.bus_bytes result.now }
    {
        self.open.at(place)
    }

    /// Performs a beat of the open burst at a place, which is the first that passes any test whose first place it is.
    fn perform_at(&mut self, place: usize, beat: u16)
        requires here { place < length self.old.memory.pending }
        requires waits { IfSome (slice_get self.old.memory.pending place) (λ pending. slice_get pending.beats beat ≡ Some BeatState.Waiting) }
        ensures state { (test : Pending → Bool) → position test self.old.memory.pending ≡ Some place → self.new ≡ after_performing test beat self.old }
        ensures laws { IsSoundMemory self.new.memory }
    {
        let becomes = carried_out(
            &mut self.pages,
            self.bus_bytes,
            self.open.at(place).burst(),
            beat,
        );
        self.open.put(place, beat, becomes);
    }

    /// Counts an R beat of the oldest open read of an ID, by its place. Its next beat is performed.
    fn count_answer(&mut self, id: u8, place: usize)
        requires oldest { position (is_in (2 * id + 1)) self.old.memory.pending ≡ Some place }
        requires captured { IfSome (slice_get self.old.memory.pending place) (λ pending. IsSome (captured_at (beat_at pending pending.answered))) }
        ensures state { (test : Pending → Bool) → position test self.old.memory.pending ≡ Some place → self.new ≡ after_counting test self.old }
        ensures laws { IsSoundMemory self.new.memory }
    {
        self.open.count_answer(id, place);
    }

    /// Closes the oldest open burst of a queue, by its place: its box waits to be taken back.
    fn close(&mut self, queue: usize, place: usize)
        requires queue { queue < 32 }
        requires oldest { position (is_in queue) self.old.memory.pending ≡ Some place }
        ensures state { (test : Pending → Bool) → position test self.old.memory.pending ≡ Some place → self.new ≡ after_closing test self.old }
        ensures laws { IsSoundMemory self.new.memory }
    {
        let (burst, beats) = self.open.take_oldest(queue, place).into_parts();
        self.spare.push_reserved(beats);
        self.closed.push_reserved(burst);
    }
}

/// The beats of as many bursts as may be open.
fn spare_beats(alloc: Global) -> Result<Vec<Beats>, AllocError>
    ensures { IfOk result (λ spare. (vec_len spare ≡ 128) × (128 ≤ vec_capacity spare)) }
{
    let mut spare = Vec::with_capacity(alloc, MOST_OPEN)?;
    for _ in 0..MOST_OPEN {
        spare.push_reserved(Beats::new(alloc)?);
    }
    Ok(spare)
}

/// Performs a beat of a legal burst, and answers what became of it.
fn carried_out(pages: &mut Pages, bus_bytes: u8, burst: &BurstBox, beat: u16) -> BeatState
    requires bus { IsBusWidth bus_bytes }
    requires full { IsSome burst.now }
    requires legal { IfSome burst.now (IsLegal bus_bytes) }
    requires beat { IfSome burst.now (λ b. beat < transfers_in b) }
    ensures beat { IfSome burst.now (λ b. result ≡ beat_after (memory_over bus_bytes pages.old) b beat) }
    ensures bytes { IfSome burst.now (λ b. pages.new ≡ record pages.old { memory = memory_after (memory_over bus_bytes pages.old) b beat }) }
{
    if burst.is_write() {
        pages.write(bus_bytes, burst.aw(), beat + 1, burst.w(beat));
        return BeatState::Written;
    }
    let (payload, resp) = pages.read(bus_bytes, burst.ar(), beat + 1);
    BeatState::Captured(payload, resp)
}

//! The table as its definitions have it: a list of requests, and walks over all of them.
use burst_plan::{Piece, Plan};
use std::alloc::{AllocError, Global};
use tl_messages::ABeat;

/// What the bridge does with a request between its first burst and its reply.
#[derive(Clone, Copy)]
pub(super) enum Call {
    /// One of its bursts is answered.
    Answer,
    PlanWrite,
    Finish,
}

/// A live request.
#[derive(Clone, Copy)]
pub(super) struct PlainRequest {
    pub(super) number: u64,
    pub(super) client: u8,
    source: u8,
    opcode: u8,
    pub(super) plan: Option<Plan>,
    pub(super) id: Option<u8>,
    pub(super) writing: bool,
    sent: u16,
    answered: u16,
    done: bool,
}

impl PlainRequest {
    /// The request of a first beat. Gets and atomics read, Puts write, and an Intent has no plan.
    fn new(number: u64, client: u8, beat: &ABeat, plan: Option<Plan>) -> PlainRequest {
        let plan = if beat.opcode == 5 { None } else { plan };
        PlainRequest {
            number,
            client,
            source: beat.source,
            opcode: beat.opcode,
            plan,
            id: None,
            writing: beat.opcode < 2,
            sent: 0,
            answered: 0,
            done: plan.is_none(),
        }
    }

    fn is_get(&self) -> bool {
        self.opcode == 4
    }

    fn is_atomic(&self) -> bool {
        matches!(self.opcode, 2 | 3)
    }

    /// How many bursts it reads, or writes, in.
    fn bursts(&self) -> u16 {
        match self.plan {
            Some(plan) => plan.bursts(),
            None => 0,
        }
    }

    /// The piece of its next burst.
    pub(super) fn next(&self) -> Option<Piece> {
        let plan = self.plan?;
        if self.sent >= plan.bursts() {
            return None;
        }
        Some(plan.burst(self.sent))
    }

    /// Whether nothing that is planned is unsent or unanswered.
    pub(super) fn is_settled(&self) -> bool {
        self.answered >= self.bursts()
    }

    /// Whether it is an atomic that has read, and whose write is to be planned.
    pub(super) fn awaits_write(&self) -> bool {
        self.is_atomic() && !self.done && !self.writing && self.is_settled()
    }

    /// Whether a call can be made for it.
    pub(super) fn takes(&self, call: Call) -> bool {
        match call {
            Call::Answer => self.answered < self.sent,
            Call::PlanWrite => self.awaits_write(),
            Call::Finish => !self.done && self.is_settled(),
        }
    }

    /// The work of so many bursts that are sent: to perform the beats of each, and the answers to come.
    fn work_of(&self, count: u16, writing: bool) -> u64 {
        let beats = match self.plan {
            Some(plan) => u64::from(plan.beats() / plan.bursts()),
            None => 0,
        };
        let each = if writing {
            beats.saturating_add(1)
        } else {
            beats.saturating_mul(2)
        };
        each.saturating_mul(u64::from(count))
    }

    /// The work of the bursts that aren't sent: to send each too. The write of an atomic counts from the start.
    fn unsent_work(&self) -> u64 {
        let to_send = self.bursts().saturating_sub(self.sent);
        let mut work = self
            .work_of(to_send, self.writing)
            .saturating_add(u64::from(to_send));
        if self.is_atomic() && !self.writing {
            work = work
                .saturating_add(self.work_of(self.bursts(), true))
                .saturating_add(u64::from(self.bursts()));
        }
        work
    }

    /// The work of all bursts, as though no beat of an unanswered one was performed or answered.
    fn work(&self) -> u64 {
        let open = self.sent.saturating_sub(self.answered);
        self.unsent_work()
            .saturating_add(self.work_of(open, self.writing))
    }

    /// The AXI addresses of its range, the first and the one behind the last.
    fn range(&self) -> Option<(u64, u64)> {
        let plan = self.plan?;
        let first = u64::from(plan.address());
        Some((first, first.saturating_add(1u64 << plan.size())))
    }

    /// Whether two requests share a byte, and not both are Gets.
    fn conflicts(&self, other: &PlainRequest) -> bool {
        let (Some(a), Some(b)) = (self.range(), other.range()) else {
            return false;
        };
        a.0 < b.1 && b.0 < a.1 && !(self.is_get() && other.is_get())
    }

    /// Whether it is held back by an earlier request.
    fn waits_for(&self, earlier: &PlainRequest) -> bool {
        earlier.number < self.number && !earlier.done && self.conflicts(earlier)
    }
}

/// The table.
#[derive(Drop)]
pub(super) struct PlainTable {
    quota: usize,
    ids: u8,
    depth: u16,
    pub(super) accepted: u64,
    pub(super) live: Vec<PlainRequest>,
}

impl PlainTable {
    pub(super) fn new(alloc: Global, quota: u8, ids: u8, depth: u8) -> PlainTable {
        PlainTable {
            quota: usize::from(quota),
            ids,
            depth: u16::from(depth),
            accepted: 0,
            live: Vec::new(alloc),
        }
    }

    pub(super) fn has_room(&self, client: u8) -> bool {
        let mut count = 0usize;
        for own in self.live.as_slice() {
            if own.client == client {
                count = count.saturating_add(1);
            }
        }
        count < self.quota
    }

    pub(super) fn is_busy(&self, client: u8, source: u8) -> bool {
        for own in self.live.as_slice() {
            if (own.client, own.source) == (client, source) {
                return true;
            }
        }
        false
    }

    pub(super) fn accept(
        &mut self,
        client: u8,
        beat: &ABeat,
        plan: Option<Plan>,
    ) -> Result<u64, AllocError> {
        let number = self.accepted;
        self.live
            .push(PlainRequest::new(number, client, beat, plan))?;
        self.accepted = number.saturating_add(1);
        Ok(number)
    }

    /// How many earlier requests hold back one.
    pub(super) fn held_by(&self, request: &PlainRequest) -> usize {
        let mut count = 0usize;
        for earlier in self.live.as_slice() {
            if request.waits_for(earlier) {
                count = count.saturating_add(1);
            }
        }
        count
    }

    pub(super) fn of_id(&self, id: u8) -> Option<u64> {
        for own in self.live.as_slice() {
            if own.id == Some(id) {
                return Some(own.number);
            }
        }
        None
    }

    /// The ID of a request's next burst.
    fn id_for(&self, request: &PlainRequest) -> Option<u8> {
        if request.id.is_some() {
            return request.id;
        }
        for id in 0..self.ids {
            if self.of_id(id).is_none() {
                return Some(id);
            }
        }
        None
    }

    fn is_ready(&self, request: &PlainRequest) -> bool {
        !request.done
            && request.next().is_some()
            && request.sent.saturating_sub(request.answered) < self.depth
            && self.held_by(request) == 0
            && self.id_for(request).is_some()
    }

    /// The ready request of the smallest number; numbers rise.
    pub(super) fn next_ready(&self) -> Option<PlainRequest> {
        for request in self.live.as_slice() {
            if self.is_ready(request) {
                return Some(*request);
            }
        }
        None
    }

    /// How many a call can be made for.
    pub(super) fn count_for(&self, call: Call) -> u64 {
        let mut count = 0u64;
        for own in self.live.as_slice() {
            if own.takes(call) {
                count = count.saturating_add(1);
            }
        }
        count
    }

    /// Of these the one that has so many before it.
    pub(super) fn one_for(&self, call: Call, before: u64) -> Option<PlainRequest> {
        let mut left = before;
        for own in self.live.as_slice() {
            if own.takes(call) {
                if left == 0 {
                    return Some(*own);
                }
                left = left.saturating_sub(1);
            }
        }
        None
    }

    fn place_of(&self, number: u64) -> Option<usize> {
        let mut place = 0usize;
        for own in self.live.as_slice() {
            if own.number == number {
                return Some(place);
            }
            place = place.saturating_add(1);
        }
        None
    }

    /// Sends the next burst of a request, and answers its ID.
    pub(super) fn send(&mut self, request: &PlainRequest) -> Option<u8> {
        let id = self.id_for(request)?;
        let place = self.place_of(request.number)?;
        let sending = self.live.get_mut(place)?;
        sending.id = Some(id);
        sending.sent = sending.sent.saturating_add(1);
        Some(id)
    }

    /// A call for a live request.
    pub(super) fn make(&mut self, number: u64, call: Call) -> Option<()> {
        let place = self.place_of(number)?;
        let request = self.live.get_mut(place)?;
        match call {
            Call::Answer => request.answered = request.answered.saturating_add(1),
            Call::PlanWrite => {
                request.writing = true;
                request.sent = 0;
                request.answered = 0;
            }
            Call::Finish => {
                request.done = true;
                request.id = None;
            }
        }
        Some(())
    }

    pub(super) fn release(&mut self, number: u64) -> Option<()> {
        let place = self.place_of(number)?;
        if place < self.live.len() {
            self.live.remove(place);
        }
        Some(())
    }

    pub(super) fn oldest_done(&self, client: u8) -> Option<u64> {
        for own in self.live.as_slice() {
            if own.done && own.client == client {
                return Some(own.number);
            }
        }
        None
    }

    /// How many aren't done, their work, and that of their unsent bursts.
    pub(super) fn sums(&self) -> (u64, u64, u64) {
        let mut sums = (0u64, 0u64, 0u64);
        for request in self.live.as_slice() {
            if request.done {
                continue;
            }
            sums.0 = sums.0.saturating_add(1);
            sums.1 = sums.1.saturating_add(request.work());
            sums.2 = sums.2.saturating_add(request.unsent_work());
        }
        sums
    }
}

//! One live request.
ghost use Rattle.std.specs.Prelude.{◌≡◌, ◌&&◌, ◌+◌, ◌-◌, ◌*◌, ◌<◌, ◌≤◌, IfSome, Some, is_some, length, slice_get};
ghost use Rattle.flight_table.specs.LiveRequests.{awaits_write, flight_for, reads_then_writes, is_settled, next_piece, pieces_planned, plan_for, planned, read_pieces, unanswered, write_pieces};
ghost use Rattle.flight_table.specs.Inside.{is_open};
ghost use Rattle.std.specs.List.{AllByRecursion};
ghost use Rattle.burst_plan.specs.Pieces.{IsPlannable, range_end};
ghost use Rattle.flight_table.specs.Rows.{open_page, page_of};
ghost use Rattle.flight_table.specs.Spans.{span_of};
ghost use Rattle.flight_table.specs.Progress.{IsWorth, MayStep, stepped};
ghost use Rattle.flight_table.specs.Work.{AreWorth, later_work, unsent_work, work_of};

use crate::spans::Span;
use crate::sums::{Sums, Works};
use burst_plan::{Piece, Plan};
use std::marker::Model;
use tl_messages::{Operation, Request};

/// What becomes of a live request.
#[derive(Clone, Copy)]
pub(crate) enum Step {
    /// One more burst is sent, under an ID that the request keeps.
    Sent(u8),
    /// One more burst is answered.
    Answered,
    /// The write of an atomic is planned: the request writes from here on.
    Writes,
    /// The request is done, and its ID free again.
    Done,
}

/// A live request: whose it is, what it sends, and how far it has come. It reads, as a Get and at first an atomic do, or
/// writes, as a Put and then an atomic do; so many bursts of this phase were sent and answered; or it is done.
#[derive(Clone, Copy)]
pub(crate) struct LiveRequest {
    pub(crate) number: u64,
    pub(crate) client: u8,
    pub(crate) source: u8,
    pub(crate) operation: Operation,
    pub(crate) plan: Option<Plan>,
    pub(crate) id: Option<u8>,
    pub(crate) writing: bool,
    pub(crate) sent: u32,
    pub(crate) answered: u32,
    pub(crate) done: bool,
}

impl Model for LiveRequest {
    ghost use Rattle.flight_table.specs.LiveRequests.{LiveRequest};

    ghost Value = { LiveRequest };

    ghost view = { λ r. record {
      number = r.number;
      client = r.client;
      source = r.source;
      operation = r.operation;
      plan = r.plan;
      id = r.id;
      writing = r.writing;
      sent = r.sent;
      answered = r.answered;
      done = r.done;
    } };

    ghost inverse = { λ r. record {
      number = r.number;
      client = r.client;
      source = r.source;
      operation = r.operation;
      plan = r.plan;
      id = r.id;
      writing = r.writing;
      sent = r.sent;
      answered = r.answered;
      done = r.done;
    } };
}

/// The address after the last byte of a range.
fn range_end(plan: &Plan) -> u64
    ensures { result ≡ range_end plan.now }
{
    u64::from(plan.address()) + (1u64 << plan.size())
}

/// The plan that a request of this operation has: an Intent sends nothing.
fn plan_for(operation: Operation, plan: Option<Plan>) -> Option<Plan>
    ensures { result ≡ plan_for operation plan }
{
    match operation {
        Operation::Intent(_) => None,
        _ => plan,
    }
}

impl LiveRequest {
    /// A request as it is accepted. An Intent sends nothing, so it has no plan; without a plan a request is done at once.
    pub(crate) fn accepted(number: u64, client: u8, request: &Request, plan: Option<Plan>) -> Self
        ensures { result ≡ flight_for number client request.now plan }
    {
        let operation = request.operation();
        let plan = plan_for(operation, plan);
        LiveRequest {
            number,
            client,
            source: request.source(),
            operation,
            plan,
            id: None,
            writing: !operation.reply_has_data(),
            sent: 0,
            answered: 0,
            done: plan.is_none(),
        }
    }

    /// The AXI page in which its range lies; none where it sends nothing.
    pub(crate) fn page(&self) -> Option<u32>
        ensures page { result ≡ page_of self.now.plan }
        ensures range { IfSome self.now.plan IsPlannable }
    {
        match &self.plan {
            Some(plan) => {
                prove!(plan.bus_bytes() <= 8);
                Some(plan.address() / 4096)
            }
            None => None,
        }
    }

    /// The same of a request that isn't done.
    pub(crate) fn open_page(&self) -> Option<u32>
        ensures { result ≡ open_page self.now }
    {
        if self.done { None } else { self.page() }
    }

    /// How many pieces the plan has.
    fn pieces(&self) -> u32
        ensures count { result ≡ length (pieces_planned self.now.plan) }
        ensures bound { result < 65536 }
    {
        match &self.plan {
            Some(plan) => u32::from(plan.bursts()),
            None => 0,
        }
    }

    /// How many bursts it reads with.
    fn reads(&self) -> u32
        ensures count { result ≡ length (read_pieces self.now) }
        ensures bound { result < 65536 }
    {
        if self.operation.reply_has_data() {
            self.pieces()
        } else {
            0
        }
    }

    /// How many bursts it writes with, now or later.
    fn writes(&self) -> u32
        ensures count { result ≡ length (write_pieces self.now) }
        ensures bound { result < 65536 }
    {
        if self.operation.has_data() {
            self.pieces()
        } else {
            0
        }
    }

    /// Whether the request reads and then writes.
    pub(crate) fn reads_then_writes(&self) -> bool
        ensures { result ≡ reads_then_writes self.now }
    {
        self.operation.reply_has_data() && self.operation.has_data()
    }

    /// How many bursts its phase has.
    pub(crate) fn planned(&self) -> u32
        ensures count { result ≡ length (planned self.now) }
        ensures bound { result < 65536 }
    {
        if self.writing {
            self.writes()
        } else {
            self.reads()
        }
    }

    /// Whether a burst is planned and unsent.
    pub(crate) fn has_next(&self) -> bool
        ensures { result ≡ is_some (next_piece self.now) }
    {
        self.sent < self.planned()
    }

    /// Whether nothing that is planned is unsent or unanswered.
    pub(crate) fn is_settled(&self) -> bool
        ensures { result ≡ is_settled self.now }
    {
        self.planned() <= self.answered
    }

    /// Whether an atomic's read was answered and its write isn't planned, and it isn't done.
    pub(crate) fn awaits_write(&self) -> bool
        ensures { result ≡ awaits_write self.now }
    {
        self.reads_then_writes() && !self.done && !self.writing && self.is_settled()
    }

    /// Piece `place` of the plan, from 0.
    fn piece(&self, place: u16) -> Piece
        requires { place < length (pieces_planned self.now.plan) }
        ensures piece { slice_get (pieces_planned self.now.plan) place ≡ Some result }

        // All pieces have as many transfers.
        ensures alike { AllByRecursion (λ piece. piece.len + 1 ≡ result.len + 1) (pieces_planned self.now.plan) }
    {
        match &self.plan {
            Some(plan) => plan.burst(place),
            None => unreachable!(),
        }
    }

    /// The piece of the next burst, if one is planned and unsent.
    pub(crate) fn next(&self) -> Option<Piece>
        ensures { result ≡ next_piece self.now }
    {
        if self.sent >= self.planned() {
            return None;
        }
        Some(self.piece(self.sent as u16))
    }

    /// Takes a step. It is inline, so that of the steps only the one that a call takes is there.
    #[inline(always)]
    pub(crate) fn take(&mut self, step: Step)
        requires { MayStep step self.old }
        ensures { self.new ≡ stepped step self.old }
    {
        match step {
            Step::Sent(id) => {
                prove!(self.sent < self.planned());
                self.id = Some(id);
                self.sent += 1;
            }
            Step::Answered => self.answered += 1,
            Step::Writes => {
                self.writing = true;
                self.sent = 0;
                self.answered = 0;
            }
            Step::Done => {
                self.id = None;
                self.done = true;
            }
        }
    }

    /// How many bursts are sent and unanswered.
    pub(crate) fn unanswered(&self) -> u32
        ensures { result ≡ unanswered self.now }
    {
        self.sent.saturating_sub(self.answered)
    }

    /// Whether a burst is open: planned, unsent and within the depth.
    pub(crate) fn is_open(&self, depth: u8) -> bool
        ensures { result ≡ is_open depth self.now }
    {
        !self.done && self.unanswered() < u32::from(depth) && self.has_next()
    }

    /// Whether a burst is open, as `able` says, and the request holds an ID.
    pub(crate) fn is_named(&self, able: bool) -> bool
        ensures { result ≡ (able && is_some self.now.id) }
    {
        able && self.id.is_some()
    }

    /// What of it tells whom it holds back.
    pub(crate) fn span(&self) -> Span
        ensures { result ≡ span_of self.now }
    {
        let (start, end) = match &self.plan {
            Some(plan) => (u64::from(plan.address()), range_end(plan)),
            None => (0, 0),
        };
        Span {
            start,
            end,
            get: matches!(self.operation, Operation::Get),
        }
    }

    /// How many transfers each piece has.
    fn piece_beats(&self) -> u64
        ensures count { AllByRecursion (λ piece. piece.len + 1 ≡ result) (pieces_planned self.now.plan) }
        ensures bound { result ≤ 256 }
    {
        if self.pieces() == 0 {
            return 0;
        }
        u64::from(self.piece(0).len) + 1
    }

    /// How much work it is to perform and to answer a burst of its phase.
    fn each(&self) -> u64
        ensures each { AreWorth result self.now.writing (planned self.now) }
        ensures bound { result ≤ 512 }
    {
        let beats = self.piece_beats();
        if self.writing {
            beats + 1
        } else {
            beats + beats
        }
    }

    /// The work of what it has still to write once it has read.
    fn later_work(&self) -> u64
        ensures work { result ≡ later_work self.now }
        ensures bound { result ≤ 65536 * 258 }
    {
        if self.writing {
            return 0;
        }
        u64::from(self.writes()) * (self.piece_beats() + 2)
    }

    /// The bursts to send, beats to perform and answers to come, as though no beat of an unanswered burst was performed or
    /// answered; and of that the work of the bursts that aren't sent.
    pub(crate) fn works(&self) -> Works
        ensures work { result.work ≡ work_of self.now }
        ensures unsent { result.unsent ≡ unsent_work self.now }
        ensures most_work { result.work ≤ 100000000 }
        ensures most_unsent { result.unsent ≤ 100000000 }
    {
        if self.done {
            return Works { work: 0, unsent: 0 };
        }
        let count = u64::from(self.planned());
        let each = self.each();
        let later = self.later_work();
        let unsent = count.saturating_sub(u64::from(self.sent));
        let unanswered = count.saturating_sub(u64::from(self.answered));
        Works {
            work: unsent + unanswered * each + later,
            unsent: unsent + unsent * each + later,
        }
    }

    /// By how much a step of it lowers the sums. It is inline as `take` is.
    #[inline(always)]
    pub(crate) fn worth(&self, step: Step) -> Sums
        requires { MayStep step self.now }
        ensures { IsWorth step self.now result }
    {
        if self.done {
            return Sums::new();
        }
        match step {
            Step::Sent(_) => Sums {
                undone: 0,
                work: 1,
                unsent: 1 + self.each(),
            },
            Step::Answered => Sums {
                undone: 0,
                work: self.each(),
                unsent: 0,
            },
            Step::Writes => Sums::new(),
            Step::Done => {
                let later = self.later_work();
                Sums {
                    undone: 1,
                    work: later,
                    unsent: later,
                }
            }
        }
    }
}

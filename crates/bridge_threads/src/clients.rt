//! A client's turn, on the value under the lock.
ghost use Rattle.std.specs.Prelude.{◌≡◌, ◌+◌, ◌<◌, ◌≤◌, ◌^◌, ◌==◌, ℕ, ◌++◌, ◌∷◌, [], length, vec_len, slice_get, Some, if◌then◌else◌};
ghost use Rattle.thread_reports.specs.Reports.{takes_beat};
ghost use Rattle.bridge_threads.specs.Turns.{MakesStep, OnMove, ReceivesBy, accepted_after, client_move, offer_turn};
ghost use Rattle.world.specs.declared.Step.TheVariants.{Offer, Take};

use crate::turns::{Move, Turn, WorkerFault, client_move};
use crate::{HistoryFull, Shared};
use thread_reports::{Receipts, named_place};
use tl_checker::TlRule;
use tl_messages::{ABeat, ReplyBox};
use world::{Answer, Step};

/// A client at work: what of its script was taken, and what it received.
#[derive(Drop)]
pub(crate) struct ClientWork {
    pub number: u8,
    /// How many beats of the script were taken.
    pub offered: usize,
    /// How many requests were accepted.
    pub accepted: usize,
    pub receipts: Receipts,
    pub ghost accepted_of_offered: { accepted ≤ offered },
}

impl ClientWork {
    /// A client that has offered nothing.
    pub(crate) fn new(number: u8, receipts: Receipts) -> ClientWork
        ensures number { result.number ≡ number }
        ensures none { (result.offered ≡ 0) × (result.accepted ≡ 0) }
        ensures receipts { result.receipts ≡ receipts }
    {
        ClientWork {
            number,
            offered: 0,
            accepted: 0,
            receipts,
        }
    }

    /// What the answer to an Offer makes of it.
    fn after_offer(&mut self, script: &[ABeat], answer: Answer) -> Turn
        requires { self.old.offered < length script.now }
        ensures turn { (index : ℕ) → index ≡ self.old.offered → index < 2 ^ 32 → result ≡ offer_turn index answer }
        ensures offered { self.new.offered ≡ (if takes_beat answer then self.old.offered + 1 else self.old.offered) }
        ensures accepted { self.new.accepted ≡ accepted_after self.old.accepted answer }
        ensures same { (self.new.number ≡ self.old.number) × (self.new.receipts ≡ self.old.receipts) }
    {
        match answer {
            Answer::More => {
                self.offered += 1;
                Turn::Moved
            }
            Answer::Accepted(_) => {
                self.offered += 1;
                self.accepted += 1;
                Turn::Moved
            }
            Answer::Refused(TlRule::SourceBusy) => Turn::Idle,
            Answer::Refused(rule) => {
                Turn::Failed(WorkerFault::BeatRefused(named_place(self.offered), rule))
            }
            _ => Turn::Idle,
        }
    }

    /// What the answer to a Take makes of it.
    fn after_take(&mut self, answer: Answer, reply: &ReplyBox) -> Turn
        ensures received { ReceivesBy reply.now self.old.receipts self.new.receipts result answer }
        ensures same { (self.new.number ≡ self.old.number) × (self.new.offered ≡ self.old.offered) × (self.new.accepted ≡ self.old.accepted) }
    {
        let Answer::Reply(number) = answer else {
            return Turn::Idle;
        };
        if self.receipts.keep(number, reply) {
            Turn::Moved
        } else {
            Turn::Failed(WorkerFault::NoRoom(named_place(self.receipts.heads.len())))
        }
    }
}

/// The beat at a place of a script, if there is one.
fn beat_at(script: &[ABeat], place: usize) -> Option<ABeat>
    ensures { result ≡ slice_get script.now place }
{
    script.get(place).copied()
}

/// One turn of a client, whose script this is.
pub(crate) fn client_turn(
    work: &mut ClientWork,
    shared: &mut Shared,
    script: &[ABeat],
    reply: &mut ReplyBox,
) -> Turn
    ensures shared { OnMove work.old.number shared.old shared.new result (client_move shared.old work.old.number (slice_get script.now work.old.offered) (work.old.accepted == vec_len work.old.receipts.heads)) }
    ensures number { work.new.number ≡ work.old.number }
{
    let beat = beat_at(script, work.offered);
    let received = work.accepted == work.receipts.heads.len();
    match client_move(shared, work.number, beat, received) {
        Move::Ends => Turn::Ended,
        Move::Waits => Turn::Idle,
        Move::CountsOut => {
            shared.count_out();
            Turn::Ended
        }
        Move::Takes => takes(work, shared, reply),
        Move::Offers(beat) => offers(work, shared, script, beat, reply),
    }
}

/// A turn in which a client takes a reply.
fn takes(work: &mut ClientWork, shared: &mut Shared, reply: &mut ReplyBox) -> Turn
    ensures shared { MakesStep shared.old shared.new (Take work.old.number) result }
    ensures number { work.new.number ≡ work.old.number }
{
    let Ok(answer) = shared.turn(&Step::Take(work.number), reply) else {
        return Turn::Failed(WorkerFault::HistoryFull);
    };
    work.after_take(answer, reply)
}

/// A turn in which a client offers the next beat of its script.
fn offers(
    work: &mut ClientWork,
    shared: &mut Shared,
    script: &[ABeat],
    beat: ABeat,
    reply: &mut ReplyBox,
) -> Turn
    requires { slice_get script.now work.old.offered ≡ Some beat }
    ensures shared { MakesStep shared.old shared.new (Offer work.old.number beat) result }
    ensures number { work.new.number ≡ work.old.number }
{
    let Ok(answer) = shared.turn(&Step::Offer(work.number, beat), reply) else {
        return Turn::Failed(WorkerFault::HistoryFull);
    };
    work.after_offer(script, answer)
}

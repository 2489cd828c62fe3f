//! A port, as its beats come in.
ghost use Rattle.std.specs.Prelude.{◌≡◌, ℕ, ◌≤◌, Bool, List, [], ◌∷◌, ◌++◌, None, Some, Ok, IfOk, IfSome, IsSome, IsErr, if◌then◌else◌, nat_le};
ghost use Rattle.std.specs.Option.{option_copied};
ghost use Rattle.tl_messages.specs.declared.ABeat.{ABeat};
ghost use Rattle.tl_checker.specs.Inside.{CanJoin, front_at, limits_of, stage_after};
ghost use Rattle.tl_checker.specs.Ports.{joined, judged};
ghost use Rattle.tl_checker.specs.RequestRules.{TlPortLimits};
ghost use Rattle.tl_checker.specs.declared.Progress.TheVariants.{More, Whole};

use crate::request_rules::{first_beat_fault, later_beat_fault};
use crate::{Level, Progress, TlRule};
use std::alloc::{AllocError, Global};
use std::marker::Model;
use std::mem;
use tl_messages::{ABeat, Request, beats_of};

/// What a port's request is.
#[derive(Clone, Copy)]
enum Stage {
    /// Nothing: the next beat is a first one.
    Free,
    /// A message that has begun.
    Begun,
    /// A request that stands whole.
    Whole,
}

/// The checker of one client's TileLink port (TileLink 1.8, channel A; this project's profile). It takes beats as long as
/// they break no rule, and puts them together to requests of up to 512 beats. All its room is taken by `new`; no other
/// call takes memory.
pub struct Port {
    client: u8,
    level: Level,
    max_size: u8,
    stage: Stage,
    request: Request,
}

impl Model for Port {
    ghost use Rattle.std.specs.Prelude.{◌≤◌};
    ghost use Rattle.tl_checker.specs.Inside.{port_state};
    ghost use Rattle.tl_checker.specs.Ports.{PortState, CameOfBeats};

    ghost Value = { PortState };

    ghost view = { λ p. port_state p.client p.level p.max_size p.stage p.request };

    ghost invariant = { λ p. (p.max_size ≤ 12) × CameOfBeats (port_state p.client p.level p.max_size p.stage p.request) };
}

// Written out, so that what lets go of one calls this, and proves nothing of its parts.
impl Drop for Port {
    fn drop(self) {
        let Port {
            client: _,
            level: _,
            max_size: _,
            stage: _,
            request: _,
        } = self;
    }
}

impl Port {
    ghost use Rattle.tl_checker.specs.Ports.{HasSpelling, IsFrontOf, ReadsAs, is_free, judged, opening_port, port_after};
    ghost use Rattle.tl_checker.specs.Sound.{IsSound};

    /// A client's port of this level, with requests of up to `2^max_size` bytes, on which no beat has come. The largest
    /// size is at most 12; this project's profile has ports of 3 to 12.
    ///
    /// The one error is that memory was refused.
    pub fn new(alloc: Global, client: u8, level: Level, max_size: u8) -> Result<Self, AllocError>
        requires { max_size ≤ 12 }
        ensures { IfOk result (λ port. port ≡ opening_port (limits_of client level max_size)) }
    {
        let request = Request::new(alloc)?;
        Ok(Port {
            client,
            level,
            max_size,
            stage: Stage::Free,
            request,
        })
    }

    /// What `take_beat` would answer, on its condition; nothing changes.
    pub fn judge(&self, beat: &ABeat, busy: bool) -> Result<Progress, TlRule>
        requires { self.now.whole ≡ None }
        ensures { result ≡ judged self.now.limits self.now.front beat.now busy }
    {
        match self.stage {
            Stage::Begun => judge_later(&self.request, beat),
            Stage::Free | Stage::Whole => judge_first(self.level, self.max_size, beat, busy),
        }
    }

    /// Takes a beat, on a port on which no whole request stands; `busy` says whether its source has a live request, which is
    /// asked of a first beat alone. The answer is `Whole` where the beats since the last request now spell one, and
    /// `More` where they begin a spelling.
    ///
    /// The refusal is the first rule that the beat breaks: of 1 to 9 a first beat, of 10 and 7, in this order, a later one.
    /// Then nothing changes.
    pub fn take_beat(&mut self, beat: &ABeat, busy: bool) -> Result<Progress, TlRule>
        requires { self.old.whole ≡ None }
        ensures answer { result ≡ judged self.old.limits self.old.front beat.now busy }
        ensures port { self.new ≡ port_after self.old beat.now result }
        ensures kept { IsErr result → self.new ≡ self.old }

        // Of whole lists of beats: what the answer must be, both ways.
        ensures reads { (beats : List ABeat) → IsFrontOf self.old.limits beats self.old.front
            → ReadsAs self.old.limits (beats ++ beat.now ∷ []) (is_free self.old.front busy) result self.new.whole }
    {
        let progress = self.judge(beat, busy)?;
        self.take_judged(beat, busy, progress);
        Ok(progress)
    }

    /// Takes a beat that was judged since the last one was taken: `judge` gave this answer, so that no rule is looked at
    /// twice.
    pub fn take_judged(&mut self, beat: &ABeat, busy: bool, progress: Progress)
        requires whole { self.old.whole ≡ None }
        requires told { judged self.old.limits self.old.front beat.now busy ≡ Ok progress }
        ensures { self.new ≡ port_after self.old beat.now (Ok progress) }
    {
        join(&mut self.request, self.stage, self.client, beat);
        self.stage = stage_after(progress);
    }

    /// The request that stands whole, if one does.
    pub fn whole(&self) -> Option<&Request>
        ensures request { option_copied result ≡ self.now.whole }
        ensures spelled { IfSome self.now.whole (HasSpelling self.now.limits) }

        // It is within the port's limits, aligned and complete, and its masks are right.
        ensures sound { IfSome self.now.whole (IsSound self.now.limits) }
    {
        match self.stage {
            Stage::Whole => Some(&self.request),
            _ => None,
        }
    }

    /// Puts the request that stands whole into `room`, and keeps what was there as its own room: the next beat is a first
    /// one. The two change places, so that no beat is copied.
    pub fn take_whole(&mut self, room: &mut Request)
        requires { IsSome self.old.whole }
        ensures request { self.old.whole ≡ Some room.new }
        ensures port { self.new ≡ opening_port self.old.limits }

        // It is within the port's limits, aligned and complete, and its masks are right.
        ensures sound { IsSound self.old.limits room.new }
    {
        let Port { stage, request, .. } = self;
        *stage = Stage::Free;
        mem::swap(request, room);
    }

    /// Lets go of the whole request, and of a message that has begun: the next beat is a first one.
    pub fn clear_whole(&mut self)
        ensures { self.new ≡ opening_port self.old.limits }
    {
        self.stage = Stage::Free;
    }
}

/// How far a message is of which so many beats have come.
fn progress(came: u32, wanted: u16) -> Progress
    ensures { result ≡ (if nat_le wanted came then Whole else More) }
{
    if u32::from(wanted) <= came {
        Progress::Whole
    } else {
        Progress::More
    }
}

/// The answer to a first beat.
fn judge_first(level: Level, max_size: u8, beat: &ABeat, busy: bool) -> Result<Progress, TlRule>
    requires { max_size ≤ 12 }
    ensures { (client : ℕ) → result ≡ judged (limits_of client level max_size) None beat.now busy }
{
    if let Some(rule) = first_beat_fault(level, max_size, beat, busy) {
        return Err(rule);
    }
    Ok(progress(1, beats_of(beat.size, beat.opcode <= 3)))
}

/// The answer to a later beat of a message that has begun.
fn judge_later(held: &Request, beat: &ABeat) -> Result<Progress, TlRule>
    ensures { (limits : TlPortLimits) (busy : Bool) → result ≡ judged limits (Some held.now) beat.now busy }
{
    if let Some(rule) = later_beat_fault(held, beat) {
        return Err(rule);
    }
    let came = u32::from(held.beats()) + 1;
    Ok(progress(came, beats_of(held.size(), held.operation().has_data())))
}

/// Appends a beat to a message that has begun, or begins one with it.
fn join(request: &mut Request, stage: Stage, client: u8, beat: &ABeat)
    requires { CanJoin stage request.old beat.now }
    ensures { (limits : TlPortLimits) → limits.client ≡ client → request.new ≡ joined limits (front_at stage request.old) beat.now }
{
    match stage {
        Stage::Begun => request.add(beat),
        Stage::Free | Stage::Whole => request.begin(client, beat),
    }
}

fn stage_after(progress: Progress) -> Stage
    ensures { result ≡ stage_after progress }
{
    match progress {
        Progress::More => Stage::Begun,
        Progress::Whole => Stage::Whole,
    }
}

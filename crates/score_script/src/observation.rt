//! An observation that is judged call by call: by lines, or by commands that are called, and not read.
ghost use Rattle.std.specs.Prelude.{◌≡◌, IfOk, None, OnOk, false};
ghost use Rattle.std.specs.Io.KnownBytes.{Appends};
ghost use Rattle.script_text.specs.Stages.{GivesWorld, Opening, world_at};
ghost use Rattle.score_script.specs.Observations.{CallTold, LineTold, SetUpTold, TakeTold, finding_code, first_code, found_left, next_number, observing_code, observing_of, observing_text, stage_in, wrong_code};
ghost use Rattle.score_script.specs.Profiles.{byte_in};
ghost use Rattle.score_script.specs.ScoreStates.{score_of};
ghost use Rattle.score_script.specs.Scores.{counts_of, finds_nothing, score_kind, told_of};

use crate::findings::{Finding, Findings};
use crate::lines::command_of;
use crate::score::{Command, Counts, Score};
use crate::script::ScoreScript;
use line_text::{Words, WriteFault, may_stand};
use scoreboard::Wrong;
use script_text::{ScriptFault, StagedScript, take_line, without_return};
use std::alloc::Global;
use std::io::{Write, sink};
use std::marker::Model;

/// The most lines, and the number of the last line or call.
const MOST: u32 = 4_294_967_294;

/// What is wrong with a beat, as a number: 1 where its client isn't there, and else 100 and the number of a request's rule, 200 and
/// that of a reply's, or 300 and that of the AXI4 port's.
fn wrong_code(wrong: &Wrong) -> u32
    ensures { result ≡ wrong_code wrong.now }
{
    match wrong {
        Wrong::NoClient => 1,
        Wrong::Request(rule) => 100 + u32::from(rule.number()),
        Wrong::Reply(rule, _) => 200 + u32::from(rule.number()),
        Wrong::Axi(rule) => 300 + u32::from(rule.number()),
        Wrong::UnknownRequest => 117,
        Wrong::UnknownAxi => 313,
        Wrong::Place => 315,
    }
}

/// What was found, as a number: 0 where nothing is wrong.
fn finding_code(finding: &Option<Finding>) -> u32
    ensures { result ≡ finding_code finding.now }
{
    match finding {
        Some(Finding::Beat(_, _, wrong)) => wrong_code(wrong),
        Some(Finding::Byte(_)) | None => 0,
    }
}

/// The first of two such numbers that isn't 0.
fn first_code(code: u32, next: u32) -> u32
    ensures { result ≡ first_code code next }
{
    if code > 0 {
        return code;
    }
    next
}

/// The number of the line or call behind one of this number: the last stays.
fn next_number(number: u32) -> u32
    ensures { result ≡ next_number number }
{
    if number < MOST {
        return number + 1;
    }
    MOST
}

/// The lines of a set-up, up to the first beat.
#[derive(Drop)]
pub struct SetUp {
    script: StagedScript<ScoreScript>,
    number: u32,
}

impl Model for SetUp {
    ghost use Rattle.score_script.specs.Observations.{SetUpState};

    ghost Value = { SetUpState };

    ghost view = { λ s. record { stage = s.script; number = s.number } };
}

impl SetUp {
    /// No line yet.
    pub fn new() -> SetUp
        ensures stage { result.stage ≡ Opening }
        ensures number { result.number ≡ 0 }
    {
        SetUp {
            script: StagedScript::new(ScoreScript),
            number: 0,
        }
    }

    /// Takes a line without its line feed. Behind a fault nothing is promised of it.
    pub fn line(&mut self, alloc: Global, line: &[u8]) -> Result<(), ScriptFault>
        ensures { SetUpTold self.old line.now self.new result }
    {
        let at = next_number(self.number);
        let fault = ScriptFault::Script { line: at, word: 1 };
        if self.number >= MOST {
            return Err(fault);
        }
        if take_line(&mut self.script, alloc, at, line, &mut sink())? {
            return Err(fault);
        }
        self.number = at;
        Ok(())
    }

    /// The observation of this set-up.
    pub fn begin(self, alloc: Global) -> Result<Observation, ScriptFault>
        ensures score { GivesWorld (λ seen. score_of seen.score) (world_at score_kind (stage_in self) (next_number self.number)) result }
        ensures begun { IfOk result (λ seen. (seen.number ≡ self.number) × (seen.found ≡ told_of (finds_nothing (score_of seen.score)))) }
    {
        let SetUp { script, number } = self;
        let score = script.into_world(alloc, next_number(number))?;
        Ok(Observation {
            score,
            number,
            found: Findings::none(),
        })
    }
}

/// An observation: what was judged, the number of the last line or call that had no fault, and what that found.
#[derive(Drop)]
pub struct Observation {
    score: Score,
    number: u32,
    found: Findings,
}

impl Model for Observation {
    ghost use Rattle.score_script.specs.Observations.{ObservationState};

    ghost Value = { ObservationState };

    ghost view = { λ o. record { score = o.score; number = o.number; found = o.found } };
}

impl Observation {
    /// Notes what a line or call of this number found.
    fn note(&mut self, number: u32, findings: Findings) -> u32
        ensures score { self.new.score ≡ self.old.score }
        ensures number { self.new.number ≡ number }
        ensures found { self.new.found ≡ findings }
        ensures code { result ≡ observing_code (observing_of self.new) }
    {
        self.number = number;
        self.found = findings;
        self.code()
    }

    /// Notes what was found of the held beat, where only that was judged.
    fn keep(&mut self, told: Option<Finding>)
        ensures score { self.new.score ≡ self.old.score }
        ensures number { self.new.number ≡ self.old.number }
        ensures found { self.new.found ≡ found_left self.old.found told }
    {
        if told.is_some() {
            self.found = Findings {
                held: told,
                own: None,
                over: false,
            };
        }
    }

    /// What the last line or call found, as a number: the first of it, or 0 where nothing is wrong.
    pub fn code(&self) -> u32
        ensures { result ≡ observing_code (observing_of self.now) }
    {
        let left = if self.found.over {
            self.score.unanswered_code()
        } else {
            0
        };
        first_code(
            finding_code(&self.found.held),
            first_code(finding_code(&self.found.own), left),
        )
    }

    /// Carries out a command that was read.
    fn take(&mut self, number: u32, command: &Command) -> Result<u32, ScriptFault>
        ensures { TakeTold (observing_of self.old) number command.now (observing_of self.new) result }
    {
        let mut findings = Findings::none();
        self.score.take(number, command, &mut findings)?;
        Ok(self.note(number, findings))
    }

    /// Takes a line without its line feed, as `score_text` does. The answer is the number of what it found. A fault is that of the
    /// line, or that memory was refused; it counts no line.
    pub fn line(&mut self, line: &[u8]) -> Result<u32, ScriptFault>
        ensures { LineTold (observing_of self.old) line.now (observing_of self.new) result }
    {
        let number = next_number(self.number);
        let text = without_return(line);
        if !may_stand(text) {
            return Err(ScriptFault::at(number, 0));
        }
        let mut words = Words::new();
        words.read(text);
        if words.are_skipped() {
            return Ok(self.note(number, Findings::none()));
        }
        match command_of(&words) {
            Err(word) => Err(ScriptFault::Script { line: number, word }),
            Ok(command) => self.take(number, &command),
        }
    }

    /// Carries out a command that is called, and not read. A beat is judged at once, since nobody withdraws it. The answer is the
    /// number of what it found. A fault is that the command may not stand here, or that memory was refused; it counts no call. Where
    /// memory was refused a beat that a line holds may have been judged: then `tell` writes what was found of it.
    pub fn call(&mut self, command: &Command) -> Result<u32, ScriptFault>
        ensures { CallTold (observing_of self.old) command.now (observing_of self.new) result }
    {
        let number = next_number(self.number);
        let mut findings = Findings::none();
        if let Err(fault) = self.score.take_at_once(number, command, &mut findings) {
            self.keep(findings.held);
            return Err(fault);
        }
        Ok(self.note(number, findings))
    }

    /// Writes the lines of what the last line or call found.
    pub fn tell<W: Write>(&self, writer: &mut W) -> Result<(), WriteFault>
        ensures { OnOk result (Appends (W.contents writer.old) (W.contents writer.new) (observing_text (observing_of self.now))) }
    {
        self.score.tell(self.number, &self.found, writer)?;
        Ok(())
    }

    /// How much was judged and found so far, and what has no answer yet.
    pub fn counts(&self) -> Counts
        ensures { result ≡ counts_of (observing_of self.now).score }
    {
        self.score.counts()
    }

    /// The byte at an address of a good page, as the requests that were judged leave it; none outside these pages.
    pub fn byte(&self, address: u32) -> Option<u8>
        ensures { result ≡ byte_in (observing_of self.now).score.board address }
    {
        self.score.byte(address)
    }
}

//! What was found of the beats that were read so far, and what each line finds.
ghost use Rattle.std.specs.Prelude.{ℕ, ◌≡◌, ◌⊎◌, Err, IfErr, IfOk, IfSome, None, OnErr, OnOk, Some, false, if◌then◌else◌, is_some, true};
ghost use Rattle.std.specs.Option.{option_or};
ghost use Rattle.script_text.specs.Stages.{Writes, WritesEnd, line_commanded, told_wants};
ghost use Rattle.script_text.specs.declared.faults.ScriptFault.TheVariants as script;
ghost use Rattle.scoreboard.specs.Observed.{is_request};
ghost use Rattle.scoreboard.specs.Room.{asks_for_room};
ghost use Rattle.score_setup.specs.ScoreSetups.{lists_of, ranges_of, score_setup_fault};
ghost use Rattle.setups.specs.declared.SetupFault.TheVariants.{NoMemory};
ghost use Rattle.score_script.specs.Profiles.{byte_in, filled_in};
ghost use Rattle.score_script.specs.declared.profiles.Asked.{Asked};
ghost use Rattle.score_script.specs.Scores.{found, FailsBy, Leaves, begins_after, command_wants, commanded, held_wants, counts_of, judged_behind, wrong_command, wrong_fill, beats_judged, client_of, closing, counted, judging, line_at, misplaced_in, observing, opening_score, ended_behind, finds, over_text, reset_behind, score_kind, settled_alone, settling, told_text, unclear, unknown_on, with_more, without_data, wrong_behind};
ghost use Rattle.score_script.specs.Takings.{Gives, Settles, SettlesBefore, Takes, TakesAs, TakesAtOnce};
ghost use Rattle.score_script.specs.ScoreStates.{score_of};
ghost use Rattle.score_script.specs.declared.score.Command.TheVariants.{Answer, Observed};
ghost use Rattle.score_script.specs.FindingTexts.{WritesText};
ghost use Rattle.score_script.specs.ObservedLines.{command_of};
ghost use Rattle.score_script.specs.UnansweredTexts.{unanswered_code};

use crate::fills::FillBytes;
use crate::findings::{
    Finding, Findings, Line, findings_lines, last_compared, last_counts, optional_line,
};
use crate::lines::{Channel, SeenBeat, command_of, known_beat, only_settles};
use crate::profiles::Asked;
use crate::unanswered::{unanswered_code, unanswered_lines};
use burst_plan::Region;
use line_text::{Words, WriteFault};
use score_setup::ScoreSetup;
use scoreboard::{
    AxiPlaces, Errors, FillFault, ObservedBeat, Policy, ReplyRule, Scoreboard, Wrong, can_fill,
};
use script_text::ScriptFault;
use setups::SetupFault;
use std::alloc::{AllocError, Global};
use std::io::Write;
use tl_messages::ABeat;

/// What a line says that isn't one of the set-up.
#[derive(Drop)]
pub enum Command {
    /// Something was observed.
    Observed(SeenBeat),
    /// A beat of this channel, and of this client, was observed, and nobody knows a field of it but the payload.
    Unknown(Channel, u8),
    /// The byte at an address is asked for.
    Byte(u32),
    /// The beat before it, if it stands straight behind one, wasn't taken.
    Withdrawal,
    /// Another answer: it settles the beat before it.
    Answer,
    /// The memory began with these bytes from an address on.
    Fill(u32, FillBytes),
    /// What is observed from there on is of this time.
    Time(u64),
    /// The next beat of a port waited until it was taken: it settles the beat before it.
    Waited,
    /// The bridge was reset, with all that is connected to it.
    Reset,
    /// The observation is over: all that was asked has its answer.
    End,
}

/// A beat on channel A, which the next line may still withdraw.
#[derive(Clone, Copy)]
pub(crate) struct HeldBeat {
    /// Its line.
    pub(crate) line: Line,
    /// Its client.
    pub(crate) client: u8,
    /// The beat.
    pub(crate) beat: ABeat,
    /// The lanes of its payload that nobody knows.
    pub(crate) unknown: u8,
}

/// How much was judged and found so far, and what has no answer yet.
#[derive(Clone, Copy, Debug, PartialEq, Eq)]
pub struct Counts {
    /// Beats that were judged, at most 2^64 - 1.
    pub judged: u64,
    /// What was found wrong of them.
    pub wrong: u64,
    /// Bytes that replies told.
    pub told: u64,
    /// Of these those that were compared.
    pub compared: u64,
    /// Accepted requests whose reply isn't over.
    pub outstanding: u16,
    /// Bursts that are open on the AXI4 port.
    pub open_bursts: usize,
}

/// The board, the places of bursts where they are judged, whether nobody need know data but those of replies, whether nothing but
/// fillings was said yet, the time of what is observed, whether the observation is over, the beat that is held, how many beats were
/// judged, how much was found wrong, and how many bytes replies told, and were compared.
pub(crate) struct Score {
    board: Scoreboard,
    places: Option<AxiPlaces>,
    x_data: bool,
    begins: bool,
    time: Option<u64>,
    ended: bool,
    held: Option<HeldBeat>,
    judged: u64,
    wrong: u64,
    told: u64,
    compared: u64,
}

// Written out, so that what lets go of one calls this, and proves nothing of its parts.
impl Drop for Score {
    fn drop(self) {
        let Score {
            board: _,
            places: _,
            x_data: _,
            begins: _,
            time: _,
            ended: _,
            held: _,
            judged: _,
            wrong: _,
            told: _,
            compared: _,
        } = self;
    }
}

/// The client of a beat; 0 for what is of the AXI4 port.
fn client_of(seen: &ObservedBeat) -> u8
    ensures { result ≡ client_of seen.now }
{
    match seen {
        ObservedBeat::A(client, _) | ObservedBeat::D(client, _) => *client,
        _ => 0,
    }
}

/// What is wrong with a beat of which nobody knows a field but the payload, where there are so many clients.
fn unknown_on(clients: u8, channel: Channel, client: u8) -> Wrong
    ensures { result ≡ unknown_on clients channel client }
{
    match channel {
        Channel::A | Channel::D if client >= clients => Wrong::NoClient,
        Channel::A => Wrong::UnknownRequest,
        Channel::D => Wrong::Reply(ReplyRule::Unknown, None),
        _ => Wrong::UnknownAxi,
    }
}

/// A count and so many more; it stays at `2^64 - 1`.
fn with_more(count: u64, more: u64) -> u64
    ensures { result ≡ with_more count more }
{
    count.saturating_add(more)
}

/// A count and one more.
fn counted(count: u64) -> u64
    ensures { result ≡ counted count }
{
    with_more(count, 1)
}

/// A count of judged beats, with what was observed last: that beats went unobserved is no beat.
fn beats_judged(count: u64, seen: &ObservedBeat) -> u64
    ensures { result ≡ beats_judged count seen.now }
{
    match seen {
        ObservedBeat::Drained => count,
        _ => counted(count),
    }
}

/// Whether nothing but fillings was said yet, after a command; answers play no part.
fn begins_after(begins: bool, command: &Command) -> bool
    ensures { result ≡ begins_after begins command.now }
{
    match command {
        Command::Withdrawal | Command::Answer | Command::Fill(_, _) => begins,
        _ => false,
    }
}

/// The wrong word of a command that is the first, over a set-up that isn't refused.
pub(crate) fn wrong_at_first(setup: &ScoreSetup, command: &Command) -> Option<u32>
    ensures { (asked : Asked) → result ≡ wrong_command (opening_score asked (ranges_of setup.now)) command.now }
{
    let Command::Fill(address, bytes) = command else {
        return None;
    };
    if can_fill(setup, *address, bytes.as_slice().len()) {
        return None;
    }
    Some(2)
}

/// The places of bursts, where they are to be judged. The one error is that memory was refused.
fn places_for(
    alloc: Global,
    strict: bool,
    regions: &[Region],
) -> Result<Option<AxiPlaces>, AllocError>
    ensures { IfOk result (λ places. places ≡ (if strict then Some regions.now else None)) }
{
    if !strict {
        return Ok(None);
    }
    let places = AxiPlaces::new(alloc, regions)?;
    Ok(Some(places))
}

impl Score {
    /// A score of a set-up and of what its lines ask for beside it, of which nothing was observed.
    ///
    /// It refuses what `score_setup_fault` does, with that fault; its one other error is NoMemory.
    pub(crate) fn new(alloc: Global, asked: Asked, setup: &ScoreSetup) -> Result<Score, SetupFault>
        ensures refused { IfSome (score_setup_fault (lists_of setup.now)) (λ fault. result ≡ Err fault) }
        ensures want { IfErr result (λ fault. (score_setup_fault (lists_of setup.now) ≡ Some fault) ⊎ (fault ≡ NoMemory)) }
        ensures opens { IfOk result (λ score. score_of score ≡ opening_score asked (ranges_of setup.now)) }
    {
        let policy = asked.policy.unwrap_or(Policy::AcceptanceOrder);
        let errors = asked.errors.unwrap_or(Errors::Strict);
        let board = Scoreboard::new(alloc, policy, errors, setup)?;
        match places_for(alloc, asked.strict, setup.regions.as_slice()) {
            Ok(places) => Ok(Score {
                board,
                places,
                x_data: asked.x_data,
                begins: true,
                time: None,
                ended: false,
                held: None,
                judged: 0,
                wrong: 0,
                told: 0,
                compared: 0,
            }),
            Err(_) => Err(SetupFault::NoMemory),
        }
    }

    /// What is wrong with a beat of which the board found this: where places are judged, with its place too.
    fn with_place(&self, seen: &ObservedBeat, verdict: Option<Wrong>) -> Option<Wrong>
        ensures { result ≡ option_or verdict (misplaced_in self.now.places seen.now) }
    {
        match &self.places {
            None => verdict,
            Some(places) => verdict.or(places.judge(seen)),
        }
    }

    /// What the board finds, where nobody need know the bytes that requests give, and that the AXI4 port has.
    fn without_data(&self, verdict: Option<Wrong>) -> Option<Wrong>
        ensures { result ≡ without_data self.now.x_data verdict }
    {
        match verdict {
            Some(Wrong::UnknownRequest | Wrong::UnknownAxi) if self.x_data => None,
            verdict => verdict,
        }
    }

    /// The line of a number, with the time of what is observed.
    fn line_at(&self, number: u32) -> Line
        ensures { result ≡ line_at (score_of self.now) number }
    {
        Line {
            number,
            time: self.time,
        }
    }

    /// Counts what is wrong with a beat of which the board found this, if anything is, and puts it into its place. It is apart, since
    /// nearly all beats are right.
    #[inline(never)]
    fn tell_wrong(
        &mut self,
        line: Line,
        seen: &ObservedBeat,
        verdict: &Option<Wrong>,
        finding: &mut Option<Finding>,
    )
        ensures found { finding.new ≡ found line seen.now (option_or (without_data self.old.x_data verdict.now) (misplaced_in self.old.places seen.now)) }
        ensures state { score_of self.new ≡ record (score_of self.old) {
          wrong = if is_some (option_or (without_data self.old.x_data verdict.now) (misplaced_in self.old.places seen.now)) then counted self.old.wrong else self.old.wrong;
        } }
    {
        *finding = None;
        if let Some(wrong) = self.with_place(seen, self.without_data(*verdict)) {
            self.wrong = counted(self.wrong);
            *finding = Some(Finding::Beat(line, client_of(seen), wrong));
        }
    }

    /// Judges what was observed, by its line, and puts what it finds into its place. The one error is that memory was refused.
    #[inline(always)]
    fn judge(
        &mut self,
        line: Line,
        seen: &SeenBeat,
        finding: &mut Option<Finding>,
    ) -> Result<(), AllocError>
        ensures found { OnOk result (finding.new ≡ (judging (score_of self.old) line seen.now).0) }
        ensures state { OnOk result (score_of self.new ≡ (judging (score_of self.old) line seen.now).1) }
        ensures kept { OnErr result (score_of self.new ≡ score_of self.old) }
        ensures quiet { OnErr result (finding.new ≡ finding.old) }
        ensures grows { OnErr result (is_request seen.now.beat ≡ true) }
        ensures cause { OnErr result (asks_for_room (score_of self.old).board.policy (score_of self.old).board.board (λ page. false) seen.now.beat ≡ true) }
    {
        let SeenBeat { beat, unknown } = seen;
        let telling = self.board.telling(beat);
        let found = self.board.judge_unknown(beat, *unknown)?;
        self.judged = beats_judged(self.judged, beat);
        self.told = with_more(self.told, u64::from(telling.told));
        self.compared = with_more(self.compared, u64::from(telling.compared));
        *finding = None;
        if found.is_some() || self.places.is_some() {
            self.tell_wrong(line, beat, &found, finding);
        }
        Ok(())
    }

    /// Judges the beat that is held, if there is one, and puts what it finds into its place. The one error is that memory was
    /// refused; then nothing has changed.
    #[inline(always)]
    fn settle(&mut self, finding: &mut Option<Finding>) -> Result<(), AllocError>
        ensures { Settles (score_of self.old) finding.old (score_of self.new) finding.new result }
    {
        if self.held.is_none() {
            *finding = None;
            return Ok(());
        }
        self.settle_held(finding)
    }

    /// The same where one is held. It is apart, so that where none is nothing of it stands in the way.
    #[inline(never)]
    fn settle_held(&mut self, finding: &mut Option<Finding>) -> Result<(), AllocError>
        requires held { is_some self.old.held ≡ true }
        ensures { Settles (score_of self.old) finding.old (score_of self.new) finding.new result }
    {
        let Some(held) = self.held else {
            unreachable!();
        };
        self.held = None;
        let seen = SeenBeat {
            beat: ObservedBeat::A(held.client, held.beat),
            unknown: held.unknown,
        };
        if let Err(refused) = self.judge(held.line, &seen, finding) {
            self.held = Some(held);
            return Err(refused);
        }
        Ok(())
    }

    /// The held beat is judged, and nothing else is found. The one error is that memory was refused.
    #[inline(always)]
    fn settle_alone(&mut self, findings: &mut Findings) -> Result<(), AllocError>
        ensures { SettlesBefore (settled_alone (settling (score_of self.old))) (score_of self.old) findings.old (score_of self.new) findings.new result }
    {
        self.settle(&mut findings.held)?;
        findings.own = None;
        findings.over = false;
        Ok(())
    }

    /// Holds a beat on channel A, and judges any other, and puts what it finds into its place. The one error is that memory was
    /// refused; then nothing has changed.
    #[inline(always)]
    fn observe(
        &mut self,
        line: Line,
        seen: &SeenBeat,
        findings: &mut Findings,
    ) -> Result<(), AllocError>
        ensures { SettlesBefore (observing (settling (score_of self.old)) line seen.now) (score_of self.old) findings.old (score_of self.new) findings.new result }
    {
        self.settle_alone(findings)?;
        let ObservedBeat::A(client, beat) = seen.beat else {
            return self.judge(line, seen, &mut findings.own);
        };
        let unknown = seen.unknown;
        self.held = Some(HeldBeat {
            line,
            client,
            beat,
            unknown,
        });
        Ok(())
    }

    /// The held beat is judged, and then one of which nobody knows a field but the payload: nothing changes but the counts. The one
    /// error is that memory was refused.
    fn tell_unknown(
        &mut self,
        line: Line,
        channel: Channel,
        client: u8,
        findings: &mut Findings,
    ) -> Result<(), AllocError>
        ensures { SettlesBefore (unclear (settling (score_of self.old)) line channel client) (score_of self.old) findings.old (score_of self.new) findings.new result }
    {
        self.settle_alone(findings)?;
        let wrong = unknown_on(self.board.clients(), channel, client);
        findings.own = Some(Finding::Beat(line, client, wrong));
        self.judged = counted(self.judged);
        self.wrong = counted(self.wrong);
        Ok(())
    }

    /// The held beat is judged, and then the board is reset. The one error is that memory was refused.
    fn reset(&mut self, findings: &mut Findings) -> Result<(), AllocError>
        ensures { SettlesBefore (reset_behind (settling (score_of self.old))) (score_of self.old) findings.old (score_of self.new) findings.new result }
    {
        self.settle_alone(findings)?;
        self.board.reset();
        Ok(())
    }

    /// The observation is over: the held beat is judged, and what has no answer is wrong. The one error is that memory was refused.
    fn finish(&mut self, findings: &mut Findings) -> Result<(), AllocError>
        ensures { SettlesBefore (ended_behind (settling (score_of self.old))) (score_of self.old) findings.old (score_of self.new) findings.new result }
    {
        self.settle_alone(findings)?;
        findings.over = true;
        self.wrong = with_more(self.wrong, u64::from(self.board.outstanding()));
        self.wrong = with_more(self.wrong, self.board.open_bursts() as u64);
        self.wrong = with_more(self.wrong, self.board.writes_without_address() as u64);
        self.wrong = with_more(self.wrong, u64::from(self.board.messages_begun()));
        self.ended = true;
        Ok(())
    }

    /// Refuses what may not stand where the observation is over.
    fn check_open(&self, number: u32) -> Result<(), ScriptFault>
        ensures open { OnOk result (wrong_behind (score_of self.now) ≡ None) }
        ensures fault { IfErr result (λ fault. FailsBy number (wrong_behind (score_of self.now)) fault) }
        ensures place { IfErr result (λ fault. fault ≡ script.Script number 1) }
    {
        if self.ended {
            return Err(ScriptFault::at(number, 1));
        }
        Ok(())
    }

    /// Withdraws the beat that is held.
    fn withdraw(&mut self)
        ensures { score_of self.new ≡ record (score_of self.old) { held = None } }
    {
        self.held = None;
    }

    /// Fills the memory, as the line of this number says. A fault is that line's wrong word, or that memory was refused.
    fn fill(&mut self, number: u32, address: u32, bytes: &FillBytes) -> Result<(), ScriptFault>
        ensures done { OnOk result (wrong_fill (score_of self.old) address bytes.now ≡ None) }
        ensures state { OnOk result (score_of self.new ≡ record (score_of self.old) { board = filled_in (score_of self.old).board address bytes.now }) }
        ensures kept { OnErr result (score_of self.new ≡ score_of self.old) }
        ensures fault { IfErr result (λ fault. FailsBy number (wrong_fill (score_of self.old) address bytes.now) fault) }
    {
        if !self.begins {
            return Err(ScriptFault::at(number, 1));
        }
        match self.board.fill(address, bytes.as_slice()) {
            Ok(()) => Ok(()),
            Err(FillFault::Place) => Err(ScriptFault::at(number, 2)),
            Err(FillFault::NoMemory) => Err(ScriptFault::NoMemory),
        }
    }

    /// Carries out a command, by the number of its line, and puts what it finds into its place. A fault is the wrong word of its line,
    /// or that memory was refused; then nothing has changed.
    fn find(
        &mut self,
        number: u32,
        command: &Command,
        findings: &mut Findings,
    ) -> Result<(), ScriptFault>
        ensures { TakesAs (finds (score_of self.old) number command.now) (score_of self.old) number command.now findings.old (score_of self.new) findings.new result }
    {
        match command {
            Command::Observed(seen) => {
                self.check_open(number)?;
                self.observe(self.line_at(number), seen, findings)?;
            }
            Command::Unknown(channel, client) => {
                self.check_open(number)?;
                self.tell_unknown(self.line_at(number), *channel, *client, findings)?;
            }
            Command::Byte(address) => {
                self.settle_alone(findings)?;
                findings.own = Some(Finding::Byte(self.board.byte(*address)));
            }
            Command::Withdrawal => {
                self.withdraw();
                *findings = Findings::none();
            }
            Command::Answer | Command::Waited => self.settle_alone(findings)?,
            Command::Fill(address, bytes) => {
                self.fill(number, *address, bytes)?;
                *findings = Findings::none();
            }
            Command::Time(time) => {
                self.settle_alone(findings)?;
                self.time = Some(*time);
            }
            Command::Reset => {
                self.check_open(number)?;
                self.reset(findings)?;
            }
            Command::End => {
                self.check_open(number)?;
                self.finish(findings)?;
            }
        }
        Ok(())
    }

    /// The same of one that was read, and then its line has come.
    pub(crate) fn take(
        &mut self,
        number: u32,
        command: &Command,
        findings: &mut Findings,
    ) -> Result<(), ScriptFault>
        ensures { Takes (score_of self.old) number command.now findings.old (score_of self.new) findings.new result }
    {
        let begins = begins_after(self.begins, command);
        self.find(number, command, findings)?;
        self.begins = begins;
        Ok(())
    }

    /// The held beat is judged, and then this one, also where it is of channel A. The one error is that memory was refused; the held
    /// beat may have been judged then, and what was found of it is told.
    fn judge_at_once(
        &mut self,
        line: Line,
        seen: &SeenBeat,
        findings: &mut Findings,
    ) -> Result<(), AllocError>
        ensures found { OnOk result (Gives (judged_behind (settling (score_of self.old)) line seen.now) findings.new (score_of self.new)) }
        ensures left { OnErr result (Leaves (score_of self.old) findings.old.held (score_of self.new) findings.new.held) }
    {
        self.settle_alone(findings)?;
        self.judge(line, seen, &mut findings.own)
    }

    /// The same as `take` of a command that is called, and not read: nobody withdraws its beat, which is judged at once.
    pub(crate) fn take_at_once(
        &mut self,
        number: u32,
        command: &Command,
        findings: &mut Findings,
    ) -> Result<(), ScriptFault>
        ensures { TakesAtOnce (score_of self.old) number command.now findings.old (score_of self.new) findings.new result }
    {
        let Command::Observed(seen) = command else {
            return self.take(number, command, findings);
        };
        self.check_open(number)?;
        self.judge_at_once(self.line_at(number), seen, findings)?;
        self.begins = false;
        Ok(())
    }

    /// Writes the lines of what has no answer, where it was said at a line that the observation is over. The answer is whether there
    /// was any.
    fn over_lines<W: Write>(
        &self,
        number: u32,
        over: bool,
        writer: &mut W,
    ) -> Result<bool, WriteFault>
        ensures { WritesText (over_text (score_of self.now) number over) (W.contents writer.old) (W.contents writer.new) result }
    {
        if !over {
            return Ok(false);
        }
        unanswered_lines(&self.line_at(number), &self.board, writer)
    }

    /// Writes the lines of what a line found, by its number. The answer is whether there was any.
    pub(crate) fn tell<W: Write>(
        &self,
        number: u32,
        findings: &Findings,
        writer: &mut W,
    ) -> Result<bool, WriteFault>
        ensures { WritesText (told_text (score_of self.now) number findings.now) (W.contents writer.old) (W.contents writer.new) result }
    {
        let found = findings_lines(findings, writer)?;
        let left = self.over_lines(number, findings.over, writer)?;
        Ok(found | left)
    }

    /// The first of the lines of what has no answer, as a number.
    pub(crate) fn unanswered_code(&self) -> u32
        ensures { result ≡ unanswered_code (score_of self.now).board.board }
    {
        unanswered_code(&self.board)
    }

    /// How much was judged and found so far, and what has no answer yet.
    pub(crate) fn counts(&self) -> Counts
        ensures { result ≡ counts_of (score_of self.now) }
    {
        Counts {
            judged: self.judged,
            wrong: self.wrong,
            told: self.told,
            compared: self.compared,
            outstanding: self.board.outstanding(),
            open_bursts: self.board.open_bursts(),
        }
    }

    /// The byte at an address of a good page, as the requests that were judged leave it; none outside these pages.
    pub(crate) fn byte(&self, address: u32) -> Option<u8>
        ensures { result ≡ byte_in (score_of self.now).board address }
    {
        self.board.byte(address)
    }

    /// Carries out a command, by the number of its line, and writes its lines. The answer is whether there was any. A fault is the
    /// line's wrong word, that of the writer, or that memory was refused.
    fn carry_out<W: Write>(
        &mut self,
        number: u32,
        command: &Command,
        writer: &mut W,
    ) -> Result<bool, ScriptFault>
        ensures { Writes (command_wants (score_of self.old) command.now) number (commanded (score_of self.old) number command.now) (score_of self.new) (W.contents writer.old) (W.contents writer.new) result }
    {
        let mut findings = Findings::none();
        self.take(number, command, &mut findings)?;
        Ok(self.tell(number, &findings, writer)?)
    }

    /// The same of a beat that was observed. It is apart, so that no command has to hold the beat.
    #[inline(always)]
    fn see<W: Write>(
        &mut self,
        number: u32,
        seen: &SeenBeat,
        writer: &mut W,
    ) -> Result<bool, ScriptFault>
        ensures { Writes (command_wants (score_of self.old) (Observed seen.now)) number (commanded (score_of self.old) number (Observed seen.now)) (score_of self.new) (W.contents writer.old) (W.contents writer.new) result }
    {
        let mut findings = Findings::none();
        self.check_open(number)?;
        self.observe(self.line_at(number), seen, &mut findings)?;
        self.begins = false;
        Ok(self.tell(number, &findings, writer)?)
    }

    /// The same of an answer that settles the beat before it, and does nothing more.
    #[inline(always)]
    fn answer<W: Write>(&mut self, number: u32, writer: &mut W) -> Result<bool, ScriptFault>
        ensures { Writes (command_wants (score_of self.old) Answer) number (commanded (score_of self.old) number Answer) (score_of self.new) (W.contents writer.old) (W.contents writer.new) result }
    {
        if self.held.is_none() {
            return Ok(false);
        }
        let mut findings = Findings::none();
        self.settle_held(&mut findings.held)?;
        Ok(self.tell(number, &findings, writer)?)
    }

    /// Carries out the command that a line says, by the line's number, and writes its lines. The answer is whether there was any. A
    /// fault is the line's first wrong word, that of the writer, or that memory was refused.
    #[inline(always)]
    pub(crate) fn carry_line<W: Write>(
        &mut self,
        number: u32,
        words: &Words<'_>,
        writer: &mut W,
    ) -> Result<bool, ScriptFault>
        ensures { Writes (told_wants score_kind (score_of self.old) (command_of words.now)) number (line_commanded score_kind (score_of self.old) number (command_of words.now)) (score_of self.new) (W.contents writer.old) (W.contents writer.new) result }
    {
        let known = known_beat(words);
        if let Ok(seen) = &known {
            return self.see(number, seen, writer);
        }
        if only_settles(words) {
            return self.answer(number, writer);
        }
        let read = command_of(words);
        match &read {
            Err(word) => Err(ScriptFault::at(number, *word)),
            Ok(command) => self.carry_out(number, command, writer),
        }
    }

    /// Judges the beat that is held, and writes the last line. The answer is whether a beat is wrong. A fault is that of the
    /// writer, or that memory was refused.
    pub(crate) fn close<W: Write>(&mut self, writer: &mut W) -> Result<bool, ScriptFault>
        ensures { WritesEnd (held_wants (score_of self.old).board self.old.held) (closing (settling (score_of self.old))) (W.contents writer.old) (W.contents writer.new) result }
    {
        let mut held = None;
        self.settle(&mut held)?;
        optional_line(&held, writer)?;
        last_counts(
            self.judged,
            self.wrong,
            self.board.outstanding(),
            self.board.open_bursts(),
            writer,
        )?;
        last_compared(self.compared, self.told, writer)?;
        Ok(self.wrong > 0)
    }
}

//! The lines of what is wrong, and of what was found at the end.
ghost use Rattle.std.specs.Prelude.{◌≡◌, None, ◌++◌, OnOk, false};
ghost use Rattle.std.specs.Io.KnownBytes.{Appends};
ghost use Rattle.score_script.specs.FindingTexts.{WritesText, compared_text, counts_text, expected_text, finding_text, line_end, optional_text, wrong_text, wrong_words};

use line_text::{WriteFault, mem_line};
use scoreboard::{ReplyRule, Wrong};
use std::io::Write;
use tl_messages::d_words;

/// A line of an observation.
#[derive(Clone, Copy)]
pub(crate) struct Line {
    /// Its number.
    pub(crate) number: u32,
    /// The time that was given last before it, if one was, in whatever unit the observation has.
    pub(crate) time: Option<u64>,
}

/// What a line finds.
#[derive(Clone, Copy)]
pub(crate) enum Finding {
    /// A wrong beat: its line, its client, and what is wrong with it.
    Beat(Line, u8, Wrong),
    /// The byte at an address; none outside good pages.
    Byte(Option<u8>),
}

/// What a line or call finds.
#[derive(Clone, Copy)]
pub(crate) struct Findings {
    /// Of the beat that was held.
    pub(crate) held: Option<Finding>,
    /// Of its own.
    pub(crate) own: Option<Finding>,
    /// Whether it said that the observation is over, so that what has no answer is wrong.
    pub(crate) over: bool,
}

impl Findings {
    /// Nothing is found.
    pub(crate) fn none() -> Findings
        ensures held { result.held ≡ None }
        ensures own { result.own ≡ None }
        ensures over { result.over ≡ false }
    {
        Findings {
            held: None,
            own: None,
            over: false,
        }
    }
}

/// Writes the end of a line that tells of a beat: the time that was given before it, if one was.
pub(crate) fn line_end<W: Write>(time: Option<u64>, writer: &mut W) -> Result<(), WriteFault>
    ensures { OnOk result (Appends (W.contents writer.old) (W.contents writer.new) (line_end time)) }
{
    match time {
        None => Ok(writeln!(writer)?),
        Some(time) => Ok(writeln!(writer, " at {time}")?),
    }
}

/// Writes the beginning of a wrong reply's line, behind which the beat that was due stands.
fn reply_head<W: Write>(line: u32, rule: ReplyRule, writer: &mut W) -> Result<(), WriteFault>
    ensures { OnOk result (Appends (W.contents writer.old) (W.contents writer.new) (expected_text line rule)) }
{
    let number = rule.number();
    let name = rule.name();
    Ok(write!(writer, "= wrong {line} reply {number} {name} expected ")?)
}

/// Writes what is wrong with a beat, by the number of its line.
fn wrong_words<W: Write>(
    line: u32,
    client: u8,
    wrong: &Wrong,
    writer: &mut W,
) -> Result<(), WriteFault>
    ensures { OnOk result (Appends (W.contents writer.old) (W.contents writer.new) (wrong_words line client wrong.now)) }
{
    match wrong {
        Wrong::NoClient => {
            let number = 1u8;
            let name = "NO_CLIENT";
            Ok(write!(writer, "= wrong {line} client {number} {name}")?)
        }
        Wrong::Request(rule) => {
            let number = rule.number();
            let name = rule.name();
            Ok(write!(writer, "= wrong {line} request {number} {name}")?)
        }
        Wrong::Reply(rule, None) => {
            let number = rule.number();
            let name = rule.name();
            Ok(write!(writer, "= wrong {line} reply {number} {name}")?)
        }
        Wrong::Reply(rule, Some(due)) => {
            reply_head(line, *rule, writer)?;
            Ok(d_words(client, due, writer)?)
        }
        Wrong::Axi(rule) => {
            let number = rule.number();
            let name = rule.name();
            Ok(write!(writer, "= wrong {line} axi {number} {name}")?)
        }
        Wrong::UnknownRequest => {
            let number = 17u8;
            let name = "X";
            Ok(write!(writer, "= wrong {line} request {number} {name}")?)
        }
        Wrong::UnknownAxi => {
            let number = 13u8;
            let name = "X";
            Ok(write!(writer, "= wrong {line} axi {number} {name}")?)
        }
        Wrong::Place => {
            let number = 15u8;
            let name = "PLACE";
            Ok(write!(writer, "= wrong {line} axi {number} {name}")?)
        }
    }
}

/// Writes the line of a wrong beat.
fn wrong_line<W: Write>(
    line: &Line,
    client: u8,
    wrong: &Wrong,
    writer: &mut W,
) -> Result<(), WriteFault>
    ensures { OnOk result (Appends (W.contents writer.old) (W.contents writer.new) (wrong_text line.now client wrong.now)) }
{
    wrong_words(line.number, client, wrong, writer)?;
    line_end(line.time, writer)
}

/// Writes the line of a finding.
pub(crate) fn finding_line<W: Write>(finding: &Finding, writer: &mut W) -> Result<(), WriteFault>
    ensures { OnOk result (Appends (W.contents writer.old) (W.contents writer.new) (finding_text finding.now)) }
{
    match finding {
        Finding::Beat(line, client, wrong) => wrong_line(line, *client, wrong, writer),
        Finding::Byte(byte) => mem_line(*byte, writer),
    }
}

/// Writes the line of a finding, if there is one.
pub(crate) fn optional_line<W: Write>(
    finding: &Option<Finding>,
    writer: &mut W,
) -> Result<(), WriteFault>
    ensures { OnOk result (Appends (W.contents writer.old) (W.contents writer.new) (optional_text finding.now)) }
{
    match finding {
        None => Ok(()),
        Some(finding) => finding_line(finding, writer),
    }
}

/// Writes the lines of what a line finds. The answer is whether there was any.
pub(crate) fn findings_lines<W: Write>(
    findings: &Findings,
    writer: &mut W,
) -> Result<bool, WriteFault>
    ensures { WritesText (optional_text findings.now.held ++ optional_text findings.now.own) (W.contents writer.old) (W.contents writer.new) result }
{
    if findings.held.is_none() && findings.own.is_none() {
        return Ok(false);
    }
    optional_line(&findings.held, writer)?;
    optional_line(&findings.own, writer)?;
    Ok(true)
}

/// Writes the beginning of the last line: how many beats were judged, how many of them are wrong, how many accepted requests have a
/// reply that wasn't seen whole, and how many AXI bursts are open.
pub(crate) fn last_counts<W: Write>(
    judged: u64,
    wrong: u64,
    outstanding: u16,
    open_bursts: usize,
    writer: &mut W,
) -> Result<(), WriteFault>
    ensures { OnOk result (Appends (W.contents writer.old) (W.contents writer.new) (counts_text judged wrong outstanding open_bursts)) }
{
    write!(
        writer,
        "= judged {judged} wrong {wrong} outstanding {outstanding} open {open_bursts} "
    )?;
    Ok(())
}

/// Writes its end: how many of the bytes that replies told were compared.
pub(crate) fn last_compared<W: Write>(
    compared: u64,
    told: u64,
    writer: &mut W,
) -> Result<(), WriteFault>
    ensures { OnOk result (Appends (W.contents writer.old) (W.contents writer.new) (compared_text compared told)) }
{
    writeln!(writer, "compared {compared} of {told}")?;
    Ok(())
}

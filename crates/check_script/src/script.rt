//! A script of `tlbridge check`: what is said of its beats.
ghost use Rattle.std.specs.Prelude.{◌≡◌, OnOk};
ghost use Rattle.std.specs.Io.KnownBytes.{Appends};
ghost use Rattle.script_text.specs.Scripts.{EndsAs, text_of, text_before_failure};
ghost use Rattle.script_text.specs.Stages.{Opening};
ghost use Rattle.check_script.specs.Check.{check_reading};
ghost use Rattle.check_script.specs.ClientPorts.{check_text, table_after, verdict_text};

use crate::client_ports::{ClientPorts, Verdict};
use crate::lines::{CheckCommand, check_command};
use line_text::{Words, WriteFault, a_line, refused_line, write_text};
use script_text::{Form, Kind, ScriptFault, StagedScript, read_script};
use setups::{Setup, SetupFault};
use std::alloc::Global;
use std::io::{Read, Write};

/// A script of `tlbridge check`.
#[derive(Drop)]
struct CheckScript;

/// Writes the line of a verdict.
fn verdict_line<W: Write>(verdict: Verdict, writer: &mut W) -> Result<(), WriteFault>
    ensures { OnOk result (Appends (W.contents writer.old) (W.contents writer.new) (verdict_text verdict)) }
{
    match verdict {
        Verdict::More => write_text(b"= more\n", writer),
        Verdict::Whole => write_text(b"= whole\n", writer),
        Verdict::Refused(rule) => refused_line(rule, writer),
        Verdict::NoClient => write_text(b"= noclient\n", writer),
        Verdict::Freed => write_text(b"= freed\n", writer),
        Verdict::NotBusy => write_text(b"= notbusy\n", writer),
    }
}

/// Carries out a command and writes what it gave: the beat that was offered, and the verdict.
fn judge<W: Write>(
    ports: &mut ClientPorts,
    command: &CheckCommand,
    writer: &mut W,
) -> Result<(), WriteFault>
    ensures text { OnOk result (Appends (W.contents writer.old) (W.contents writer.new) (check_text ports.old command.now)) }
    ensures state { OnOk result (ports.new ≡ table_after ports.old command.now) }
{
    if let CheckCommand::Offer(client, beat) = command {
        a_line(*client, beat, writer)?;
    }
    let verdict = ports.carry_out(command);
    verdict_line(verdict, writer)
}

impl Kind for CheckScript {
    ghost use Rattle.std.specs.Prelude.{false};
    ghost use Rattle.script_text.proofs.StageSteps.{says_itself};
    ghost use Rattle.setups.specs.Setups.{SetupLists, lists_of};
    ghost use Rattle.check_script.specs.Check.{check_kind};
    ghost use Rattle.check_script.specs.ClientPorts.{PortTable};
    ghost use Rattle.check_script.specs.CommandTexts.{check_gives};
    ghost use Rattle.check_script.specs.declared.lines.CheckCommand.{CheckCommand};

    type Setup = Setup;

    type Own = ();

    type World = ClientPorts;

    ghost Lists = { SetupLists };

    ghost lists = { lists_of };

    ghost State = { PortTable };

    ghost said = { λ ports. ports };

    ghost Command = { CheckCommand };

    ghost rules = { check_kind };

    ghost grows = { false };

    fn most_lines() -> u32 {
        65_536
    }

    fn takes(form: Form) -> bool {
        matches!(form, Form::Config)
    }

    fn own_opening() {}

    fn own_line(_own: &(), _words: &Words<'_>) -> Option<Result<(), u32>> {
        None
    }

    fn passes(_words: &Words<'_>) -> bool {
        false
    }

    fn open(alloc: Global, _own: &(), setup: &Setup) -> Result<ClientPorts, SetupFault> {
        if !setup.config.is_valid() {
            return Err(SetupFault::BadConfig);
        }
        match ClientPorts::new(alloc, &setup.config) {
            Ok(ports) => Ok(ports),
            Err(_) => Err(SetupFault::NoMemory),
        }
    }

    fn wrong_first(_own: &(), _setup: &Setup, words: &Words<'_>) -> Option<u32> {
        check_command(words).err()
    }

    fn carry_line<W: Write>(
        &mut self,
        ports: &mut ClientPorts,
        number: u32,
        words: &Words<'_>,
        writer: &mut W,
    ) -> Result<bool, ScriptFault> {
        match check_command(words) {
            Err(word) => Err(ScriptFault::at(number, word)),
            Ok(command) => {
                judge(ports, &command, writer)?;
                Ok(true)
            }
        }
    }

    fn end<W: Write>(ports: &mut ClientPorts, _writer: &mut W) -> Result<bool, ScriptFault> {
        Ok(ports.refused())
    }

    ghost gives_text = { check_gives };

    ghost adds_up = { says_itself _ _ };
}

/// Judges the beats of a script and writes its trace, each command's text before the next line is read. The answer is true
/// where a beat was refused or a client that isn't there was named.
pub fn check_text<R: Read, W: Write>(
    alloc: Global,
    reader: &mut R,
    writer: &mut W,
) -> Result<bool, ScriptFault>
    ensures { EndsAs 65536 (text_of check_reading Opening) (text_before_failure check_reading Opening) (R.remaining reader.old) (R.remaining reader.new) (W.contents writer.old) (W.contents writer.new) result }
{
    let script = StagedScript::new(CheckScript);
    read_script(script, alloc, reader, writer)
}

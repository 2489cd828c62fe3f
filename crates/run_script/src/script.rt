//! A script of `tlbridge run`: what its commands do to a world, and what they write.
ghost use Rattle.std.specs.Prelude.{◌≡◌, OnOk, if◌then◌else◌};
ghost use Rattle.std.specs.Io.KnownBytes.{Appends};
ghost use Rattle.world.specs.World.{is_reply, next};
ghost use Rattle.script_text.specs.Scripts.{EndsAs, text_of, text_before_failure};
ghost use Rattle.script_text.specs.Stages.{Opening};
ghost use Rattle.run_script.specs.Run.{before_answer, TellsLine, command_of, event_text, run_reading};

use crate::answer_writer::answer_line;
use crate::lines::{check, mem, one_byte, perform};
use line_text::{
    Words, WriteFault, a_line, burst_lines, drained_line, mem_line, offer_line, reply_lines,
    work_line,
};
use script_text::{Form, Kind, ScriptFault, StagedScript, read_script};
use std::alloc::Global;
use std::io::{Read, Write};
use tl_messages::ReplyBox;
use world::{Answer, Setup, SetupFault, Step, World};

/// A script of `tlbridge run`.
#[derive(Drop)]
struct RunScript {
    reply: ReplyBox,
}

/// Writes what stands before an event's answer: the beat that was offered.
fn offered_beat<W: Write>(step: &Step, writer: &mut W) -> Result<(), WriteFault>
    ensures { OnOk result (Appends (W.contents writer.old) (W.contents writer.new) (before_answer step.now)) }
{
    match step {
        Step::Offer(client, beat) => a_line(*client, beat, writer),
        _ => Ok(()),
    }
}

/// Makes a step. It is apart for the prover, since what is written rests on this alone of what a world promises of a step. It is
/// inline, as the line of its answer is, so that no answer goes through memory.
#[inline(always)]
fn made(world: &mut World, step: &Step, reply: &mut ReplyBox) -> Answer
    ensures answer { result ≡ (next world.old step.now).answer }
    ensures state { world.new ≡ (next world.old step.now).state }
    ensures reply { reply.new ≡ (if is_reply result then (next world.old step.now).reply else reply.old) }
{
    world.step(step, reply)
}

/// Carries out an event and writes what it gave: the beat that was offered, the answer, and the burst that was sent or
/// the reply.
#[inline(always)]
fn event<W: Write>(
    world: &mut World,
    reply: &mut ReplyBox,
    step: &Step,
    writer: &mut W,
) -> Result<(), WriteFault>
    ensures text { OnOk result (Appends (W.contents writer.old) (W.contents writer.new) (event_text step.now (next world.old step.now))) }
    ensures state { OnOk result (world.new ≡ (next world.old step.now).state) }
{
    offered_beat(step, writer)?;
    let answer = made(world, step, reply);
    answer_line(&answer, writer)?;
    match (step, &answer) {
        (Step::Pump, Answer::Sent(_)) => burst_lines(world.last_burst(), writer),
        (Step::Take(client), Answer::Reply(_)) => reply_lines(*client, reply.as_slice(), writer),
        _ => Ok(()),
    }
}

/// Carries out the command that a line of this form says and writes its text, or answers the line's first wrong word. Each form has
/// its own way from the line to the world, so that no value has to hold whatever command there is.
#[inline(always)]
fn line<W: Write>(
    world: &mut World,
    reply: &mut ReplyBox,
    form: Form,
    words: &Words<'_>,
    writer: &mut W,
) -> Result<Result<(), WriteFault>, u32>
    ensures { TellsLine (command_of form words.now) world.old world.new (W.contents writer.old) (W.contents writer.new) result }
{
    let written = match form {
        Form::Offer => {
            let (client, beat) = offer_line(words)?;
            event(world, reply, &Step::Offer(client, beat), writer)
        }
        Form::Pump => {
            words.end(1)?;
            event(world, reply, &Step::Pump, writer)
        }
        Form::Perform => event(world, reply, &perform(words)?, writer),
        Form::AnswerB => event(world, reply, &Step::AnswerB(one_byte(words)?), writer),
        Form::AnswerR => event(world, reply, &Step::AnswerR(one_byte(words)?), writer),
        Form::Take => event(world, reply, &Step::Take(one_byte(words)?), writer),
        Form::Drain => {
            words.end(1)?;
            drained_line(world.drain(), writer)
        }
        Form::Mem => mem_line(world.byte(mem(words)?), writer),
        Form::Work => {
            words.end(1)?;
            work_line(world.work_left(), writer)
        }
        _ => return Err(1),
    };
    Ok(written)
}

impl Kind for RunScript {
    ghost use Rattle.std.specs.Prelude.{false};
    ghost use Rattle.script_text.proofs.StageSteps.{says_itself};
    ghost use Rattle.setups.specs.Setups.{SetupLists, lists_of};
    ghost use Rattle.run_script.specs.CommandTexts.{run_gives};
    ghost use Rattle.run_script.specs.Run.{Command, run_kind};
    ghost use Rattle.world.specs.World.{WorldState};

    type Setup = Setup;

    type Own = ();

    type World = World;

    ghost Lists = { SetupLists };

    ghost lists = { lists_of };

    ghost State = { WorldState };

    ghost said = { λ world. world };

    ghost Command = { Command };

    ghost rules = { run_kind };

    ghost grows = { false };

    fn most_lines() -> u32 {
        65_536
    }

    fn takes(_form: Form) -> bool {
        true
    }

    fn own_opening() {}

    fn own_line(_own: &(), _words: &Words<'_>) -> Option<Result<(), u32>> {
        None
    }

    fn passes(_words: &Words<'_>) -> bool {
        false
    }

    fn open(alloc: Global, _own: &(), setup: &Setup) -> Result<World, SetupFault> {
        World::new(alloc, setup)
    }

    fn wrong_first(_own: &(), _setup: &Setup, words: &Words<'_>) -> Option<u32> {
        check(words).err()
    }

    #[inline(always)]
    fn carry_line<W: Write>(
        &mut self,
        world: &mut World,
        number: u32,
        words: &Words<'_>,
        writer: &mut W,
    ) -> Result<bool, ScriptFault> {
        let Some(form) = Form::named(words.at(1)) else {
            return Err(ScriptFault::at(number, 1));
        };
        match line(world, &mut self.reply, form, words, writer) {
            Ok(written) => {
                written?;
                Ok(true)
            }
            Err(word) => Err(ScriptFault::at(number, word)),
        }
    }

    fn end<W: Write>(_world: &mut World, _writer: &mut W) -> Result<bool, ScriptFault> {
        Ok(false)
    }

    ghost gives_text = { run_gives };

    ghost adds_up = { says_itself _ _ };
}

/// Carries out a script and writes its trace, each command's text before the next line is read.
/// Memory is asked for before the first read, and at the first command, or at the input's end where there is none.
pub fn run_text<R: Read, W: Write>(
    alloc: Global,
    reader: &mut R,
    writer: &mut W,
) -> Result<bool, ScriptFault>
    ensures { EndsAs 65536 (text_of run_reading Opening) (text_before_failure run_reading Opening) (R.remaining reader.old) (R.remaining reader.new) (W.contents writer.old) (W.contents writer.new) result }
{
    let Ok(reply) = ReplyBox::new(alloc) else {
        return Err(ScriptFault::NoMemory);
    };
    let script = StagedScript::new(RunScript { reply });
    read_script(script, alloc, reader, writer)
}

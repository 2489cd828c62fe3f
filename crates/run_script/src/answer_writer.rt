//! The line of an answer in a trace.
ghost use Rattle.std.specs.Prelude.{◌≡◌, OnErr, OnOk};
ghost use Rattle.std.specs.Io.KnownBytes.{Appends};
ghost use Rattle.line_text.specs.Writing.{StopsShort};
ghost use Rattle.run_script.specs.Answers.{answer_text};

use line_text::{
    WriteFault, accepted_line, b_line, r_line, refused_line, reply_line, sent_line, write_text,
};
use std::io::Write;
use world::Answer;

/// Writes the line of an answer. It is inline, so that of the answers only those that a step gives are there.
#[inline(always)]
pub(crate) fn answer_line<W: Write>(answer: &Answer, writer: &mut W) -> Result<(), WriteFault>
    ensures all { OnOk result (Appends (W.contents writer.old) (W.contents writer.new) (answer_text answer.now)) }
    ensures front { OnErr result (StopsShort (answer_text answer.now) (W.contents writer.old) (W.contents writer.new)) }
{
    match answer {
        Answer::More => write_text(b"= more\n", writer),
        Answer::Accepted(number) => accepted_line(*number, writer),
        Answer::NotReady => write_text(b"= notready\n", writer),
        Answer::Exhausted => write_text(b"= exhausted\n", writer),
        Answer::Refused(rule) => refused_line(*rule, writer),
        Answer::NoClient => write_text(b"= noclient\n", writer),
        Answer::Sent(serial) => sent_line(*serial, writer),
        Answer::Idle => write_text(b"= idle\n", writer),
        Answer::Done => write_text(b"= done\n", writer),
        Answer::NoSuch => write_text(b"= nosuch\n", writer),
        Answer::Already => write_text(b"= already\n", writer),
        Answer::B(beat) => b_line(beat, writer),
        Answer::R(beat) => r_line(beat, writer),
        Answer::Nothing => write_text(b"= nothing\n", writer),
        Answer::Reply(number) => reply_line(*number, writer),
    }
}

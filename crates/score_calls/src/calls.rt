//! The commands that calls say.
ghost use Rattle.std.specs.Prelude.{◌≡◌};
ghost use Rattle.score_calls.specs.CallCommands.{a_command, ar_command, aw_command, b_command, channel_by, command_in, d_command, fill_command, on_axi, r_command, resp_of, unknown_command, w_command};

use crate::words::{CallKind, kind_of};
use axi_beats::{ArBeat, AwBeat, BBeat, RBeat, Resp, WBeat};
use axi_checker::AxiBeat;
use call_words::{byte_in, bytes_of, flag_in, low_in, word_at};
use score_script::{Channel, Command, FillBytes, SeenBeat};
use scoreboard::ObservedBeat;
use tl_messages::{ABeat, DBeat};

/// A beat on the AXI4 port, of which these lanes are unknown.
fn axi_command(beat: AxiBeat, unknown: u8) -> Command
    ensures { result ≡ on_axi beat unknown }
{
    Command::Observed(SeenBeat {
        beat: ObservedBeat::Axi(beat),
        unknown,
    })
}

fn a_command(head: u64, address: u64, payload: u64) -> Command
    ensures { result ≡ a_command head address payload }
{
    let beat = ABeat {
        opcode: byte_in(head / 65_536),
        param: byte_in(head / 16_777_216),
        size: byte_in(head / 4_294_967_296),
        source: byte_in(head / 1_099_511_627_776),
        address: low_in(address),
        mask: byte_in(head / 281_474_976_710_656),
        payload,
        corrupt: flag_in(head / 72_057_594_037_927_936),
    };
    Command::Observed(SeenBeat {
        beat: ObservedBeat::A(byte_in(head / 256), beat),
        unknown: byte_in(address / 4_294_967_296),
    })
}

fn d_command(head: u64, payload: u64) -> Command
    ensures { result ≡ d_command head payload }
{
    let beat = DBeat {
        opcode: byte_in(head / 65_536),
        param: byte_in(head / 16_777_216),
        size: byte_in(head / 4_294_967_296),
        source: byte_in(head / 1_099_511_627_776),
        denied: flag_in(head / 72_057_594_037_927_936),
        payload,
        corrupt: flag_in(head / 144_115_188_075_855_872),
    };
    Command::Observed(SeenBeat {
        beat: ObservedBeat::D(byte_in(head / 256), beat),
        unknown: byte_in(head / 281_474_976_710_656),
    })
}

fn aw_command(head: u64, address: u64) -> Command
    ensures { result ≡ aw_command head address }
{
    let beat = AwBeat {
        id: byte_in(head / 256),
        address: low_in(address),
        len: byte_in(head / 65_536),
        size: byte_in(head / 16_777_216),
        burst: byte_in(head / 4_294_967_296),
    };
    axi_command(AxiBeat::Aw(beat), 0)
}

fn ar_command(head: u64, address: u64) -> Command
    ensures { result ≡ ar_command head address }
{
    let beat = ArBeat {
        id: byte_in(head / 256),
        address: low_in(address),
        len: byte_in(head / 65_536),
        size: byte_in(head / 16_777_216),
        burst: byte_in(head / 4_294_967_296),
    };
    axi_command(AxiBeat::Ar(beat), 0)
}

fn w_command(head: u64, payload: u64) -> Command
    ensures { result ≡ w_command head payload }
{
    let beat = WBeat {
        payload,
        strobes: byte_in(head / 256),
        last: flag_in(head / 65_536),
    };
    axi_command(AxiBeat::W(beat), byte_in(head / 16_777_216))
}

/// A response, by its number on the wires (A3.4.4).
fn resp_of(number: u8) -> Resp
    ensures { result ≡ resp_of number }
{
    if number == 0 {
        return Resp::Okay;
    }
    if number == 1 {
        return Resp::ExOkay;
    }
    if number == 2 {
        return Resp::SlvErr;
    }
    Resp::DecErr
}

fn b_command(head: u64) -> Command
    ensures { result ≡ b_command head }
{
    let beat = BBeat {
        id: byte_in(head / 256),
        resp: resp_of(byte_in(head / 65_536)),
    };
    axi_command(AxiBeat::B(beat), 0)
}

fn r_command(head: u64, payload: u64) -> Command
    ensures { result ≡ r_command head payload }
{
    let beat = RBeat {
        id: byte_in(head / 256),
        payload,
        resp: resp_of(byte_in(head / 65_536)),
        last: flag_in(head / 16_777_216),
    };
    axi_command(AxiBeat::R(beat), byte_in(head / 4_294_967_296))
}

/// A channel, by the number that its beats have as heads; R for each other number.
fn channel_by(number: u8) -> Channel
    ensures { result ≡ channel_by number }
{
    if number == 0 {
        return Channel::A;
    }
    if number == 1 {
        return Channel::D;
    }
    if number == 2 {
        return Channel::Aw;
    }
    if number == 3 {
        return Channel::W;
    }
    if number == 4 {
        return Channel::B;
    }
    if number == 5 {
        return Channel::Ar;
    }
    Channel::R
}

fn unknown_command(head: u64) -> Command
    ensures { result ≡ unknown_command head }
{
    Command::Unknown(channel_by(byte_in(head / 256)), byte_in(head / 65_536))
}

fn fill_command(head: u64, words: &[u64]) -> Option<Command>
    ensures { result ≡ fill_command head words.now }
{
    let bytes = bytes_of(words, byte_in(head / 256));
    let held = FillBytes::of(bytes.as_slice())?;
    Some(Command::Fill(low_in(head / 4_294_967_296), held))
}

/// The command that a call says, if it says one.
pub(crate) fn command_in(head: u64, words: &[u64]) -> Option<Command>
    ensures { result ≡ command_in head words.now }
{
    match kind_of(head) {
        CallKind::A => Some(a_command(head, word_at(words, 0), word_at(words, 1))),
        CallKind::D => Some(d_command(head, word_at(words, 0))),
        CallKind::Aw => Some(aw_command(head, word_at(words, 0))),
        CallKind::W => Some(w_command(head, word_at(words, 0))),
        CallKind::B => Some(b_command(head)),
        CallKind::Ar => Some(ar_command(head, word_at(words, 0))),
        CallKind::R => Some(r_command(head, word_at(words, 0))),
        CallKind::Unknown => Some(unknown_command(head)),
        CallKind::Fill => fill_command(head, words),
        CallKind::Time => Some(Command::Time(word_at(words, 0))),
        CallKind::Drained => Some(Command::Observed(SeenBeat {
            beat: ObservedBeat::Drained,
            unknown: 0,
        })),
        CallKind::Reset => Some(Command::Reset),
        CallKind::End => Some(Command::End),
        _ => None,
    }
}

//! The lines of observed beats, and of the answers between them.
ghost use Rattle.std.specs.Prelude.{◌≡◌, ◌<◌, ◌≤◌, ◌+◌, IfOk, Ok, length, map, true};
ghost use Rattle.score_script.specs.declared.score.Command.TheVariants.{Answer, Observed};
ghost use Rattle.line_text.specs.Fields.{Reads, first_wrong};
ghost use Rattle.line_text.specs.Words.{word_at};
ghost use Rattle.score_script.specs.ObservedLines.{Stands, a_line, address_line, answer_command, ar_line, asked_command, aw_line, b_line, channel_command, channel_of, command_of, d_line, field_test, fields_behind, is_answer, is_of_client, is_settling, is_withdrawal, known, loose, only_settles, other_command, r_line, resp_field, resp_in, seen_line, time_line, unknown_line, w_line};

use crate::fills::fill_line;
use crate::score::Command;
use crate::unknown::{or_unknown, payload_at};
use crate::waits::{is_wait, waited_line};
use axi_beats::{ArBeat, AwBeat, BBeat, RBeat, Resp, WBeat};
use axi_checker::AxiBeat;
use line_text::Words;
use scoreboard::ObservedBeat;
use tl_messages::{ABeat, DBeat};

/// A channel on which beats are observed.
#[derive(Clone, Copy, Debug, PartialEq, Eq)]
pub enum Channel {
    /// TileLink requests.
    A,
    /// TileLink replies.
    D,
    /// Write addresses.
    Aw,
    /// Write data.
    W,
    /// Write responses.
    B,
    /// Read addresses.
    Ar,
    /// Read data.
    R,
}

impl Channel {
    /// The channel whose lines begin with this word.
    pub(crate) fn named(word: &[u8]) -> Option<Channel>
        ensures { result ≡ channel_of word.now }
    {
        match word {
            [b'A'] => Some(Channel::A),
            [b'D'] => Some(Channel::D),
            [b'A', b'W'] => Some(Channel::Aw),
            [b'W'] => Some(Channel::W),
            [b'B'] => Some(Channel::B),
            [b'A', b'R'] => Some(Channel::Ar),
            [b'R'] => Some(Channel::R),
            _ => None,
        }
    }

    /// Whether it is a client's, and none of the AXI4 port.
    fn is_of_client(self) -> bool
        ensures { result ≡ is_of_client self }
    {
        matches!(self, Channel::A | Channel::D)
    }
}

/// A beat that was observed, and the lanes of its payload that nobody knows, bit k for lane k.
#[derive(Clone, Copy, Debug, PartialEq, Eq)]
pub struct SeenBeat {
    /// The beat, with 0 in the place of each digit that nobody knows.
    pub beat: ObservedBeat,
    /// The lanes.
    pub unknown: u8,
}

impl SeenBeat {
    /// All of it is known.
    fn known(beat: ObservedBeat) -> Self
        ensures { result ≡ known beat }
    {
        SeenBeat { beat, unknown: 0 }
    }
}

/// A response, by its name.
fn resp(words: &Words<'_>, n: u32) -> Result<Resp, u32>
    requires { 0 < n }
    ensures { Reads (resp_field (word_at words.now n)) (resp_in (word_at words.now n)) n result }
{
    match words.at(n) {
        b"OKAY" => Ok(Resp::Okay),
        b"EXOKAY" => Ok(Resp::ExOkay),
        b"SLVERR" => Ok(Resp::SlvErr),
        b"DECERR" => Ok(Resp::DecErr),
        _ => Err(n),
    }
}

fn a_line(words: &Words<'_>) -> Result<SeenBeat, u32>
    ensures { result ≡ a_line words.now }
{
    let client = words.byte(2)?;
    let opcode = words.byte(3)?;
    let param = words.byte(4)?;
    let size = words.byte(5)?;
    let source = words.byte(6)?;
    let address = words.address(7)?;
    let mask = words.mask(8)?;
    let (payload, unknown) = payload_at(words, 9)?;
    let corrupt = words.flag(10)?;
    words.end(10)?;
    let beat = ABeat {
        opcode,
        param,
        size,
        source,
        address,
        mask,
        payload,
        corrupt,
    };
    Ok(SeenBeat {
        beat: ObservedBeat::A(client, beat),
        unknown,
    })
}

fn d_line(words: &Words<'_>) -> Result<SeenBeat, u32>
    ensures { result ≡ d_line words.now }
{
    let client = words.byte(2)?;
    let opcode = words.byte(3)?;
    let param = words.byte(4)?;
    let size = words.byte(5)?;
    let source = words.byte(6)?;
    let denied = words.flag(7)?;
    let (payload, unknown) = payload_at(words, 8)?;
    let corrupt = words.flag(9)?;
    words.end(9)?;
    let beat = DBeat {
        opcode,
        param,
        size,
        source,
        denied,
        payload,
        corrupt,
    };
    Ok(SeenBeat {
        beat: ObservedBeat::D(client, beat),
        unknown,
    })
}

fn aw_line(words: &Words<'_>) -> Result<SeenBeat, u32>
    ensures { result ≡ aw_line words.now }
{
    let id = words.byte(2)?;
    let address = words.address(3)?;
    let len = words.byte(4)?;
    let size = words.byte(5)?;
    let burst = words.byte(6)?;
    words.end(6)?;
    let beat = AwBeat {
        id,
        address,
        len,
        size,
        burst,
    };
    Ok(SeenBeat::known(ObservedBeat::Axi(AxiBeat::Aw(beat))))
}

fn ar_line(words: &Words<'_>) -> Result<SeenBeat, u32>
    ensures { result ≡ ar_line words.now }
{
    let id = words.byte(2)?;
    let address = words.address(3)?;
    let len = words.byte(4)?;
    let size = words.byte(5)?;
    let burst = words.byte(6)?;
    words.end(6)?;
    let beat = ArBeat {
        id,
        address,
        len,
        size,
        burst,
    };
    Ok(SeenBeat::known(ObservedBeat::Axi(AxiBeat::Ar(beat))))
}

fn w_line(words: &Words<'_>) -> Result<SeenBeat, u32>
    ensures { result ≡ w_line words.now }
{
    let (payload, unknown) = payload_at(words, 2)?;
    let strobes = words.mask(3)?;
    let last = words.flag(4)?;
    words.end(4)?;
    let beat = WBeat {
        payload,
        strobes,
        last,
    };
    Ok(SeenBeat {
        beat: ObservedBeat::Axi(AxiBeat::W(beat)),
        unknown,
    })
}

fn b_line(words: &Words<'_>) -> Result<SeenBeat, u32>
    ensures { result ≡ b_line words.now }
{
    let id = words.byte(2)?;
    let resp = resp(words, 3)?;
    words.end(3)?;
    let beat = BBeat { id, resp };
    Ok(SeenBeat::known(ObservedBeat::Axi(AxiBeat::B(beat))))
}

fn r_line(words: &Words<'_>) -> Result<SeenBeat, u32>
    ensures { result ≡ r_line words.now }
{
    let id = words.byte(2)?;
    let (payload, unknown) = payload_at(words, 3)?;
    let resp = resp(words, 4)?;
    let last = words.flag(5)?;
    words.end(5)?;
    let beat = RBeat {
        id,
        payload,
        resp,
        last,
    };
    Ok(SeenBeat {
        beat: ObservedBeat::Axi(AxiBeat::R(beat)),
        unknown,
    })
}

/// The beat that a channel's line says, or its first wrong word. It is inline, so that a beat goes from its line to its verdict through
/// no memory.
#[inline(always)]
fn seen_line(channel: Channel, words: &Words<'_>) -> Result<SeenBeat, u32>
    ensures { result ≡ seen_line channel words.now }
{
    match channel {
        Channel::A => a_line(words),
        Channel::D => d_line(words),
        Channel::Aw => aw_line(words),
        Channel::W => w_line(words),
        Channel::B => b_line(words),
        Channel::Ar => ar_line(words),
        Channel::R => r_line(words),
    }
}

/// A field of an observed beat.
#[derive(Clone, Copy)]
enum BeatField {
    /// A decimal number of 8 bits.
    Byte,
    /// An address.
    Address,
    /// A mask or strobes.
    Mask,
    /// A payload.
    Payload,
    /// A flag.
    Flag,
    /// A response, by its name.
    Response,
}

use BeatField::{Address, Byte, Flag, Mask, Payload, Response};

impl BeatField {
    /// Whether word `n` is such a field.
    fn is_right(self, words: &Words<'_>, n: u32) -> bool
        requires { 0 < n }
        ensures { result ≡ field_test self (word_at words.now n) }
    {
        match self {
            Byte => words.byte(n).is_ok(),
            Address => words.address(n).is_ok(),
            Mask => words.mask(n).is_ok(),
            Payload => payload_at(words, n).is_ok(),
            Flag => words.flag(n).is_ok(),
            Response => resp(words, n).is_ok(),
        }
    }
}

/// The fields of a channel's lines behind its name, but for the client.
fn fields_behind(channel: Channel) -> &'static [BeatField]
    ensures fields { map field_test result.now ≡ fields_behind channel }
    ensures few { length result.now ≤ 8 }
{
    match channel {
        Channel::A => &[Byte, Byte, Byte, Byte, Address, Mask, Payload, Flag],
        Channel::D => &[Byte, Byte, Byte, Byte, Flag, Payload, Flag],
        Channel::Aw | Channel::Ar => &[Byte, Address, Byte, Byte, Byte],
        Channel::W => &[Payload, Mask, Flag],
        Channel::B => &[Byte, Response],
        Channel::R => &[Byte, Payload, Response, Flag],
    }
}

/// That a line's fields from word `from` on are these, each right or one that nobody knows, and that it has no more.
fn fields_stand(words: &Words<'_>, fields: &[BeatField], from: u32) -> Result<(), u32>
    requires { (0 < from) × (from + length fields.now ≤ 64) }
    ensures { Stands (first_wrong (loose (map field_test fields.now)) words.now from) result }
{
    let mut n = from;
    for field in fields {
        or_unknown(words, n, field.is_right(words, n))?;
        n += 1;
    }
    words.end(n - 1)
}

/// The client of a beat of which nobody knows a field but its payload, 0 on the AXI4 port; or its first wrong word.
fn unknown_line(channel: Channel, words: &Words<'_>) -> Result<u8, u32>
    ensures { result ≡ unknown_line channel words.now }
{
    let fields = fields_behind(channel);
    if !channel.is_of_client() {
        fields_stand(words, fields, 2)?;
        return Ok(0);
    }
    let client = words.byte(2)?;
    fields_stand(words, fields, 3)?;
    Ok(client)
}

/// What a channel's line says, or its first wrong word.
fn channel_command(channel: Channel, words: &Words<'_>) -> Result<Command, u32>
    ensures { result ≡ channel_command channel words.now }
{
    if let Ok(seen) = seen_line(channel, words) {
        return Ok(Command::Observed(seen));
    }
    let client = unknown_line(channel, words)?;
    Ok(Command::Unknown(channel, client))
}

/// `mem ADDRESS`.
fn address_line(words: &Words<'_>) -> Result<u32, u32>
    ensures { result ≡ address_line words.now }
{
    let address = words.address(2)?;
    words.end(2)?;
    Ok(address)
}

/// `time TIME`.
fn time_line(words: &Words<'_>) -> Result<u64, u32>
    ensures { result ≡ time_line words.now }
{
    let time = words.dec(2, u64::MAX)?;
    words.end(2)?;
    Ok(time)
}

/// Whether an answer, by the word after `=`, says that the beat straight before it wasn't taken.
pub(crate) fn is_withdrawal(word: &[u8]) -> bool
    ensures { result ≡ is_withdrawal word.now }
{
    word == b"noclient".as_slice()
        || word == b"refused".as_slice()
        || word == b"notready".as_slice()
        || word == b"exhausted".as_slice()
}

/// An answer, by the word after `=`.
#[inline(always)]
fn answer_command(word: &[u8]) -> Command
    ensures { result ≡ answer_command word.now }
{
    if is_withdrawal(word) {
        return Command::Withdrawal;
    }
    if word == b"drained".as_slice() {
        return Command::Observed(SeenBeat::known(ObservedBeat::Drained));
    }
    if word == b"reset".as_slice() {
        return Command::Reset;
    }
    if word == b"end".as_slice() {
        return Command::End;
    }
    Command::Answer
}

fn is_answer(words: &Words<'_>) -> bool
    ensures { result ≡ is_answer words.now }
{
    words.at(1) == b"=".as_slice()
}

/// Whether an answer, by the word after `=`, does nothing but settle the beat before it. Those that come most are told by how they
/// begin.
fn settles(word: &[u8]) -> bool
    ensures { result ≡ is_settling (answer_command word.now) }
{
    match word {
        [b'a' | b'm' | b's', ..] | [b'r', b'e', b'p', ..] | [b'd', b'o', ..] => true,
        _ => matches!(answer_command(word), Command::Answer),
    }
}

/// Whether a line does nothing but settle the beat before it.
pub(crate) fn only_settles(words: &Words<'_>) -> bool
    ensures value { result ≡ only_settles words.now }
    ensures answer { result ≡ true → command_of words.now ≡ Ok Answer }
{
    is_answer(words) && settles(words.at(2))
}

/// What a question, a filling or a time says, or its first wrong word.
fn other_command(words: &Words<'_>) -> Result<Command, u32>
    ensures { result ≡ other_command words.now }
{
    match words.at(1) {
        b"mem" => Ok(Command::Byte(address_line(words)?)),
        b"fill" => fill_line(words),
        b"time" => Ok(Command::Time(time_line(words)?)),
        _ => Err(1),
    }
}

/// What a line of a channel, or else a wait, a question, a filling or a time, says, or its first wrong word.
fn asked_command(words: &Words<'_>, channel: Option<Channel>) -> Result<Command, u32>
    ensures { result ≡ asked_command words.now channel }
{
    if let Some(channel) = channel {
        return channel_command(channel, words);
    }
    if is_wait(words) {
        return waited_line(words);
    }
    other_command(words)
}

/// What a line says that isn't one of the set-up, or its first wrong word.
pub(crate) fn command_of(words: &Words<'_>) -> Result<Command, u32>
    ensures { result ≡ command_of words.now }
{
    if is_answer(words) {
        return Ok(answer_command(words.at(2)));
    }
    asked_command(words, Channel::named(words.at(1)))
}

/// The beat that a line says, where nobody need know more of it than its fields; a wrong word of any other line.
#[inline(always)]
pub(crate) fn known_beat(words: &Words<'_>) -> Result<SeenBeat, u32>
    ensures { IfOk result (λ seen. command_of words.now ≡ Ok (Observed seen)) }
{
    let Some(channel) = Channel::named(words.at(1)) else {
        return Err(1);
    };
    seen_line(channel, words)
}

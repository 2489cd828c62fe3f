//! What the words of a call say: which call it is, how many words it wants, and the step that it makes.
ghost use Rattle.std.specs.Prelude.{◌≡◌, ◌%◌, get_or};
ghost use Rattle.bridge_calls.specs.CallKinds.{kind_of, kinds, offer_beat, short_in, step_in};
ghost use Rattle.bridge_calls.specs.declared.kinds.CallKind.TheVariants as kind;

use call_words::{byte_in, flag_in, low_in, word_at};
use tl_messages::ABeat;
use world_run::Step;

/// What is called.
#[derive(Clone, Copy)]
pub(crate) enum CallKind {
    /// A client offers a beat: two words more, the address and the payload.
    Offer,
    /// The bridge sends a burst.
    Pump,
    /// The memory performs a beat: a word more, the serial of its burst.
    Perform,
    /// The memory gives the B of an ID.
    AnswerB,
    /// The memory gives the R of an ID.
    AnswerR,
    /// A client takes a reply.
    Take,
    /// All happens that can happen without the clients.
    Drain,
    /// A line of the set-up: its bytes by eights.
    Line,
    /// The set-up is whole.
    Begin,
    /// All is given back but the handle itself.
    Close,
    /// How many bytes the text of the last fault has.
    FaultLength,
    /// A byte of that text; 0 behind its end.
    TextByte,
    /// The number that belongs to the last step's answer.
    AnswerNumber,
    /// The payload that belongs to it.
    AnswerPayload,
    /// How many steps bridge and memory can make by themselves.
    Choices,
    /// One of these steps.
    Choice,
    /// The serial of one of them.
    ChoiceSerial,
    /// The byte at an address.
    Byte,
    /// How much work is left.
    Work,
    /// How many requests are in flight.
    InFlight,
    /// The burst that was sent last.
    Burst,
    /// Its address.
    BurstAddress,
    /// The payload of one of its W beats.
    BurstData,
    /// The strobes of one of its W beats.
    BurstStrobes,
    /// How many beats the reply has that was taken last.
    ReplyBeats,
    /// The fields of one of its beats.
    ReplyFields,
    /// The payload of one of its beats.
    ReplyPayload,
    /// Nothing that there is.
    None,
}

/// What is called, by the number that it has.
fn kinds() -> &'static [CallKind]
    ensures { result.now ≡ kinds }
{
    &[
        CallKind::Offer,
        CallKind::Pump,
        CallKind::Perform,
        CallKind::AnswerB,
        CallKind::AnswerR,
        CallKind::Take,
        CallKind::Drain,
        CallKind::Line,
        CallKind::Begin,
        CallKind::Close,
        CallKind::FaultLength,
        CallKind::TextByte,
        CallKind::AnswerNumber,
        CallKind::AnswerPayload,
        CallKind::Choices,
        CallKind::Choice,
        CallKind::ChoiceSerial,
        CallKind::Byte,
        CallKind::Work,
        CallKind::InFlight,
        CallKind::Burst,
        CallKind::BurstAddress,
        CallKind::BurstData,
        CallKind::BurstStrobes,
        CallKind::ReplyBeats,
        CallKind::ReplyFields,
        CallKind::ReplyPayload,
    ]
}

/// The kind at a place of a table; none behind its end.
fn kind_at(table: &[CallKind], place: usize) -> CallKind
    ensures { result ≡ get_or table.now place kind.None }
{
    match table.get(place) {
        Some(kind) => *kind,
        None => CallKind::None,
    }
}

/// What a head says is called: by its lowest byte.
pub(crate) fn kind_of(head: u64) -> CallKind
    ensures { result ≡ kind_of head }
{
    let table = kinds();
    kind_at(table, (head % 256) as usize)
}

/// The two lowest bytes of a word.
fn short_in(word: u64) -> u16
    ensures { result ≡ short_in word }
{
    (word % 65_536) as u16
}

/// The beat that an offer says.
fn offer_beat(head: u64, address: u64, payload: u64) -> ABeat
    ensures { result ≡ offer_beat head address payload }
{
    ABeat {
        opcode: byte_in(head / 65_536),
        param: byte_in(head / 16_777_216),
        size: byte_in(head / 4_294_967_296),
        source: byte_in(head / 1_099_511_627_776),
        address: low_in(address),
        mask: byte_in(head / 281_474_976_710_656),
        corrupt: flag_in(head / 72_057_594_037_927_936),
        payload,
    }
}

/// The step that a call makes, if it makes one.
pub(crate) fn step_in(head: u64, words: &[u64]) -> Option<Step>
    ensures { result ≡ step_in head words.now }
{
    match kind_of(head) {
        CallKind::Offer => {
            let beat = offer_beat(head, word_at(words, 0), word_at(words, 1));
            Some(Step::Offer(byte_in(head / 256), beat))
        }
        CallKind::Pump => Some(Step::Pump),
        CallKind::Perform => Some(Step::Perform(word_at(words, 0), short_in(head / 256))),
        CallKind::AnswerB => Some(Step::AnswerB(byte_in(head / 256))),
        CallKind::AnswerR => Some(Step::AnswerR(byte_in(head / 256))),
        CallKind::Take => Some(Step::Take(byte_in(head / 256))),
        _ => None,
    }
}

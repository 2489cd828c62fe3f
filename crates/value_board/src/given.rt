//! What a whole message gives to each word.
ghost use Rattle.std.specs.Prelude.{◌≡◌};
ghost use Rattle.tl_messages.specs.Requests.{beat_at};
ghost use Rattle.value_board.specs.Given.{given_word, giving_of, is_atomic, is_sure, known_given, lanes_given};

use byte_values::KnownBytes;
use data_unit::full_mask;
use scoreboard::Errors;
use tl_messages::{MaskedWord, Operation, Request};

/// What a request gives to a word: the lanes to which it gives something, bit k for lane k, and what of that is known.
#[derive(Clone, Copy, Debug, PartialEq, Eq)]
pub(crate) struct GivenWord {
    /// The lanes.
    pub(crate) lanes: u8,
    /// What is known.
    pub(crate) known: KnownBytes,
}

/// How much of what a request gives counts.
#[derive(Clone, Copy, Debug, PartialEq, Eq)]
pub(crate) enum Giving {
    /// Nothing: it isn't carried out.
    Nothing,
    /// Nothing: it reads a word that went bad, so that it has no effect.
    Refused,
    /// It has failed: it may leave any bytes, or none.
    Anything,
    /// All, as it says.
    AsItSays,
}

/// Bytes of which nobody knows any.
pub(crate) const UNKNOWN: KnownBytes = KnownBytes { value: 0, lanes: 0 };

/// Payload and mask of beat `k` of a message; zero where there is no such beat.
pub(crate) fn beat_of(request: &Request, k: u32) -> MaskedWord
    ensures { result ≡ beat_at request.now k }
{
    if k >= u32::from(request.beats()) {
        return MaskedWord { word: 0, mask: 0 };
    }
    let k = k as u16;
    MaskedWord {
        word: request.word(k),
        mask: request.mask(k),
    }
}

/// The lanes of word `k` to which a message with data gives something that acts at an address: those of its mask; an atomic to all that it
/// acts on.
fn lanes_given(request: &Request, address: u32, k: u32) -> u8
    ensures { result ≡ lanes_given (is_atomic request.now.operation) request.now address k }
{
    match request.operation() {
        Operation::Atomic(_) => full_mask(address, request.size()),
        _ => beat_of(request, k).mask,
    }
}

/// What is known of that, where nobody knows some lanes.
fn known_given(request: &Request, k: u32, hidden: u8) -> KnownBytes
    ensures { result ≡ known_given (is_atomic request.now.operation) request.now k hidden }
{
    match request.operation() {
        Operation::Atomic(_) => UNKNOWN,
        _ => KnownBytes {
            value: beat_of(request, k).word,
            lanes: !hidden,
        },
    }
}

/// What a message with data that acts at an address gives to word `k` of those from there on, where nobody knows some lanes of its beat.
pub(crate) fn given_word(
    giving: Giving,
    request: &Request,
    address: u32,
    k: u32,
    hidden: u8,
) -> GivenWord
    ensures { result ≡ given_word giving request.now address k hidden }
{
    match giving {
        Giving::Nothing | Giving::Refused => GivenWord {
            lanes: 0,
            known: UNKNOWN,
        },
        Giving::Anything => GivenWord {
            lanes: lanes_given(request, address, k),
            known: UNKNOWN,
        },
        Giving::AsItSays => GivenWord {
            lanes: lanes_given(request, address, k),
            known: known_given(request, k, hidden),
        },
    }
}

/// How much of what a message gives counts, by whether a read of its word is refused, and whether it has failed.
pub(crate) fn giving_of(errors: Errors, refuses: bool, failed: bool, request: &Request) -> Giving
    ensures { result ≡ giving_of errors refuses failed request.now }
{
    if errors == Errors::Strict && request.corrupt() {
        return Giving::Nothing;
    }
    match (request.operation(), failed) {
        (Operation::Atomic(_), false) if refuses => Giving::Refused,
        (Operation::Atomic(_), true) if refuses => Giving::Nothing,
        (_, true) => Giving::Anything,
        (_, false) => Giving::AsItSays,
    }
}

/// Whether a message takes effect, by how much of what it gives counts.
pub(crate) fn is_sure(giving: Giving) -> bool
    ensures { result ≡ is_sure giving }
{
    matches!(giving, Giving::Refused | Giving::AsItSays)
}

//! Why a line of an observation is at fault.
ghost use Rattle.std.specs.Prelude.{◌≡◌, ◌<◌, None, Some, MatchOption};
ghost use Rattle.std.specs.List.{list_all};
ghost use Rattle.line_text.specs.Words.{word_at};
ghost use Rattle.score_script.specs.FaultReasons.{beat_fields, fault_reason, field_at, field_reason, fields_of, is_decimal_digit, is_hexadecimal_digit, line_reason, number_reason, other_fields, reason_text, setup_fields, word_reason};

use line_text::Words;
use script_text::{ScriptFault, StoppedLine};

/// The most lines.
const MOST_LINES: u32 = 4_294_967_294;

/// The most bytes of a line.
const LINE_BYTES: usize = 128;

/// What a field of a line is.
#[derive(Clone, Copy, Debug, PartialEq, Eq)]
pub(crate) enum FieldKind {
    /// A decimal number.
    Decimal,
    /// A hexadecimal number.
    Hexadecimal,
    /// `0` or `1`.
    Flag,
    /// A hexadecimal address of a good page.
    Place,
    /// A name.
    Name,
}

use FieldKind::{Decimal, Flag, Hexadecimal, Name, Place};

/// Why a line is at fault.
#[derive(Clone, Copy, Debug, PartialEq, Eq)]
pub enum FaultReason {
    /// There are more lines than there may be.
    TooManyLines,
    /// The line has too many bytes.
    LineTooLong,
    /// A byte may not stand in a line.
    ByteNotAllowed,
    /// The input ends before its `config` line.
    NoConfig,
    /// No line begins with its first word.
    NoSuchLine,
    /// A line that begins so may not stand there.
    LineNotAllowed,
    /// A word is missing.
    WordMissing,
    /// There is a word too many.
    WordTooMany,
    /// A number is too small, too large, or has too many digits.
    NumberOutOfRange,
    /// A word is no decimal number.
    NoDecimal,
    /// A word is no hexadecimal number.
    NoHexadecimal,
    /// A word is neither `0` nor `1`.
    NoFlag,
    /// Bytes lie outside the good pages.
    NoGoodPage,
    /// A name may not stand there.
    WordNotAllowed,
}

impl FaultReason {
    /// What it is in a text.
    pub fn text(self) -> &'static str
        ensures { result.now ≡ reason_text self }
    {
        match self {
            FaultReason::TooManyLines => "more lines than there may be",
            FaultReason::LineTooLong => "a line of more than 128 bytes",
            FaultReason::ByteNotAllowed => "a byte that isn't printable ASCII",
            FaultReason::NoConfig => "the input ends without a config line",
            FaultReason::NoSuchLine => "no line begins with this word",
            FaultReason::LineNotAllowed => "such a line may not stand here",
            FaultReason::WordMissing => "a word is missing",
            FaultReason::WordTooMany => "a word too many",
            FaultReason::NumberOutOfRange => "a number out of range",
            FaultReason::NoDecimal => "this is no decimal number",
            FaultReason::NoHexadecimal => "this is no hexadecimal number",
            FaultReason::NoFlag => "this is neither 0 nor 1",
            FaultReason::NoGoodPage => "not all bytes lie on good pages",
            FaultReason::WordNotAllowed => "this word may not stand here",
        }
    }
}

/// The fields of a line of the set-up behind its first word, if one begins with this word.
fn setup_fields(first: &[u8]) -> Option<&'static [FieldKind]>
    ensures { MatchOption result (setup_fields first.now ≡ None) (λ fields. setup_fields first.now ≡ Some fields.now) }
{
    if first == b"config".as_slice() {
        return Some(&[
            Decimal, Decimal, Decimal, Decimal, Decimal, Decimal, Name, Decimal,
        ]);
    }
    if first == b"region".as_slice() {
        return Some(&[Hexadecimal, Decimal, Hexadecimal, Name]);
    }
    if first == b"page".as_slice() {
        return Some(&[Hexadecimal, Decimal, Name]);
    }
    if first == b"bad".as_slice() {
        return Some(&[Hexadecimal]);
    }
    if first == b"profile".as_slice() {
        return Some(&[Name]);
    }
    if first == b"axi".as_slice() {
        return Some(&[Name]);
    }
    if first == b"errors".as_slice() {
        return Some(&[Name]);
    }
    if first == b"x".as_slice() {
        return Some(&[Name]);
    }
    None
}

/// The same of a beat.
fn beat_fields(first: &[u8]) -> Option<&'static [FieldKind]>
    ensures { MatchOption result (beat_fields first.now ≡ None) (λ fields. beat_fields first.now ≡ Some fields.now) }
{
    if first == b"A".as_slice() {
        return Some(&[
            Decimal,
            Decimal,
            Decimal,
            Decimal,
            Decimal,
            Hexadecimal,
            Hexadecimal,
            Hexadecimal,
            Flag,
        ]);
    }
    if first == b"D".as_slice() {
        return Some(&[
            Decimal,
            Decimal,
            Decimal,
            Decimal,
            Decimal,
            Flag,
            Hexadecimal,
            Flag,
        ]);
    }
    if first == b"AW".as_slice() {
        return Some(&[Decimal, Hexadecimal, Decimal, Decimal, Decimal]);
    }
    if first == b"AR".as_slice() {
        return Some(&[Decimal, Hexadecimal, Decimal, Decimal, Decimal]);
    }
    if first == b"W".as_slice() {
        return Some(&[Hexadecimal, Hexadecimal, Flag]);
    }
    if first == b"B".as_slice() {
        return Some(&[Decimal, Name]);
    }
    if first == b"R".as_slice() {
        return Some(&[Decimal, Hexadecimal, Name, Flag]);
    }
    None
}

/// The same of any other line.
fn other_fields(first: &[u8]) -> Option<&'static [FieldKind]>
    ensures { MatchOption result (other_fields first.now ≡ None) (λ fields. other_fields first.now ≡ Some fields.now) }
{
    if first == b"fill".as_slice() {
        return Some(&[Place]);
    }
    if first == b"time".as_slice() {
        return Some(&[Decimal]);
    }
    if first == b"waited".as_slice() {
        return Some(&[Name, Decimal]);
    }
    if first == b"mem".as_slice() {
        return Some(&[Hexadecimal]);
    }
    if first == b"=".as_slice() {
        return Some(&[]);
    }
    None
}

/// The fields of a line behind its first word, if one begins with this word.
fn fields_of(first: &[u8]) -> Option<&'static [FieldKind]>
    ensures { MatchOption result (fields_of first.now ≡ None) (λ fields. fields_of first.now ≡ Some fields.now) }
{
    if let Some(fields) = setup_fields(first) {
        return Some(fields);
    }
    if let Some(fields) = beat_fields(first) {
        return Some(fields);
    }
    other_fields(first)
}

/// Field `n` of a line, by its first word and the fields behind it: a `fill` line has up to 32 bytes behind its place.
fn field_at(first: &[u8], fields: &[FieldKind], n: u32) -> Option<FieldKind>
    requires { 1 < n }
    ensures { result ≡ field_at first.now fields.now n }
{
    if n > 2 && n <= 34 && first == b"fill".as_slice() {
        return Some(Hexadecimal);
    }
    fields.get(n as usize - 2).copied()
}

/// Whether each byte of a word is a decimal digit.
fn are_decimal(word: &[u8]) -> bool
    ensures { result ≡ list_all is_decimal_digit word.now }
{
    word.iter().all(|digit| b'0' <= *digit && *digit <= b'9')
}

/// Whether each is a hexadecimal digit of either case.
fn are_hexadecimal(word: &[u8]) -> bool
    ensures { result ≡ list_all is_hexadecimal_digit word.now }
{
    word.iter().all(|digit| {
        b'0' <= *digit && *digit <= b'9'
            || b'a' <= *digit && *digit <= b'f'
            || b'A' <= *digit && *digit <= b'F'
    })
}

/// Why a word isn't a number that may stand there.
fn number_reason(are_digits: bool, other: FaultReason) -> FaultReason
    ensures { result ≡ number_reason are_digits other }
{
    if are_digits {
        return FaultReason::NumberOutOfRange;
    }
    other
}

/// Why word `n` may not stand in the place of such a field.
fn field_reason(field: FieldKind, words: &Words<'_>, n: u32) -> FaultReason
    requires { 0 < n }
    ensures { result ≡ field_reason field (word_at words.now n) }
{
    match field {
        Decimal => number_reason(are_decimal(words.at(n)), FaultReason::NoDecimal),
        Place if words.address(n).is_ok() => FaultReason::NoGoodPage,
        Hexadecimal | Place => {
            number_reason(are_hexadecimal(words.at(n)), FaultReason::NoHexadecimal)
        }
        Flag => FaultReason::NoFlag,
        Name => FaultReason::WordNotAllowed,
    }
}

/// Why word `n` of a line may not stand there.
fn word_reason(words: &Words<'_>, n: u32) -> FaultReason
    requires { 0 < n }
    ensures { result ≡ word_reason words.now n }
{
    let first = words.at(1);
    if first.is_empty() {
        return FaultReason::NoConfig;
    }
    if words.at(n).is_empty() {
        return FaultReason::WordMissing;
    }
    let Some(fields) = fields_of(first) else {
        return FaultReason::NoSuchLine;
    };
    if n == 1 {
        return FaultReason::LineNotAllowed;
    }
    match field_at(first, fields, n) {
        Some(field) => field_reason(field, words, n),
        None => FaultReason::WordTooMany,
    }
}

/// Why a line is at fault, by its number and the first wrong word.
fn line_reason(number: u32, word: u32, line: &[u8]) -> FaultReason
    ensures { result ≡ line_reason number word line.now }
{
    if word == 0 && number > MOST_LINES {
        return FaultReason::TooManyLines;
    }
    if line.len() > LINE_BYTES {
        return FaultReason::LineTooLong;
    }
    if word == 0 {
        return FaultReason::ByteNotAllowed;
    }
    let mut words = Words::new();
    words.read(line);
    word_reason(&words, word)
}

/// Why an observation ended with a fault of its text, by the line at which it stopped.
pub fn fault_reason(fault: &ScriptFault, stopped: &StoppedLine) -> Option<FaultReason>
    ensures { result ≡ fault_reason fault.now stopped.now }
{
    match fault {
        ScriptFault::Script { line, word } => Some(line_reason(*line, *word, stopped.bytes())),
        _ => None,
    }
}

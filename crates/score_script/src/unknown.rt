//! Digits that stand for bits that nobody knows, x and z, as simulators print them.
ghost use Rattle.std.specs.Prelude.{◌≡◌, ◌<◌, ◌≤◌, ◌^◌, length, ◌+◌, ◌*◌, ◌||◌, MatchOption, MatchResult, false, true};
ghost use Rattle.std.specs.Char.{digit_value, is_digit};
ghost use Rattle.std.specs.List.{list_all, list_any};
ghost use Rattle.std.specs.Str.Parse.{digits_value};
ghost use Rattle.line_text.specs.Fields.{Reads};
ghost use Rattle.line_text.specs.Words.{number_of, word_at};
ghost use Rattle.score_script.specs.UnknownDigits.{StandsAt, are_loose_digits, is_unknown_at, is_unknown_digit, known_digit, known_word, payload_at, payload_field, unknown_field, unknown_lanes};

use bus_words::mask_of;
use line_text::Words;

/// The most digits of a payload.
const PAYLOAD_DIGITS: usize = 16;

/// The most digits of any other field of which nobody knows a digit.
const FIELD_DIGITS: usize = 20;

/// Whether a digit stands for bits that nobody knows.
fn is_unknown_digit(digit: u8) -> bool
    ensures { result ≡ is_unknown_digit digit }
{
    matches!(digit, b'x' | b'X' | b'z' | b'Z')
}

/// The value of a hexadecimal digit of either case, if a byte is one; 0 of one that nobody knows.
fn digit_value(byte: u8) -> Option<u8>
    ensures { MatchOption result (is_digit (known_digit byte) 16 ≡ false) (λ value. (is_digit (known_digit byte) 16 ≡ true) × (value ≡ digit_value (known_digit byte))) }
{
    match byte {
        b'0'..=b'9' => Some(byte - b'0'),
        b'a'..=b'f' => Some(byte - b'a' + 10),
        b'A'..=b'F' => Some(byte - b'A' + 10),
        _ if is_unknown_digit(byte) => Some(0),
        _ => None,
    }
}

/// Whether a byte is a hexadecimal digit of either case, or one that nobody knows.
fn is_loose_digit(byte: u8) -> bool
    ensures { result ≡ is_digit (known_digit byte) 16 }
{
    digit_value(byte).is_some()
}

/// The number that at most 16 hexadecimal digits write, with 0 in the place of each that nobody knows.
fn known_value(word: &[u8]) -> Option<u64>
    requires { length word.now ≤ 16 }
    ensures { MatchOption result (list_all (λ digit. is_digit digit 16) (known_word word.now) ≡ false) (λ value. (list_all (λ digit. is_digit digit 16) (known_word word.now) ≡ true) × (value ≡ digits_value 16 (known_word word.now)) × (value < 2 ^ 64)) }
{
    let mut value = 0;
    for byte in word {
        let Some(digit) = digit_value(*byte) else {
            return None;
        };
        value = value * 16 + u64::from(digit);
    }
    Some(value)
}

/// The same of 1 to 16, and none of any other word.
fn known_number(word: &[u8]) -> Option<u64>
    ensures { result ≡ number_of 16 16 (known_word word.now) }
{
    if word.is_empty() || word.len() > PAYLOAD_DIGITS {
        return None;
    }
    known_value(word)
}

/// Whether a word has a digit that nobody knows.
fn has_unknown(word: &[u8]) -> bool
    ensures { result ≡ list_any is_unknown_digit word.now }
{
    word.iter().any(|digit| is_unknown_digit(*digit))
}

/// Whether each byte is a digit, of which nobody need know any.
fn has_digits_alone(word: &[u8]) -> bool
    ensures { result ≡ list_all (λ digit. is_digit (known_digit digit) 16) word.now }
{
    word.iter().all(|byte| is_loose_digit(*byte))
}

/// Whether a word is 1 to 20 digits, of which nobody need know any.
fn are_digits(word: &[u8]) -> bool
    ensures { result ≡ are_loose_digits 20 word.now }
{
    !word.is_empty() && word.len() <= FIELD_DIGITS && has_digits_alone(word)
}

/// Whether nobody knows digit `k` of a number, from its last. One digit alone may stand for a whole number.
fn is_unknown_at(word: &[u8], k: usize) -> bool
    ensures { result ≡ is_unknown_at word.now k }
{
    let length = word.len();
    if length == 1 {
        return is_unknown_digit(word[0]);
    }
    if k >= length {
        return false;
    }
    is_unknown_digit(word[length - 1 - k])
}

/// Whether nobody knows a lane of a payload.
fn is_unknown_lane(word: &[u8], lane: usize) -> bool
    requires { lane < 8 }
    ensures { result ≡ (is_unknown_at word.now (2 * lane) || is_unknown_at word.now (2 * lane + 1)) }
{
    is_unknown_at(word, 2 * lane) || is_unknown_at(word, 2 * lane + 1)
}

/// The lanes of a payload that nobody knows, bit k for lane k.
fn unknown_lanes(word: &[u8]) -> u8
    ensures { result ≡ unknown_lanes word.now }
{
    mask_of([
        is_unknown_lane(word, 0),
        is_unknown_lane(word, 1),
        is_unknown_lane(word, 2),
        is_unknown_lane(word, 3),
        is_unknown_lane(word, 4),
        is_unknown_lane(word, 5),
        is_unknown_lane(word, 6),
        is_unknown_lane(word, 7),
    ])
}

/// A payload, and the lanes of it that nobody knows.
pub(crate) fn payload_at(words: &Words<'_>, n: u32) -> Result<(u64, u8), u32>
    requires { 0 < n }
    ensures { Reads (payload_field (word_at words.now n)) (payload_at words.now n, unknown_lanes (word_at words.now n)) n result }
{
    if let Ok(payload) = words.hex(n, u64::MAX) {
        return Ok((payload, 0));
    }
    let word = words.at(n);
    match known_number(word) {
        Some(payload) => Ok((payload, unknown_lanes(word))),
        None => Err(n),
    }
}

/// Whether nobody knows a field, whatever it is for.
fn is_unknown_field(word: &[u8]) -> bool
    ensures { result ≡ unknown_field word.now }
{
    has_unknown(word) && are_digits(word)
}

/// That word `n` is right, as it is said, or one that nobody knows.
pub(crate) fn or_unknown(words: &Words<'_>, n: u32, right: bool) -> Result<(), u32>
    requires { 0 < n }
    ensures { StandsAt (right || unknown_field (word_at words.now n)) n result }
{
    if right || is_unknown_field(words.at(n)) {
        return Ok(());
    }
    Err(n)
}

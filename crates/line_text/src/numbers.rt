//! The numbers that words write.
ghost use Rattle.std.specs.Prelude.{◌≡◌, ◌≤◌, ◌<◌, ◌^◌, true, false, length, MatchOption};
ghost use Rattle.std.specs.Char.{digit_value, is_digit};
ghost use Rattle.std.specs.List.{list_all};
ghost use Rattle.std.specs.Str.Parse.{digits_value};
ghost use Rattle.line_text.specs.Words.{number_of};

/// The most digits of a decimal number.
const DECIMAL_DIGITS: usize = 20;

/// The most digits of a hexadecimal number.
const HEXADECIMAL_DIGITS: usize = 16;

/// What stands for any other byte than a digit: with one such among them, eight bytes make a number that isn't below it.
const OTHER: u64 = 0x1_0000_0000;

/// The value of each byte as a hexadecimal digit of either case. It is looked up, since which kind of digit comes next can't
/// be foreseen.
const DIGITS: &[u64; 256] = &[
    OTHER, OTHER, OTHER, OTHER, OTHER, OTHER, OTHER, OTHER, OTHER, OTHER, OTHER, OTHER, OTHER,
    OTHER, OTHER, OTHER, OTHER, OTHER, OTHER, OTHER, OTHER, OTHER, OTHER, OTHER, OTHER, OTHER,
    OTHER, OTHER, OTHER, OTHER, OTHER, OTHER, OTHER, OTHER, OTHER, OTHER, OTHER, OTHER, OTHER,
    OTHER, OTHER, OTHER, OTHER, OTHER, OTHER, OTHER, OTHER, OTHER, 0, 1, 2, 3, 4, 5, 6, 7, 8, 9,
    OTHER, OTHER, OTHER, OTHER, OTHER, OTHER, OTHER, 10, 11, 12, 13, 14, 15, OTHER, OTHER, OTHER,
    OTHER, OTHER, OTHER, OTHER, OTHER, OTHER, OTHER, OTHER, OTHER, OTHER, OTHER, OTHER, OTHER,
    OTHER, OTHER, OTHER, OTHER, OTHER, OTHER, OTHER, OTHER, OTHER, OTHER, 10, 11, 12, 13, 14, 15,
    OTHER, OTHER, OTHER, OTHER, OTHER, OTHER, OTHER, OTHER, OTHER, OTHER, OTHER, OTHER, OTHER,
    OTHER, OTHER, OTHER, OTHER, OTHER, OTHER, OTHER, OTHER, OTHER, OTHER, OTHER, OTHER, OTHER,
    OTHER, OTHER, OTHER, OTHER, OTHER, OTHER, OTHER, OTHER, OTHER, OTHER, OTHER, OTHER, OTHER,
    OTHER, OTHER, OTHER, OTHER, OTHER, OTHER, OTHER, OTHER, OTHER, OTHER, OTHER, OTHER, OTHER,
    OTHER, OTHER, OTHER, OTHER, OTHER, OTHER, OTHER, OTHER, OTHER, OTHER, OTHER, OTHER, OTHER,
    OTHER, OTHER, OTHER, OTHER, OTHER, OTHER, OTHER, OTHER, OTHER, OTHER, OTHER, OTHER, OTHER,
    OTHER, OTHER, OTHER, OTHER, OTHER, OTHER, OTHER, OTHER, OTHER, OTHER, OTHER, OTHER, OTHER,
    OTHER, OTHER, OTHER, OTHER, OTHER, OTHER, OTHER, OTHER, OTHER, OTHER, OTHER, OTHER, OTHER,
    OTHER, OTHER, OTHER, OTHER, OTHER, OTHER, OTHER, OTHER, OTHER, OTHER, OTHER, OTHER, OTHER,
    OTHER, OTHER, OTHER, OTHER, OTHER, OTHER, OTHER, OTHER, OTHER, OTHER, OTHER, OTHER, OTHER,
    OTHER, OTHER, OTHER, OTHER, OTHER, OTHER, OTHER, OTHER, OTHER, OTHER, OTHER, OTHER, OTHER,
    OTHER, OTHER, OTHER, OTHER, OTHER, OTHER, OTHER, OTHER, OTHER, OTHER,
];

/// The value of a digit of either case, if the byte is one.
#[inline(always)]
fn digit_of(byte: u8, radix: u64) -> Option<u64>
    requires { radix ≤ 16 }
    ensures { MatchOption result (is_digit byte radix ≡ false) (λ digit. (is_digit byte radix ≡ true) × (digit ≡ digit_value byte)) }
{
    let value = DIGITS[usize::from(byte)];
    if value < radix { Some(value) } else { None }
}

/// The number of digits of which any so many have one in 64 bits.
#[inline(always)]
fn value_of(word: &[u8], radix: u64) -> Option<u64>
    requires radix { radix ≤ 16 }
    requires few { radix ^ length word.now ≤ 2 ^ 64 }
    ensures { MatchOption result (list_all (λ digit. is_digit digit radix) word.now ≡ false) (λ value. (list_all (λ digit. is_digit digit radix) word.now ≡ true) × (value ≡ digits_value radix word.now) × (value < 2 ^ 64)) }
{
    let mut value = 0;
    for byte in word {
        let Some(digit) = digit_of(*byte, radix) else {
            return None;
        };
        value = value * radix + digit;
    }
    Some(value)
}

/// The number of a decimal word of so many digits that not each has one in 64 bits. It is apart, since few words are so long.
#[inline(never)]
fn longest_decimal(word: &[u8]) -> Option<u64>
    requires { length word.now ≡ 20 }
    ensures { result ≡ number_of 10 20 word.now }
{
    let Some(front) = value_of(&word[..19], 10) else {
        return None;
    };
    let Some(last) = digit_of(word[19], 10) else {
        return None;
    };
    if front > (u64::MAX - last) / 10 {
        return None;
    }
    Some(front * 10 + last)
}

/// The number that 1 to 20 decimal digits write, where it has at most 64 bits. Most words have one digit.
#[inline(always)]
pub(crate) fn decimal(word: &[u8]) -> Option<u64>
    ensures { result ≡ number_of 10 20 word.now }
{
    if word.len() == 1 {
        return digit_of(word[0], 10);
    }
    long_decimal(word)
}

/// The same, of however many digits.
#[inline(never)]
fn long_decimal(word: &[u8]) -> Option<u64>
    ensures { result ≡ number_of 10 20 word.now }
{
    if word.is_empty() || word.len() > DECIMAL_DIGITS {
        return None;
    }
    if word.len() == DECIMAL_DIGITS {
        return longest_decimal(word);
    }
    value_of(word, 10)
}

/// The number of up to eight hexadecimal digits, which are tested together.
#[inline(always)]
fn eight_at_most(word: &[u8]) -> Option<u64>
    requires { length word.now ≤ 8 }
    ensures { MatchOption result (list_all (λ digit. is_digit digit 16) word.now ≡ false) (λ value. (list_all (λ digit. is_digit digit 16) word.now ≡ true) × (value ≡ digits_value 16 word.now) × (value < 2 ^ 32)) }
{
    let mut value = 0;
    for byte in word {
        value = value * 16 + DIGITS[usize::from(*byte)];
    }
    if value < OTHER { Some(value) } else { None }
}

/// The number of 16 hexadecimal digits.
#[inline(always)]
fn sixteen(word: &[u8]) -> Option<u64>
    requires { length word.now ≡ 16 }
    ensures { result ≡ number_of 16 16 word.now }
{
    let Some(high) = eight_at_most(&word[..8]) else {
        return None;
    };
    let Some(low) = eight_at_most(&word[8..]) else {
        return None;
    };
    Some(high * 0x1_0000_0000 + low)
}

/// The number that 1 to 16 hexadecimal digits of either case write. Words of 8 and of 16 have code of their own, in which the
/// number of digits is known.
pub(crate) fn hexadecimal(word: &[u8]) -> Option<u64>
    ensures { result ≡ number_of 16 16 word.now }
{
    if word.len() == HEXADECIMAL_DIGITS {
        return sixteen(word);
    }
    if word.len() == 8 {
        return eight_at_most(word);
    }
    if word.is_empty() || word.len() > HEXADECIMAL_DIGITS {
        return None;
    }
    if word.len() < 8 {
        return eight_at_most(word);
    }
    value_of(word, 16)
}

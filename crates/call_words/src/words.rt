//! What stands in a word.
ghost use Rattle.std.specs.Prelude.{◌≡◌, get_or};
ghost use Rattle.call_words.specs.CallWords.{byte_in, flag_in, low_in};

/// A byte: the lowest of a word.
pub fn byte_in(word: u64) -> u8
    ensures { result ≡ byte_in word }
{
    (word % 256) as u8
}

/// A flag: the lowest bit of a word.
pub fn flag_in(word: u64) -> bool
    ensures { result ≡ flag_in word }
{
    word % 2 == 1
}

/// The lower half of a word.
pub fn low_in(word: u64) -> u32
    ensures { result ≡ low_in word }
{
    (word % 4_294_967_296) as u32
}

/// A word by its place; 0 behind the last.
pub fn word_at(words: &[u64], place: usize) -> u64
    ensures { result ≡ get_or words.now place 0 }
{
    match words.get(place) {
        Some(word) => *word,
        None => 0,
    }
}

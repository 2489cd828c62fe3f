//! Which values the bytes of one word of a memory may have where requests race for them: a short list of what was given to the word, which
//! is, lane by lane, the list of each byte that `byte_orders` defines.
#![tactic(auto)]

mod change;
mod held;
mod holding;
mod known;
mod lanes;
mod word_values;

pub use change::Change;
pub use known::KnownBytes;
pub use word_values::WordValues;

//! A bounded table of lists of values, each of one word of eight bytes of a memory: 2,048 words at most, in 256 shelves of eight
//! places. All room is taken by `ValueTable::new`.
#![tactic(auto)]

mod shelf;
#[cfg(test)]
mod tests;
mod value_table;

pub use value_table::ValueTable;

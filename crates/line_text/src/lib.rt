//! The text of one line: its words and the numbers that they write, and the lines of a trace, how they are put together and
//! written.
#![tactic(auto)]

mod alike_lines;
mod beat_lines;
mod line;
mod numbers;
mod offer_parser;
mod plain;
mod trace_lines;
mod word_mask;
mod words;
mod writing;

pub use beat_lines::{a_line, b_line, r_line};
pub use offer_parser::offer_line;
pub use plain::{may_stand, plain_line_in};
pub use trace_lines::{
    accepted_line, burst_lines, client_line, drained_line, mem_line, ok_line, refused_line,
    reply_line, reply_lines, sent_line, work_line,
};
pub use words::{Words, is_comment};
pub use writing::{WriteFault, write_text};

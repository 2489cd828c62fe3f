//! `tlbridge threads`, but for its threads: what its script asks for, and the text of a report.
#![tactic(auto)]

mod asked;
mod line_parser;
mod lists;
mod report_writer;
mod script;

pub use asked::{Asked, Part};
pub use report_writer::report_lines;

//! The text of scripts: how their lines are read, parsed, and carried out one after another.
#![tactic(auto)]

mod driver;
mod faults;
mod keywords;
mod reader;
mod score_setup_lines;
mod setup_lines;
mod setup_parser;
mod stages;
mod stopped;

pub use driver::{Script, read_script, read_script_with, take_line, without_return};
pub use faults::ScriptFault;
pub use keywords::Form;
pub use setup_lines::{ScriptSetup, add_line, is_setup_form, setup_line};
pub use setup_parser::SetupLine;
pub use stages::{Kind, StagedScript};
pub use stopped::StoppedLine;

//! `tlbridge run`: a script of set-up lines and commands, carried out in one world.
#![tactic(auto)]

mod answer_writer;
mod lines;
mod script;

pub use script::run_text;

//! `tlbridge check`: a script of beats, judged by a port for each client.
#![tactic(auto)]

mod client_ports;
mod lines;
mod script;

pub use script::check_text;

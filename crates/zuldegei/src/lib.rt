//! The scoreboard and the model of the bridge for C, as a static library.
#![tactic(auto)]

mod bridge_exports;
mod score_exports;

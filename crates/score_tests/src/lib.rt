//! Tests of the scoreboard: worked values from outside, and what no contract says.
#![tactic(auto)]

#[cfg(test)]
mod tests;

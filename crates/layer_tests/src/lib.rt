//! Tests of the libraries: what no script can ask of a program, and what no contract says.
#![tactic(auto)]

#[cfg(test)]
mod tests;

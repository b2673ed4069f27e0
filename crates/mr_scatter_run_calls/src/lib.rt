//! Tests of the command `scatter`. There is nothing here but tests.
#![tactic(auto)]

#[cfg(test)]
mod tests;

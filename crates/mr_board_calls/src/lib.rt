//! Tests of the board of a rebuild, and what they share. There is nothing here but tests.
#![tactic(auto)]

pub mod crews;
pub mod images;
pub mod menders;
#[cfg(test)]
mod tests;

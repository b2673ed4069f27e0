//! Tests of the search by workers: its answers, and workers beside each other. There is nothing here but tests.
#![tactic(auto)]

#[cfg(test)]
mod tests;

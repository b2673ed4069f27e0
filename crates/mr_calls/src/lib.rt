//! Tests of the calls of the crates below the top one: bases, equations, searches, single equations and degraded reads.
//! There is nothing here but tests.
#![tactic(auto)]

#[cfg(test)]
mod tests;

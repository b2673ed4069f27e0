//! Tests of the cache of plans. There is nothing here but tests.
#![tactic(auto)]

#[cfg(test)]
mod tests;

//! Tests of `minread` for rebuilds with `--live`. There is nothing here but tests.
#![tactic(auto)]

#[cfg(test)]
mod tests;

//! Tests of the bound of a layer. There is nothing here but tests.
#![tactic(auto)]

#[cfg(test)]
mod tests;

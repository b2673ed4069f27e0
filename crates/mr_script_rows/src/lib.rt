//! Tests of `minread` for scripts: what the top call answers to the reads that are asked for. There is nothing here but
//! tests, and each is a table of cases.
#![tactic(auto)]

#[cfg(test)]
mod tests;

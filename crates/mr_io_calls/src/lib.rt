//! Tests of the outside: its adapters over the real system, and its forms in memory that never fail. There is nothing here
//! but tests.
#![tactic(auto)]

#[cfg(test)]
mod tests;

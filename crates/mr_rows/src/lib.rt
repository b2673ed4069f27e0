//! Tests of `minread` from the outside: what the top call answers for matrices and plans, over the forms of files and
//! sinks in memory. There is nothing here but tests, and each is a table of cases.
#![tactic(auto)]

#[cfg(test)]
mod tests;

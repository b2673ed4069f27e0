//! Tests of the run of a drill: its lines, and the points that its menders and readers pass. There is nothing here but
//! tests.
#![tactic(auto)]

#[cfg(test)]
mod tests;

//! Tests alone: what `run_waiting` answers for `table`, the queue of jobs, and two workers that a
//! gate holds.
#![tactic(auto)]

#[cfg(test)]
mod tests;

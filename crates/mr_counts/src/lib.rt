//! Lists of numbers that are weighed: how often a number stands in a list, the numbers below a
//! count, each once, and what several lists share. It has no function but its laws.
//!
//! What several threads take from one count is told by lists, one for each thread. That these
//! share the numbers below the count is kept by one fact over all ways to weigh numbers
//! (`WeighAsBelow` in `specs/Numbers`), since a step changes one term on each side of it.
#![tactic(auto)]

pub mod laws;

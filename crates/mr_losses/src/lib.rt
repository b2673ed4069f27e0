//! The loss of devices: their symbols, and the problem of reading these from all others.
#![tactic(auto)]

mod losses;

pub use losses::{problem_of, symbols_of};

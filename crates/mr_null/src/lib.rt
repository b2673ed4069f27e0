//! Elimination over sets of symbols: which members of a set are kept, the one set of kept members
//! with a given sum, and all subsets of sum zero.
#![tactic(auto)]

mod basis;
pub mod laws;
mod nulls;
mod pivots;

pub use basis::Basis;
pub use nulls::{Nulls, NullsError};

//! Plans of patterns that were made before, the most recently used first.
#![tactic(auto)]

mod cache;
mod errors;
mod patterns;
mod planning;

pub use cache::{MOST_PLANS, PlanCache, Served};
pub use errors::PlanError;
pub use patterns::Pattern;

//! Plans of a rebuild as values: the recipes of the lost symbols, the one text of a plan, and the checker.
//! No call of this crate takes memory.
#![tactic(auto)]

mod checking;
mod errors;
mod kinds;
pub mod laws;
pub mod lines;
mod plan_lists;
mod plans;
mod printing;
mod reading;
mod recipes;

pub use checking::check;
pub use errors::{PlanLine, Why, Wrong};
pub use kinds::Kind;
pub use plan_lists::Plans;
pub use plans::Plan;
pub use recipes::Recipe;

//! The choice of a plan: the problems and the plans of all rotations in use, each plan with the line that says how it was
//! found; the single equations of the lost symbols in each; and the plan that is handed in.
#![tactic(auto)]

mod choosing;
mod chosen;
mod errors;
mod handed;
pub mod laws;
mod problems;
mod singles;

pub use choosing::{chosen_plan, plans_of};
pub use chosen::{Choosing, ChosenPlan, ChosenPlans};
pub use errors::{ProblemsError, UndeterminedAt};
pub use handed::{handed_plan, sound_plan};
pub use problems::problems_of;
pub use singles::singles_of;

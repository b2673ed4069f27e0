//! The top call of `leastplan`: words and a matrix file in, the least plan and its line out.
#![tactic(auto)]

mod answering;
mod choosing;
mod top;
mod watch;

pub use choosing::{has_too_many, least_plan};
pub use top::run;
pub use watch::Watch;

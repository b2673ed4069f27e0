//! The table of plans of a matrix: what each loss of one or two devices costs, worked out by
//! several workers who take the losses from one queue of jobs.
#![tactic(auto)]

mod answers;
mod crew;
mod jobs;
pub mod laws;
mod losses;
mod pass;
mod row;
mod rule;
mod tables;
mod task;
mod view;
mod worker;

pub use jobs::Jobs;
pub use losses::losses_of;
pub use pass::JobPass;
pub use row::{JobAnswer, Row};
pub use tables::table;
pub use view::JobView;

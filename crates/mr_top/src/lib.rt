//! The top call of `minread`: words and files in, an answer and a report out.
#![tactic(auto)]

mod asking;
mod carrying;
mod check;
mod convert;
mod damage_read;
mod drill;
mod encode;
mod image_head;
mod image_read;
mod lent;
mod make;
mod outcome;
mod plan;
mod rebuild;
mod reply;
mod scrub;
mod sectors;
mod top;

pub use mr_choices::{ChosenPlan, ChosenPlans};
pub use mr_steps::{ChoiceLine, Fault, Request, read_words};
pub use reply::Reply;
pub use top::run;

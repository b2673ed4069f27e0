//! Callers that work on the stripes of an image in threads of their own, and what they give together.
//!
//! Half of the callers make their asks first and then mend their stripes, and the others mend first. All memory is taken
//! before the threads start.
#![tactic(auto)]

mod amending;
mod crews;
mod running;
mod tasks;

pub use amending::{Amended, amend_image};

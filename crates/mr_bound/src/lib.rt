//! The least cost known and the chunks that were drawn, shared by the workers of one layer of a
//! search, on a table of two atomic words.
//!
//! What all steps keep is the rule in `specs/Rule`. No step takes memory, and none waits.
#![tactic(auto)]

mod bound;
pub mod laws;
mod rule;
mod view;

pub use bound::{Bound, BoundSeat};
pub use view::BoundView;

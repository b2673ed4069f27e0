//! The board of a rebuild: the stripes of an image, which several workers draw, and the words of their
//! lost symbols, which are right before a stripe is seen done. It stands on a table of atomic words.
//!
//! What all steps keep is the rule in `specs/Rule`. No step takes memory, and none waits.
#![tactic(auto)]

mod board;
mod bytes;
pub mod laws;
mod rights;
mod rule;
mod view;

pub use board::{Board, Claim, Pass};
pub use rights::Rights;
pub use view::PassView;

//! The command `gather`: an image of some stripes of an array, from the device files that there are.
#![tactic(auto)]

mod gathering;
mod line;
mod slots;
mod task;
mod top;

pub use top::gather_image;

//! The command `scatter`: the symbols of the lost devices of an array, written to their files from an image that is read
//! as a stream.
#![tactic(auto)]

mod end;
mod head;
mod lent;
mod lines;
mod lost;
mod opening;
mod scattering;
mod task;
mod top;

pub use lent::Lent;
pub use top::scatter_image;

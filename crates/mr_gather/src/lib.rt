//! Images that are gathered from the device files of an array, stripe by stripe.
#![tactic(auto)]

mod errors;
mod gathering;
mod stripes;

pub use errors::Broken;
pub use gathering::gather;
pub use stripes::Gathering;

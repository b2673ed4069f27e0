//! The lost devices of an array, written from an image that is read stripe by stripe.
#![tactic(auto)]

mod errors;
mod filling;
mod scattering;
mod stripes;

pub use errors::{ScatterFault, Stopped};
pub use filling::fill;
pub use scattering::scatter;
pub use stripes::Scattering;

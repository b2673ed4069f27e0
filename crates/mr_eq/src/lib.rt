//! Problems and their equations: which targets are lost, which symbols survive, and the sets of
//! survivors whose XOR a target is.
#![tactic(auto)]

mod equations;
mod found;
pub mod laws;
mod planes;
mod problems;
mod singles;

pub use equations::Equations;
pub use found::Found;
pub use problems::{Problem, Undetermined};
pub use singles::Singles;

//! The search for the cheapest set by workers beside each other, which share the least cost known.
#![tactic(auto)]

mod choices;
mod crew;
mod inputs;
mod layers;
mod worker;

pub use choices::search;

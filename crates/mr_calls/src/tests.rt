//! The tests, a file for each part, and what they share.

mod choices;
mod drills;
mod memory;
mod near;
mod search;
mod values;

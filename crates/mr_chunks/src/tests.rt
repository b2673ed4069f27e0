//! The tests, a file for each part, and what they share.

mod answers;
mod gates;
mod turns;
mod values;

//! The tests, a file for each part.

mod adapters;
mod gates;
mod sure;

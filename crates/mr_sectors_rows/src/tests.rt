//! The tests, a file for each part.

mod failing;
mod gates;
mod rows;

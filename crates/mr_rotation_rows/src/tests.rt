//! The tests, a file for each part.

mod convert;
mod devices;
mod rebuild;
mod scrub;

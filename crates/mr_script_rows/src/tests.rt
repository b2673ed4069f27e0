//! The tests, a file for each part.

mod failing;
mod lines;
mod replies;
mod sizes;
mod varied;

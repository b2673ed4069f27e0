//! The tests, a file for each part.

mod encode;
mod given_plans;
mod heads;
mod large;
mod rebuild;
mod refused;

//! Whether the symbols that can be read of each stripe of an image determine those that fail, told by elimination alone.
#![tactic(auto)]

mod errors;
mod known;
pub mod laws;
mod surveying;

pub use errors::UndeterminedIn;
pub use surveying::survey;

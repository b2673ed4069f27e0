//! The steps that the commands of `minread` share: the reading of the words, the faults with their
//! lines, the line of a plan, and the reading of a text file, a matrix and a loss.
#![tactic(auto)]

mod choice_line;
mod fault;
mod loss;
mod refusing;
mod request;
mod text;
mod words;

pub use choice_line::ChoiceLine;
pub use fault::Fault;
pub use loss::{loss_in, lost_in};
pub use refusing::refuse;
pub use request::Request;
pub use text::{file_text, file_within, matrix_text};
pub use words::read_words;

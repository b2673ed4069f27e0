//! The words of `arrays gather MATRIX BYTES FIRST STRIPES [--plan FILE] DEVICE..` and
//! `arrays scatter MATRIX FIRST LOST DEVICE..`, read in the grammar of `mr_words`.
//!
//! A command of `clap` has a fixed number of places, and these commands have one for each device. So the words that
//! are places are counted first, and the words are then parsed by the command that has just so many.
#![tactic(auto)]

mod counting;
mod devices;
mod gather_words;
mod lists;
mod scatter_words;
mod words;

pub use counting::DEVICE_LIMIT;
pub use gather_words::GatherWords;
pub use scatter_words::ScatterWords;
pub use words::{ArrayWords, read_array_words};

#[cfg(test)]
mod tests;

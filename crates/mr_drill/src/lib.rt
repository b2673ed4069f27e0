//! What a drill is made of: the words of its generator, its reads, and the digest of bytes.
#![tactic(auto)]

mod asks;
mod words;

pub use asks::{STRIPES, SYMBOLS, draw_asks};
pub use words::{Generator, INCREMENT, MULTIPLIER, digest};

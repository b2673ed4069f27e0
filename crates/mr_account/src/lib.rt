//! What the calls of several callers on the stripes of an image gave: the history of each stripe, the place of each ask in
//! it, and its reply; and the text that tells of them.
#![tactic(auto)]

mod endings;
pub mod laws;
mod lines;
mod printing;
mod slots;
#[cfg(test)]
mod tests;

pub use endings::Ending;
pub use slots::Slot;

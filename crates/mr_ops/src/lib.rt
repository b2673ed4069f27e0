//! Scripts of reads and writes: the asks of their lines, and why a script is refused.
#![tactic(auto)]

pub mod laws;
mod lines;
mod ops;
mod payloads;
mod scripts;
mod unread;

pub use ops::Op;
pub use payloads::Payload;
pub use scripts::{OPS_LIMIT, read_ops};

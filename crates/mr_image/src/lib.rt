//! Images of codes: the head of an image file and the places of its symbols, and
//! the definitions of what is made of an image: the mended one, near replies, and
//! the codewords that its survivors come from.
#![tactic(auto)]

mod faults;
mod heads;
pub mod laws;
mod limits;

pub use faults::{HeadFault, ImageKind};
pub use heads::ImageHead;
pub use limits::{HEAD_BYTES, IMAGE_LIMIT, SYMBOL_LIMIT};

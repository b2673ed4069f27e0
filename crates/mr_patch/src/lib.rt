//! The patching of an image: in each stripe the symbols that fail are mended by the plan of that stripe's own pattern,
//! and the others are copied.
#![tactic(auto)]

mod copying;
mod damage;
pub mod laws;
mod mending;
mod patching;
mod planning;
mod rooms;

pub use damage::{Damage, Patching};
pub use patching::{Patched, patch};
pub use planning::pattern_of;
pub use rooms::PatchRoom;

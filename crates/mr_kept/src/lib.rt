//! The stripes of an image in memory: how they are read, and the calls on the bytes of one stripe, which read a symbol as
//! it is once the stripe is mended, mend the stripe, and write a payload.
#![tactic(auto)]

mod keepers;
pub mod laws;
mod reading;

pub use keepers::Keeper;
pub use reading::read_stripes;

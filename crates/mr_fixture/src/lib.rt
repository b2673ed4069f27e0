//! What tests of several crates share: matrix texts, bytes shown as a text, and numbers
//! that workers set and see. No program uses it.
#![tactic(auto)]

mod marks;
mod texts;

pub use marks::Mark;
pub use texts::{RDP_3, RDP_5, shown};

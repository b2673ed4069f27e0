//! The run of a drill: an image of codewords of drawn data loses a device, is rebuilt with reads beside, and what was
//! made is summed up.
#![tactic(auto)]

mod choosing;
mod codes;
mod damaging;
mod drawing;
mod encoding;
pub mod laws;
mod mending;
mod running;
mod summaries;
mod tools;

pub use running::run_drill;
pub use summaries::{Summary, print_summary};

//! Runs of the top call for tests: what a run is given, over files, sinks and a script in memory, and what it is to
//! answer and to leave. No program uses it.
//!
//! Tables of cases stand in statics, whose values need no proof: a test is then a loop over one.
#![tactic(auto)]

mod bytes;
mod cases;
mod failing;
mod given;
mod images;
mod misses;
mod outside;
mod runs;
mod trials;

pub use bytes::{Bytes, image_of};
pub use cases::{BARE, Case, ON_RDP_3, check_case, check_cases};
pub use failing::{Cut, Unread, check_same, check_unread, check_unreported, check_unwritten};
pub use given::Given;
pub use images::{HEAD, LEAST, LOST, REBUILD, WHOLE, varied_byte, varied_data, varied_image};
pub use misses::{Miss, Part};
pub use outside::{AT_ONCE, Gives, Puts, ROOMY, SOUND, Schedule};
pub use runs::{Ran, run_by};
pub use trials::{Trial, check_trial, words_in, words_of};

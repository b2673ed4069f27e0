//! The scrub of an image: which of its stripes are no codewords, by checks that XOR to nothing.
#![tactic(auto)]

mod broken;
mod checks;
mod faults;
pub mod laws;
mod printing;
mod scans;
mod scrubbing;
mod scrubs;

pub use broken::Broken;
pub use checks::Checks;
pub use faults::first_fault;
pub use printing::print_scrub;
pub use scans::scan;
pub use scrubbing::{PART_BYTES, scrub};
pub use scrubs::Scrub;

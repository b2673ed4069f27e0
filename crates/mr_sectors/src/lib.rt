//! The repair of an image of which symbols cannot be read, once its head, the lost devices and the list of these symbols
//! are read: all memory first, then the patched image, and the report.
#![tactic(auto)]

mod counting;
mod imaging;
pub mod laws;
mod printing;
mod repairing;

pub use counting::{Counts, counts_of};
pub use imaging::repaired_image;
pub use printing::print_repair;
pub use repairing::{Repair, Repaired};

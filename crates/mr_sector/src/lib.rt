//! Unreadable sectors beside lost devices: which symbols of each stripe cannot be read, and the image that is
//! patched by each stripe's own plan.
#![tactic(auto)]

pub mod laws;
mod patterns;
mod sectors;

pub use patterns::{failed_symbols, next_pattern};
pub use sectors::{SECTORS_LIMIT, SectorsFault, read_sectors};

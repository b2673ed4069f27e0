//! Device files that are written at places: in memory, and of the system.
//!
//! A call that answers `Failed` has its cause: the count of faults rose. The form in memory tells all that
//! it holds and fails where it is told to. The adapter of the system tells nothing: no contract can say
//! what a file does.
#![tactic(auto)]

mod counts;
mod devices;
mod disk;
mod mem;

pub use devices::Devices;
pub use disk::DiskDevices;
pub use mem::MemDevices;

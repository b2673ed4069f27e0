//! Why a run ended without its answer.

use mr_steps::Fault;

/// Why a run ended without its answer, and where the devices were open of how many stripes all parts were written.
#[derive(Clone, Copy, Debug)]
pub(crate) struct End {
    pub stripes: Option<u32>,
    pub fault: Fault,
}

//! What a drill is run with.

use mr_kern::XorKernel;
use std::alloc::Global;

/// How many menders there are, and how many readers.
pub(crate) const WORKERS: u32 = 4;

/// What a drill is run with.
#[derive(Drop)]
pub(crate) struct Tools<'a, T, G> {
    /// What starts and joins threads.
    pub rt: &'a T,
    /// The memory.
    pub alloc: Global,
    /// The gate that the work passes.
    pub gate: &'a G,
    /// The kernel that adds bytes.
    pub kernel: &'a XorKernel,
}

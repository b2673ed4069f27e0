//! What a run is lent from outside.

use mr_io::{Files, Source};
use mr_kern::XorKernel;
use std::alloc::Global;

/// What a run works with: the same for each of its steps.
#[derive(Drop)]
pub(crate) struct Tools<'t, T, G> {
    /// The threads. Only a step that asks it of `T` may start one.
    pub rt: &'t T,
    /// The memory.
    pub alloc: Global,
    /// The gate that the work passes.
    pub gate: &'t G,
    /// The kernel that adds bytes.
    pub kernel: &'t XorKernel,
}

/// What a run is lent from outside to find its answer: the files, the script, and what it works
/// with.
#[derive(Drop)]
pub(crate) struct Lent<'f, 's, 't, T, F: Files, S: Source, G> {
    /// The files.
    pub files: &'f mut F,
    /// The script.
    pub script: &'s mut S,
    /// What the run works with.
    pub tools: Tools<'t, T, G>,
}

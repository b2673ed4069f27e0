//! What the workers of a rebuild are run with.

use mr_kern::XorKernel;

/// What the workers of a rebuild are run with.
#[derive(Drop)]
pub(crate) struct Means<'a, T, G> {
    /// What starts and joins threads.
    pub rt: &'a T,
    /// The gate that the workers pass.
    pub gate: &'a G,
    /// The kernel that adds bytes.
    pub kernel: &'a XorKernel,
}

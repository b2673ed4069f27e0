//! What all callers of an image go by.

use mr_amend::Amend;
use mr_history::Server;

/// What all callers of an image go by.
#[derive(Drop)]
pub(crate) struct Task<'a, G> {
    /// The stripes, each under its lock.
    pub amend: &'a Amend,
    /// What makes calls on them.
    pub server: &'a Server<'a>,
    /// The gate that the callers pass.
    pub gate: &'a G,
}

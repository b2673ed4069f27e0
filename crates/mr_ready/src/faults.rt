//! Why a rebuild was not carried to its end.

use thiserror::Error;

/// Why a rebuild was not carried to its end.
#[derive(Clone, Copy, Debug, PartialEq, Eq, Error)]
pub enum CarryFault {
    /// An eye failed.
    #[error("the image could not be read")]
    Read,
    /// The answer or the report could not be written.
    #[error("the answer or the report could not be written")]
    Write,
}

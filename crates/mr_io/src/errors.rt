//! The errors of the outside.

use std::alloc::{AllocError, AllocFailed};
use thiserror::Error;

/// A call of the outside failed. The count of faults of its object rose in that call.
#[derive(Clone, Copy, Debug, PartialEq, Eq, Error)]
#[error("failed")]
pub struct Failed;

/// Why `Files::eye` gave no eye.
#[derive(Clone, Copy, Debug, PartialEq, Eq, Error)]
pub enum FilesError {
    /// The file was not opened. The count of faults of the files rose in that call.
    #[error("failed")]
    Failed,
    /// Want of memory.
    #[error("out of memory")]
    Memory,
}

impl From<AllocError> for FilesError {
    ghost use Rattle.std.specs.Prelude.{◌≡◌};
    ghost use Rattle.mr_io.specs.declared.errors.FilesError.TheVariants.{Memory};

    ghost from_gives = { λ _ error. error ≡ Memory };

    fn from(_refused: AllocError) -> FilesError {
        FilesError::Memory
    }
}

impl<T: Drop> From<AllocFailed<T>> for FilesError {
    ghost use Rattle.std.specs.Prelude.{◌≡◌};
    ghost use Rattle.mr_io.specs.declared.errors.FilesError.TheVariants.{Memory};

    ghost from_gives = { λ _ error. error ≡ Memory };

    fn from(_refused: AllocFailed<T>) -> FilesError {
        FilesError::Memory
    }
}

//! Why an image was not gathered to its end.

use thiserror::Error;

/// Why an image was not gathered to its end.
#[derive(Clone, Copy, Debug, PartialEq, Eq, Error)]
pub enum Broken {
    /// A read of a device failed. The count of faults of its eye rose in that call.
    #[error("read")]
    Read,
    /// A put failed. The count of faults of the sink rose in that call.
    #[error("write")]
    Write,
}

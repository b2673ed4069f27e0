//! Why an image was not scattered to its end.

use thiserror::Error;

/// Why an image was not scattered to its end.
#[derive(Clone, Copy, Debug, PartialEq, Eq, Error)]
pub enum ScatterFault {
    /// A call of the source failed. The count of its faults rose in that call.
    #[error("read")]
    Read,
    /// The image ends before its last symbol, or bytes follow that.
    #[error("length")]
    Length,
    /// A write to a device failed. The count of faults of the devices rose in that call.
    #[error("write")]
    Write,
}

/// Where the scattering of an image stopped: of so many stripes, from the first on, all parts were written; and why.
#[derive(Clone, Copy, Debug, PartialEq, Eq, Error)]
#[error("{fault} behind {stripes} stripes")]
pub struct Stopped {
    pub stripes: u32,
    pub fault: ScatterFault,
}

//! A gate that is told what a search begins with.

use mr_io::{Gate, OpenGate};

/// A gate that the search passes, and that is told before it how many equations each target has. The
/// work of the masks that were expanded is their number times that. It returns, and tells nothing.
pub trait Watch: Gate {
    /// A search of so many equations for each target begins.
    fn begin(&self, width: u32);
}

impl Watch for OpenGate {
    fn begin(&self, _width: u32) {}
}

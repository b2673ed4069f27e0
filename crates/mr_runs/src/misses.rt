//! Why a run is not what it was to be.

use crate::runs::Ran;
use mr_bits::NoMemory;

/// What a run answers or leaves.
#[derive(Clone, Copy, Debug)]
pub enum Part {
    /// The status.
    Status,
    /// What `out` took.
    Out,
    /// What the report took.
    Report,
    /// The faults of the outside.
    Faults,
    /// The bytes taken for each duty.
    Taken,
    /// The bytes that are left in the script.
    Left,
}

/// Why a run is not what it was to be.
#[derive(Debug, Drop)]
pub enum Miss {
    /// There was no memory for its parts.
    Memory,
    /// The first part that is another.
    Other {
        /// The words of the command line.
        words: Vec<String>,
        /// The part.
        part: Part,
        /// What the run answered and left.
        ran: Ran,
    },
}

impl From<NoMemory> for Miss {
    fn from(_refused: NoMemory) -> Miss {
        Miss::Memory
    }
}

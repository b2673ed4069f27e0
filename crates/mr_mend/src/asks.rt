//! The reads of a script, and why a script is refused.

use mr_bits::Large;
use std::alloc::{AllocError, AllocFailed};
use thiserror::Error;

/// One read: a symbol of a stripe.
#[derive(Clone, Copy, PartialEq, Eq, Debug)]
pub struct Ask {
    /// The number of the stripe.
    pub stripe: u32,
    /// The number of the symbol in its stripe.
    pub symbol: u8,
}

/// Why the bytes of a script are refused: its first fault.
#[derive(Clone, Copy, PartialEq, Eq, Debug, Error)]
pub enum ScriptFault {
    /// This line, from 1, is not of its form.
    #[error("line {line} of the script is not of its form")]
    Line {
        /// The number of the line.
        line: u32,
    },
    /// The replies have more than `REPLY_LIMIT` bytes.
    #[error("{0}")]
    Large(Large),
    /// There was no memory.
    #[error("out of memory")]
    Memory,
}

impl From<AllocError> for ScriptFault {
    ghost use Rattle.std.specs.Prelude.{◌≡◌};
    ghost use Rattle.mr_mend.specs.declared.asks.ScriptFault.TheVariants.{Memory};

    ghost from_gives = { λ _ fault. fault ≡ Memory };

    fn from(_refused: AllocError) -> ScriptFault {
        ScriptFault::Memory
    }
}

impl<T: Drop> From<AllocFailed<T>> for ScriptFault {
    ghost use Rattle.std.specs.Prelude.{◌≡◌};
    ghost use Rattle.mr_mend.specs.declared.asks.ScriptFault.TheVariants.{Memory};

    ghost from_gives = { λ _ fault. fault ≡ Memory };

    fn from(_refused: AllocFailed<T>) -> ScriptFault {
        ScriptFault::Memory
    }
}

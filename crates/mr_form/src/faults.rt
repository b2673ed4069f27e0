use mr_bits::Large;
use thiserror::Error;

/// What is wrong with a line of a matrix text.
#[derive(Clone, Copy, Debug, PartialEq, Eq, Error)]
pub enum LineKind {
    /// No byte is left where the line should begin.
    #[error("missing")]
    Missing,
    /// Bytes are left there, and none of them is a line feed.
    #[error("noend")]
    NoEnd,
    /// Line 1 is not `matrix 1 n w k` or `matrix 2 n w k` with three numbers of at least 1.
    #[error("head")]
    Head,
    /// Line 2 of version 2 is not `price` and a price from 1 to 1,000 for each device, not all of
    /// them 1.
    #[error("price")]
    Price,
    /// A row is not as many bytes `0` and `1` as there are columns.
    #[error("row")]
    Row,
    /// A byte is left after the last row.
    #[error("extra")]
    Extra,
}

/// Why a text is not that of a matrix: its first fault.
#[derive(Clone, Copy, Debug, PartialEq, Eq, Error)]
pub enum MatrixFault {
    /// This line, from 1, is not of its form.
    #[error("line {line}: {kind}")]
    Bad { line: u32, kind: LineKind },
    /// The head names more than 128 symbols, or else more than 128 columns.
    #[error("{0}")]
    Large(Large),
}

impl From<Large> for MatrixFault {
    ghost use Rattle.std.specs.Prelude.{◌≡◌};
    ghost use Rattle.mr_form.specs.declared.faults.MatrixFault.TheVariants.{Large as TooLarge};

    ghost from_gives = { λ large fault. fault ≡ TooLarge large };

    fn from(large: Large) -> MatrixFault {
        MatrixFault::Large(large)
    }
}

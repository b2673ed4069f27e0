//! The error of the words.

use std::alloc::AllocError;

/// Why words are not read.
#[derive(Clone, Copy, Debug, Drop, PartialEq, Eq)]
pub enum WordsError {
    /// The words are none of those that the command takes.
    Usage,
    /// There is no memory to read them.
    Memory,
}

impl From<AllocError> for WordsError {
    ghost use Rattle.mr_words.specs.declared.errors.WordsError.TheVariants.{Memory};
    ghost use Rattle.std.specs.Prelude.{◌≡◌};

    ghost from_gives = { λ error result. result ≡ Memory };

    fn from(_error: AllocError) -> WordsError {
        WordsError::Memory
    }
}

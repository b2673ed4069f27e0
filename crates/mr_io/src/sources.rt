//! A source gives bytes.

ghost use Rattle.std.specs.Prelude.{◌<◌, ℕ, List, Option, length};
ghost use Rattle.std.specs.Io.{ReadsAtMost};
ghost use Rattle.std.specs.Io.KnownBytes.{ReadConsumes};
ghost use Rattle.mr_io.specs.Counts.{HasCause};

use crate::errors::Failed;

/// Something that gives bytes, as an input or a buffer.
pub trait Source {
    /// The bytes left, where the source tells them.
    ghost left: { Self → Option (List ℕ) };

    /// How many calls failed. It never falls, and stops at 2^64 - 1.
    ghost faults: { Self → ℕ };

    /// Gives 1 to `buf.len()` bytes at the front of `buf` and says how many, or 0 at the end of the input.
    /// They are the first of the bytes left, and the rest is then left. A call that answers `Failed` leaves
    /// them as they were. A source that tells goes on telling.
    fn get(&mut self, buf: &mut [u8]) -> Result<usize, Failed>
        requires { 0 < length buf.old }
        ensures bound { ReadsAtMost result buf.new }
        ensures bytes { ReadConsumes (left self.old) (left self.new) result buf.new }
        ensures cause { HasCause (faults self.old) (faults self.new) result };
}

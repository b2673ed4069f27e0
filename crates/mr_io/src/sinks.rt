//! A sink takes bytes.

ghost use Rattle.std.specs.Prelude.{◌≤◌, ◌<◌, ℕ, Option, [], length, take, IfOk, OnErr};
ghost use Rattle.mr_io.specs.Counts.{HasCause};
ghost use Rattle.mr_io.specs.Taking.{Held, Takes};

use crate::errors::Failed;

/// Something that takes bytes, as a stream or a buffer.
pub trait Sink {
    /// The bytes taken so far and the room that is left, where the sink tells them.
    ghost held: { Self → Option Held };

    /// How many calls failed. It never falls, and stops at 2^64 - 1.
    ghost faults: { Self → ℕ };

    /// Takes a front of `bytes` that is not empty, and says of how many bytes. A put that answers
    /// `Failed` takes none.
    fn put(&mut self, bytes: &[u8]) -> Result<usize, Failed>
        requires { 0 < length bytes.now }
        ensures bound { IfOk result (λ n. (0 < n) × (n ≤ length bytes.now)) }
        ensures taken { IfOk result (λ n.
            Takes (held self.old) (held self.new) (take n bytes.now)) }
        ensures none { OnErr result (Takes (held self.old) (held self.new) []) }
        ensures cause { HasCause (faults self.old) (faults self.new) result };
}

//! A source in memory that never fails.

ghost use Rattle.std.specs.Prelude.{◌≡◌, Some, IfOk, IsOk, drop, length, min};
ghost use Rattle.std.specs.Io.{ReadsAtMost};
ghost use Rattle.std.specs.Io.KnownBytes.{ReadConsumes};
ghost use Rattle.mr_io.specs.Counts.{HasCause};

use crate::errors::Failed;
use crate::giving::give_front;
use crate::sources::Source;
use std::marker::Model;

/// A source that gives bytes that are kept in memory, and never fails. Contracts see it as the bytes left.
#[derive(Drop)]
pub struct SureSource {
    bytes: Vec<u8>,
    given: usize,
}

impl Model for SureSource {
    ghost use Rattle.std.specs.Prelude.{◌≤◌, ℕ, List, drop, vec_len};

    ghost Value = { List ℕ };

    ghost view = { λ source. drop source.given source.bytes.items };

    ghost invariant = { λ source. source.given ≤ vec_len source.bytes };
}

impl SureSource {
    /// A source of these bytes. Each call gives as many as fit.
    pub fn new(bytes: Vec<u8>) -> SureSource
        ensures { result ≡ bytes.items }
    {
        SureSource { bytes, given: 0 }
    }
}

impl Source for SureSource {
    ghost left = { λ bytes. Some bytes };

    ghost faults = { λ _. 0 };

    fn get(&mut self, buf: &mut [u8]) -> Result<usize, Failed>
        ensures bound { ReadsAtMost result buf.new }
        ensures bytes { ReadConsumes (Some self.old) (Some self.new) result buf.new }
        ensures cause { HasCause 0 0 result }

        // Each call gives as many as fit.
        ensures ok { IsOk result }
        ensures count { IfOk result (λ n. n ≡ min (length buf.old) (length self.old)) }
        ensures state { self.new ≡ drop (length buf.old) self.old }
    {
        let left = &self.bytes[self.given..];
        let count = give_front(left, left.len(), buf);
        self.given += count;
        Ok(count)
    }
}

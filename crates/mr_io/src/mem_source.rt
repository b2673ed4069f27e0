//! A source in memory.

ghost use Rattle.std.specs.Prelude.{◌≡◌, ◌<◌, Some, MatchResult, drop, length, min, true, false};
ghost use Rattle.std.specs.Io.{ReadsAtMost};
ghost use Rattle.std.specs.Io.KnownBytes.{ReadConsumes};
ghost use Rattle.mr_io.specs.Counts.{HasCause};
ghost use Rattle.mr_io.specs.SourceStates.{source_after, source_fails, source_gives};

use crate::counts::add_count;
use crate::errors::Failed;
use crate::giving::give_front;
use crate::sources::Source;
use std::marker::Model;

/// A source that gives bytes that are kept in memory, and fails where it is told to.
#[derive(Drop)]
pub struct MemSource {
    bytes: Vec<u8>,
    given: usize,
    most: usize,
    calls: u64,
    fails: Vec<u64>,
    faults: u64,
}

impl Model for MemSource {
    ghost use Rattle.std.specs.Prelude.{◌<◌, ◌≤◌, drop, vec_len};
    ghost use Rattle.mr_io.specs.SourceStates.{SourceState};

    ghost Value = { SourceState };

    ghost view = { λ source. record {
      left = drop source.given source.bytes.items;
      most = source.most;
      calls = source.calls;
      fails = source.fails.items;
      faults = source.faults;
    } };

    ghost invariant = { λ source. (source.given ≤ vec_len source.bytes) × (0 < source.most) };
}

impl MemSource {
    /// A source of these bytes. Each call gives as many as fit. The calls are numbered from 1, and `fails`
    /// lists those that fail.
    pub fn new(bytes: Vec<u8>, fails: Vec<u64>) -> MemSource
        ensures { result ≡ record {
          left = bytes.items;
          most = usize.MAX;
          calls = 0;
          fails = fails.items;
          faults = 0;
        } }
    {
        MemSource::slow(bytes, fails, usize::MAX)
    }

    /// A source of these bytes whose calls give at most `most` each, and fail as those of `new`.
    pub fn slow(bytes: Vec<u8>, fails: Vec<u64>, most: usize) -> MemSource
        requires { 0 < most }
        ensures { result ≡ record {
          left = bytes.items;
          most = most;
          calls = 0;
          fails = fails.items;
          faults = 0;
        } }
    {
        MemSource {
            bytes,
            given: 0,
            most,
            calls: 0,
            fails,
            faults: 0,
        }
    }

    /// How many calls failed.
    pub fn faults(&self) -> u64
        ensures { result ≡ self.now.faults }
    {
        self.faults
    }
}

impl Source for MemSource {
    ghost left = { λ source. Some source.left };

    ghost faults = { λ source. source.faults };

    fn get(&mut self, buf: &mut [u8]) -> Result<usize, Failed>
        ensures bound { ReadsAtMost result buf.new }
        ensures bytes { ReadConsumes (Some self.old.left) (Some self.new.left) result buf.new }
        ensures cause { HasCause self.old.faults self.new.faults result }

        // Which calls fail and how many bytes the others give.
        ensures count { MatchResult result
            (λ n. (n ≡ source_gives self.old (length buf.old)) × (source_fails self.old ≡ false))
            (λ _. source_fails self.old ≡ true) }
        ensures state { self.new ≡ source_after self.old (length buf.old) }
    {
        self.calls = add_count(self.calls, 1);
        if self.fails.contains(&self.calls) {
            self.faults = add_count(self.faults, 1);
            return Err(Failed);
        }
        let count = give_front(&self.bytes[self.given..], self.most, buf);
        self.given += count;
        Ok(count)
    }
}

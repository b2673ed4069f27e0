//! A source over a stream of the system.

ghost use Rattle.std.specs.Prelude.{◌≡◌, None};

use crate::counts::add_count;
use crate::errors::Failed;
use crate::sources::Source;
use std::io::Read;
use std::marker::Model;

/// A source over a stream, as standard input. It tells nothing of its bytes. A read that fails is a fault.
#[derive(Drop)]
pub struct StdSource<R: Read + Drop> {
    stream: R,
    faults: u64,
}

impl<R: Read + Drop> Model for StdSource<R> {
    ghost use Rattle.std.specs.Prelude.{ℕ};

    // The faults.
    ghost Value = { ℕ };

    ghost view = { λ source. source.faults };
}

impl<R: Read + Drop> StdSource<R> {
    /// A source over this stream, with no faults.
    pub fn new(stream: R) -> StdSource<R>
        ensures { result ≡ 0 }
    {
        StdSource { stream, faults: 0 }
    }

    /// How many calls failed.
    pub fn faults(&self) -> u64
        ensures { result ≡ self.now }
    {
        self.faults
    }
}

impl<R: Read + Drop> Source for StdSource<R> {
    ghost left = { λ _. None };

    ghost faults = { λ faults. faults };

    fn get(&mut self, buf: &mut [u8]) -> Result<usize, Failed> {
        match self.stream.read(buf) {
            Ok(count) => Ok(count),
            Err(_) => {
                self.faults = add_count(self.faults, 1);
                Err(Failed)
            }
        }
    }
}

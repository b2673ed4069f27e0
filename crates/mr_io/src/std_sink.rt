//! A sink over a stream of the system.

ghost use Rattle.std.specs.Prelude.{◌≡◌, None};

use crate::counts::add_count;
use crate::errors::Failed;
use crate::sinks::Sink;
use std::io::Write;
use std::marker::Model;

/// A sink over a stream, as standard output or standard error. It tells nothing of its bytes. A write that
/// fails, and one that takes no bytes, is a fault.
#[derive(Drop)]
pub struct StdSink<W: Write + Drop> {
    stream: W,
    faults: u64,
}

impl<W: Write + Drop> Model for StdSink<W> {
    ghost use Rattle.std.specs.Prelude.{ℕ};

    // The faults.
    ghost Value = { ℕ };

    ghost view = { λ sink. sink.faults };
}

impl<W: Write + Drop> StdSink<W> {
    /// A sink over this stream, with no faults.
    pub fn new(stream: W) -> StdSink<W>
        ensures { result ≡ 0 }
    {
        StdSink { stream, faults: 0 }
    }

    /// How many puts failed.
    pub fn faults(&self) -> u64
        ensures { result ≡ self.now }
    {
        self.faults
    }
}

impl<W: Write + Drop> Sink for StdSink<W> {
    ghost held = { λ _. None };

    ghost faults = { λ faults. faults };

    fn put(&mut self, bytes: &[u8]) -> Result<usize, Failed> {
        match self.stream.write(bytes) {
            Ok(count) if count > 0 => Ok(count),
            _ => {
                self.faults = add_count(self.faults, 1);
                Err(Failed)
            }
        }
    }
}

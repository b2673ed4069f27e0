//! A sink in memory that never fails.

ghost use Rattle.std.specs.Prelude.{◌≡◌, ◌<◌, ◌≤◌, [], false, length, take, IfOk, IsOk, OnErr};
ghost use Rattle.mr_io.specs.Counts.{HasCause};
ghost use Rattle.mr_io.specs.Taking.{Takes};
ghost use Rattle.mr_io.specs.SureStates.{sure_held, sure_sink_after};

use crate::errors::Failed;
use crate::mem_sink::append_within;
use crate::sinks::Sink;
use mr_bits::NoMemory;
use std::alloc::Global;
use std::marker::Model;

/// A sink that keeps the bytes in memory, and never fails. It takes every byte. What is past its room it
/// drops, and it tells nothing from then on. It makes all its room when it is made, so its puts take no
/// memory.
#[derive(Drop)]
pub struct SureSink {
    bytes: Vec<u8>,
    room: usize,
    is_past: bool,
}

impl Model for SureSink {
    ghost use Rattle.std.specs.Prelude.{◌+◌, ◌≤◌, vec_capacity, vec_len};
    ghost use Rattle.mr_io.specs.SureStates.{SureSinkState};

    ghost Value = { SureSinkState };

    ghost view = { λ sink. record {
      kept = record { bytes = sink.bytes.items; room = sink.room };
      is_past = sink.is_past;
    } };

    ghost invariant = { λ sink. vec_len sink.bytes + sink.room ≤ vec_capacity sink.bytes };
}

impl SureSink {
    /// An empty sink with room for `room` bytes.
    pub fn new(alloc: Global, room: usize) -> Result<SureSink, NoMemory>
        ensures { IfOk result (λ sink. sink ≡ record {
          kept = record { bytes = []; room = room };
          is_past = false;
        }) }
    {
        Ok(SureSink {
            bytes: Vec::with_capacity(alloc, room)?,
            room,
            is_past: false,
        })
    }

    /// The bytes kept, which are the bytes taken as long as the sink tells.
    pub fn bytes(&self) -> &[u8]
        ensures { result.now ≡ self.now.kept.bytes }
    {
        self.bytes.as_slice()
    }
}

impl Sink for SureSink {
    ghost held = { λ sink. sure_held sink };

    ghost faults = { λ _. 0 };

    fn put(&mut self, bytes: &[u8]) -> Result<usize, Failed>
        requires { 0 < length bytes.now }
        ensures bound { IfOk result (λ n. (0 < n) × (n ≤ length bytes.now)) }
        ensures taken { IfOk result (λ n.
            Takes (sure_held self.old) (sure_held self.new) (take n bytes.now)) }
        ensures none { OnErr result (Takes (sure_held self.old) (sure_held self.new) []) }
        ensures cause { HasCause 0 0 result }

        // Every byte is taken, and those that fit are kept.
        ensures ok { IsOk result }
        ensures count { IfOk result (λ n. n ≡ length bytes.now) }
        ensures state { self.new ≡ sure_sink_after self.old bytes.now }
    {
        let count = self.room.min(bytes.len());
        append_within(&mut self.bytes, &bytes[..count]);
        self.is_past = self.is_past || count < bytes.len();
        self.room -= count;
        Ok(bytes.len())
    }
}

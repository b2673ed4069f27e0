//! A sink in memory.

ghost use Rattle.std.specs.Prelude.{◌≡◌, ◌+◌, ◌<◌, ◌≤◌, ◌==◌, ◌++◌, Some, [], get_or, if◌then◌else◌, length, min, take, vec_capacity, vec_len, IfOk, MatchResult, OnErr};
ghost use Rattle.std.specs.List.{list_any};
ghost use Rattle.mr_io.specs.Counts.{HasCause, counted};
ghost use Rattle.mr_io.specs.Taking.{Takes};
ghost use Rattle.mr_io.specs.SinkStates.{sink_after, sink_takes};

use crate::counts::add_count;
use crate::errors::Failed;
use crate::sinks::Sink;
use mr_bits::NoMemory;
use std::alloc::Global;
use std::marker::Model;

/// A sink that keeps the bytes in memory, and fails where it is told to. It makes all its room when it is
/// made, so its puts take no memory.
#[derive(Drop)]
pub struct MemSink {
    bytes: Vec<u8>,
    room: usize,
    calls: u64,
    takes: Vec<usize>,
    fails: Vec<u64>,
    faults: u64,
}

impl Model for MemSink {
    ghost use Rattle.std.specs.Prelude.{◌+◌, ◌≤◌, vec_capacity, vec_len};
    ghost use Rattle.mr_io.specs.SinkStates.{SinkState};

    ghost Value = { SinkState };

    ghost view = { λ sink. record {
      held = record { bytes = sink.bytes.items; room = sink.room };
      calls = sink.calls;
      takes = sink.takes.items;
      fails = sink.fails.items;
      faults = sink.faults;
    } };

    ghost invariant = { λ sink. vec_len sink.bytes + sink.room ≤ vec_capacity sink.bytes };
}

impl MemSink {
    /// An empty sink with room for `room` bytes. Its puts are numbered from 1: `takes` lists the most
    /// bytes that the first puts take, and `fails` the puts that fail.
    pub fn new(
        alloc: Global,
        room: usize,
        takes: Vec<usize>,
        fails: Vec<u64>,
    ) -> Result<MemSink, NoMemory>
        ensures { IfOk result (λ sink. sink ≡ record {
          held = record { bytes = []; room = room };
          calls = 0;
          takes = takes.items;
          fails = fails.items;
          faults = 0;
        }) }
    {
        Ok(MemSink {
            bytes: Vec::with_capacity(alloc, room)?,
            room,
            calls: 0,
            takes,
            fails,
            faults: 0,
        })
    }

    /// The bytes taken.
    pub fn bytes(&self) -> &[u8]
        ensures { result.now ≡ self.now.held.bytes }
    {
        self.bytes.as_slice()
    }

    /// How many puts failed.
    pub fn faults(&self) -> u64
        ensures { result ≡ self.now.faults }
    {
        self.faults
    }
}

// How many of `count` bytes a put after `calls` others takes, with this room: none where it fails.
fn count_taken(calls: u64, takes: &[usize], fails: &[u64], room: usize, count: usize) -> usize
    ensures { result ≡ (if list_any (λ call. call == counted calls 1) fails.now then 0
        else min count (min room (get_or takes.now calls count))) }
{
    if fails.contains(&add_count(calls, 1)) {
        return 0;
    }
    let most = match takes.get(calls as usize) {
        Some(most) => *most,
        None => count,
    };
    count.min(room.min(most))
}

/// Appends bytes for which there is room.
pub(crate) fn append_within(kept: &mut Vec<u8>, bytes: &[u8])
    requires { vec_len kept.old + length bytes.now ≤ vec_capacity kept.old }
    ensures items { kept.new.items ≡ kept.old.items ++ bytes.now }
    ensures len { vec_len kept.new ≡ vec_len kept.old + length bytes.now }
    ensures capacity { vec_capacity kept.old ≤ vec_capacity kept.new }
{
    kept.extend_from_slice(bytes).unwrap();
}

impl Sink for MemSink {
    ghost held = { λ sink. Some sink.held };

    ghost faults = { λ sink. sink.faults };

    fn put(&mut self, bytes: &[u8]) -> Result<usize, Failed>
        ensures bound { IfOk result (λ n. (0 < n) × (n ≤ length bytes.now)) }
        ensures taken { IfOk result (λ n.
            Takes (Some self.old.held) (Some self.new.held) (take n bytes.now)) }
        ensures none { OnErr result (Takes (Some self.old.held) (Some self.new.held) []) }
        ensures cause { HasCause self.old.faults self.new.faults result }

        // Which puts fail and how many bytes the others take.
        ensures count { MatchResult result (λ n. n ≡ sink_takes self.old (length bytes.now))
            (λ _. sink_takes self.old (length bytes.now) ≡ 0) }
        ensures state { self.new
            ≡ sink_after self.old (take (sink_takes self.old (length bytes.now)) bytes.now) }
    {
        let count = count_taken(self.calls, &self.takes, &self.fails, self.room, bytes.len());
        self.calls = add_count(self.calls, 1);
        if count == 0 {
            self.faults = add_count(self.faults, 1);
            return Err(Failed);
        }
        append_within(&mut self.bytes, &bytes[..count]);
        self.room -= count;
        Ok(count)
    }
}

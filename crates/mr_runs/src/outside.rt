//! How the outside of a run behaves: which of its calls fail, and how many bytes they give or take.

use mr_bits::NoMemory;
use mr_io::{MemSink, MemSource};
use std::alloc::Global;

/// How a script gives its bytes.
#[derive(Clone, Copy)]
pub struct Gives {
    /// The most bytes that a call gives.
    pub most: usize,
    /// The calls that fail, from 1.
    pub fails: &'static [u64],
}

/// Each call gives as many bytes as it is asked for.
pub const AT_ONCE: Gives = Gives {
    most: 2_097_152,
    fails: &[],
};

/// How a sink takes its bytes.
#[derive(Clone, Copy)]
pub struct Puts {
    /// The most bytes that it takes in all.
    pub room: usize,
    /// The most bytes that the first puts take.
    pub takes: &'static [usize],
    /// The puts that fail, from 1.
    pub fails: &'static [u64],
}

/// All puts take all their bytes, up to more than the small answers have.
pub const ROOMY: Puts = Puts {
    room: 65_536,
    takes: &[],
    fails: &[],
};

/// Which calls of the outside fail, and how many bytes they give or take.
#[derive(Clone, Copy)]
pub struct Schedule {
    /// The calls of eyes that fail: an eye, from 1, and its call, from 1. Call 0 is that of the files for the eye.
    pub eyes: &'static [(u64, u64)],
    /// How the script gives its bytes.
    pub script: Gives,
    /// How `out` takes its bytes.
    pub out: Puts,
    /// How the report takes its bytes.
    pub report: Puts,
}

/// Nothing fails.
pub const SOUND: Schedule = Schedule {
    eyes: &[],
    script: AT_ONCE,
    out: ROOMY,
    report: ROOMY,
};

/// A sink in memory that takes its bytes so.
pub fn sink_of(alloc: Global, puts: Puts) -> Result<MemSink, NoMemory> {
    let takes = Vec::from_slice(alloc, puts.takes)?;
    let fails = Vec::from_slice(alloc, puts.fails)?;
    MemSink::new(alloc, puts.room, takes, fails)
}

/// A source in memory of these bytes that gives them so, at least one in each call.
pub fn source_of(alloc: Global, bytes: Vec<u8>, gives: Gives) -> Result<MemSource, NoMemory> {
    let fails = Vec::from_slice(alloc, gives.fails)?;
    Ok(MemSource::slow(bytes, fails, gives.most.max(1)))
}

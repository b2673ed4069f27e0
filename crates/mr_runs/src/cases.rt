//! Cases of tables: what a run is given, and what it is to answer and to leave.

use crate::bytes::Bytes;
use crate::misses::Miss;
use crate::outside::{SOUND, Schedule};
use crate::trials::{Trial, check_trial};
use mr_fixture::RDP_3;
use std::alloc::Global;
use std::thread::Threads;

/// What a run is given, and what it is to answer and to leave.
#[derive(Clone, Copy)]
pub struct Case {
    /// The words of the command line.
    pub words: &'static [&'static str],
    /// The files, by their names.
    pub files: &'static [(&'static str, Bytes)],
    /// What the script gives.
    pub script: Bytes,
    /// Which calls of the outside fail.
    pub schedule: Schedule,
    /// The status.
    pub status: u8,
    /// What `out` takes.
    pub out: Bytes,
    /// What the report takes.
    pub report: &'static str,
    /// The faults of the files, of the script, of `out` and of the report.
    pub faults: [u64; 4],
    /// The bytes taken of texts, of heads, to mend, for replies and of survivors.
    pub taken: [u64; 5],
    /// The bytes that are left in the script.
    pub left: usize,
}

/// A run without files. No script is there, nothing fails, nothing is read, and nothing is written.
pub const BARE: Case = Case {
    words: &[],
    files: &[],
    script: Bytes::Text(""),
    schedule: SOUND,
    status: 0,
    out: Bytes::Text(""),
    report: "",
    faults: [0; 4],
    taken: [0; 5],
    left: 0,
};

/// A run over the matrix of row-diagonal parity for the prime 3 as the file `m`, whose 55 bytes are read.
pub const ON_RDP_3: Case = Case {
    files: &[("m", Bytes::Text(RDP_3))],
    taken: [55, 0, 0, 0, 0],
    ..BARE
};

/// Runs a case: `Err` where it answers or leaves something else than it is to.
pub fn check_case<T: Threads + Sync>(rt: &T, alloc: Global, case: &Case) -> Result<(), Miss> {
    check_trial(rt, alloc, Trial::of(alloc, case)?)
}

/// Runs each case, up to the first that misses.
pub fn check_cases<T: Threads + Sync>(rt: &T, alloc: Global, cases: &[Case]) -> Result<(), Miss> {
    for case in cases {
        check_case(rt, alloc, case)?;
    }
    Ok(())
}

//! A run of the top call, and what it answered and left.

use crate::given::Given;
use crate::outside::{sink_of, source_of};
use mr_bits::NoMemory;
use mr_io::{Duty, Gate, MemFiles, MemSource, Source};
use mr_kern::{XorKernel, block_plain};
use mr_top::run;
use std::alloc::Global;
use std::thread::Threads;

/// What a run answered and left.
#[derive(Debug, Drop)]
pub struct Ran {
    /// Its status.
    pub status: u8,
    /// What `out` took.
    pub out: Vec<u8>,
    /// What the report took.
    pub report: Vec<u8>,
    /// The faults of the files, of the script, of `out` and of the report.
    pub faults: [u64; 4],
    /// The bytes taken of texts, of heads, to mend, for replies and of survivors.
    pub taken: [u64; 5],
    /// The bytes that are left in the script, of the first that its next calls give.
    pub left: usize,
}

/// Runs the words over what is given, past this gate.
pub fn run_by<T: Threads + Sync, G: Gate + Sync>(
    rt: &T,
    alloc: Global,
    words: &[String],
    given: Given,
    gate: &G,
) -> Result<Ran, NoMemory> {
    let Given {
        files,
        script,
        schedule,
    } = given;
    let mut files = MemFiles::new(alloc, files, Vec::from_slice(alloc, schedule.eyes)?)?;
    let mut script = source_of(alloc, script, schedule.script)?;
    let mut out = sink_of(alloc, schedule.out)?;
    let mut report = sink_of(alloc, schedule.report)?;
    let kernel = XorKernel::new(block_plain);
    let status = run(
        rt,
        alloc,
        words,
        &mut files,
        &mut script,
        &mut out,
        &mut report,
        gate,
        &kernel,
    );
    Ok(Ran {
        status,
        out: Vec::from_slice(alloc, out.bytes())?,
        report: Vec::from_slice(alloc, report.bytes())?,
        faults: [
            files.faults(),
            script.faults(),
            out.faults(),
            report.faults(),
        ],
        taken: taken_of(&files),
        left: left_of(&mut script),
    })
}

/// The bytes that the files counted for each duty.
fn taken_of(files: &MemFiles) -> [u64; 5] {
    [
        files.total(Duty::Text),
        files.total(Duty::Head),
        files.total(Duty::Mend),
        files.total(Duty::Live),
        files.total(Duty::Copy),
    ]
}

/// How many bytes the next 16 calls of a script give, of at most 256 each. A call that fails gives none.
fn left_of(script: &mut MemSource) -> usize {
    let mut left: usize = 0;
    let mut room = [0; 256];
    for _ in 0..16 {
        left = left.saturating_add(script.get(&mut room).unwrap_or(0));
    }
    left
}

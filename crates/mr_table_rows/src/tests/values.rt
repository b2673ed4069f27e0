//! Runs of the words of `table`.

use mr_bits::NoMemory;
use mr_io::{MemFiles, MemSink, MemSource, OpenGate, Text};
use mr_kern::{XorKernel, block_plain};
use mr_late::run_waiting;
use std::alloc::Global;
use std::sync::Wait;
use std::thread::Threads;

/// The words of a line, with a space between each two.
fn words_in(alloc: Global, line: &str) -> Result<Vec<String>, NoMemory> {
    let mut list = Vec::new(alloc);
    for word in line.split(' ') {
        list.push(String::from_str(alloc, word)?)?;
    }
    Ok(list)
}

/// The status of a run of these words over a file `m` of this text, and what it wrote to `out` and
/// to the report.
pub fn run_words<T: Threads + Wait + Sync>(
    rt: &T,
    alloc: Global,
    line: &str,
    matrix: &str,
) -> Result<(u8, Vec<u8>, Vec<u8>), NoMemory> {
    let words = words_in(alloc, line)?;
    let name = Text::of(String::from_str(alloc, "m")?);
    let bytes = Vec::from_slice(alloc, matrix.as_bytes())?;
    let mut files = MemFiles::new(alloc, vec![in alloc; (name, bytes)]?, Vec::new(alloc))?;
    let mut script = MemSource::slow(Vec::new(alloc), Vec::new(alloc), 1);
    let mut out = MemSink::new(alloc, 65_536, Vec::new(alloc), Vec::new(alloc))?;
    let mut report = MemSink::new(alloc, 65_536, Vec::new(alloc), Vec::new(alloc))?;
    let kernel = XorKernel::new(block_plain);
    let status = run_waiting(
        rt,
        alloc,
        &words,
        &mut files,
        &mut script,
        &mut out,
        &mut report,
        &OpenGate,
        &kernel,
    );
    let answer = Vec::from_slice(alloc, out.bytes())?;
    let line = Vec::from_slice(alloc, report.bytes())?;
    Ok((status, answer, line))
}

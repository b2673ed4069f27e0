//! The lines of drills. They are those that `tools/drill-digests` works out from the codewords alone.

mod gates;

use crate::tests::gates::Counting;
use mr_drill_run::{print_summary, run_drill};
use mr_fixture::shown;
use mr_io::{Gate, OpenGate, SureSink};
use mr_kern::{XorKernel, block_lanes, block_plain};
use mr_kern_calls::block_downwards;
use std::alloc::Global;
use std::process::Abort;
use std::test::Fail;
use std::thread::Threads;

/// Room for the lines of a drill.
const ROOM: usize = 1024;

/// The lines of the drills of some numbers.
static LINES: [(u32, &str); 3] = [
    (
        0,
        "drill 0
lost 0
least cost 12
stripes 64
replies 64
image 487a0ac152c34000
reply 9b7ef4db14a24300
",
    ),
    (
        4,
        "drill 4
lost 4
least cost 12
stripes 64
replies 64
image 263709c5a2d14000
reply 43b0c15d33faa500
",
    ),
    (
        5,
        "drill 5
lost 5
least cost 16
stripes 64
replies 64
image c64dde71388ec000
reply 68f0985755f70400
",
    ),
];

/// Runs the drill of this number past a gate, by this kernel, which is to write these lines.
fn assert_drilled<T: Abort + Threads + Sync, G: Gate + Sync>(
    rt: &T,
    alloc: Global,
    gate: &G,
    kernel: &XorKernel,
    number: u32,
    lines: &str,
) -> Result<(), Fail> {
    let summary = run_drill(rt, alloc, gate, kernel, number)?;
    let mut out = SureSink::new(alloc, ROOM)?;
    print_summary(&summary, &mut out)?;
    assert_eq!(rt; shown(out.bytes()), lines);
    Ok(())
}

#[test]
fn drills(rt: HostRuntime) -> Result<(), Fail> {
    let kernel = XorKernel::new(block_lanes);
    for (number, lines) in &LINES {
        assert_drilled(&rt, rt.alloc(), &OpenGate, &kernel, *number, lines)?;
    }
    Ok(())
}

#[test]
fn every_kernel_gives_the_same(rt: HostRuntime) -> Result<(), Fail> {
    let kernels = [XorKernel::new(block_plain), XorKernel::new(block_downwards)];
    for kernel in &kernels {
        assert_drilled(&rt, rt.alloc(), &OpenGate, kernel, LINES[0].0, LINES[0].1)?;
    }
    Ok(())
}

#[test]
fn each_stripe_and_each_reply_is_done_once(rt: HostRuntime) -> Result<(), Fail> {
    let gate = Counting::new(rt.alloc())?;
    let kernel = XorKernel::new(block_plain);
    assert_drilled(&rt, rt.alloc(), &gate, &kernel, LINES[0].0, LINES[0].1)?;
    gate.assert_once(&rt);
    Ok(())
}

//! The gate test, over row-diagonal parity of the prime 3: symbol 4 is the XOR of 0 and 2, 5 that of 1 and 3, 6 that of 0,
//! 1 and 3, and 7 that of 1 and 2. Each symbol is one byte eight times.

ghost use Rattle.std.specs.Prelude.{◌≡◌, All, IfOk};
ghost use Rattle.mr_image.specs.Rotated.{FitsCode};
ghost use Rattle.mr_kept.specs.Kept.{AreAmendable};
ghost use Rattle.mr_ops.specs.Ops.{IsOpOf};

use mr_amend::Job;
use mr_bits::{Mask, Matrix};
use mr_callers::{Amended, amend_image};
use mr_fixture::{Mark, RDP_3};
use mr_form::read_matrix;
use mr_image::ImageHead;
use mr_io::{Duty, Eye, Files, Gate, MemSink, Point, SureEye, SureFiles, Text};
use mr_kept::laws::valid_plans_are_amendable;
use mr_kern::{XorKernel, block_plain};
use mr_ops::{OPS_LIMIT, read_ops};
use mr_plan::{Plan, Plans, check};
use std::alloc::Global;
use std::process::Abort;
use std::sync::Wait;
use std::test::Fail;
use std::thread::Threads;

/// How often a hold looks before it gives up.
const LOOKS: u64 = 100_000_000;

/// The plan for device 0.
const PLAN: &str = "plan 1 given\nset 3 5 6\n0 = 5 6\n1 = 3 5\nend\n";

/// The symbols of a stripe that has lost device 0: the data are bytes 1, 2, 4 and 8.
const LOST: [u8; 8] = [255, 255, 4, 8, 5, 10, 11, 6];

/// The symbols of its codeword.
const WHOLE: [u8; 8] = [1, 2, 4, 8, 5, 10, 11, 6];

/// Each of two stripes is held when it is taken until the other is.
#[derive(Drop)]
struct Meeting {
    first: Mark,
    second: Mark,
    gave_up: Mark,
}

impl Meeting {
    fn new() -> Meeting {
        Meeting {
            first: Mark::new(0),
            second: Mark::new(0),
            gave_up: Mark::new(0),
        }
    }

    fn wait_for(&self, mark: &Mark) {
        for _ in 0..LOOKS {
            if mark.get() != 0 {
                return;
            }
        }
        self.gave_up.set(1);
    }
}

impl Gate for Meeting {
    fn pass(&self, point: Point) {
        match point {
            Point::Held { stripe: 0 } => {
                self.first.set(1);
                self.wait_for(&self.second);
            }
            Point::Held { .. } => {
                self.second.set(1);
                self.wait_for(&self.first);
            }
            _ => {}
        }
    }
}

/// The matrix.
fn code(rt: &impl Abort) -> Matrix {
    let bytes = RDP_3.as_bytes();
    assert!(rt; bytes.len() <= 65_536, "the text is too long");
    read_matrix(bytes).expect(rt, "the text is a matrix")
}

/// The plan, for all stripes.
fn plans(rt: &impl Abort, alloc: Global, head: &ImageHead, matrix: &Matrix) -> Result<Plans, Fail>
    requires head { FitsCode head.now matrix.now }
    requires version { head.now.version ≡ 1 }
    ensures { IfOk result (λ plans. AreAmendable head.now plans) }
{
    let _within_the_limits = matrix.shape();
    let plan = Plan::read(PLAN.as_bytes())?;
    let lost = Mask::of(3);
    assert!(rt; lost.number() <= matrix.all().number());
    assert!(rt; check(matrix, lost, &plan).is_ok());
    valid_plans_are_amendable(head);
    let mut list = Vec::new(alloc);
    list.push(plan)?;
    Ok(Plans::new(list))
}

/// An image of two stripes without device 0, of which nothing is asked.
fn job(rt: &impl Abort, alloc: Global) -> Result<Job, Fail>
    ensures plans { IfOk result (λ job. AreAmendable job.head job.plans) }
    ensures code { IfOk result (λ job. FitsCode job.head job.matrix) }
    ensures ops { IfOk result (λ job. All (IsOpOf job.head job.matrix.columns) job.ops.items) }
{
    let matrix = code(rt);
    let head = ImageHead::new(matrix.shape(), 8, 2)?;
    assert!(rt; head.version() == 1);
    assert!(rt; head.n() == matrix.shape().n() && head.w() == matrix.shape().w());
    let plans = plans(rt, alloc, &head, &matrix)?;
    let script = "".as_bytes();
    assert!(rt; script.len() <= OPS_LIMIT);
    let ops = read_ops(alloc, script, &head, matrix.shape().k())?;
    Ok(Job {
        head,
        matrix,
        plans,
        ops,
    })
}

/// These symbols for both stripes.
fn stripes(alloc: Global, symbols: [u8; 8]) -> Result<Vec<u8>, Fail> {
    let mut all = Vec::new(alloc);
    for i in 0..128usize {
        all.push(symbols[i / 8 % 8])?;
    }
    Ok(all)
}

/// The file `i`, which has those stripes.
fn files_of(alloc: Global, head: &ImageHead) -> Result<SureFiles, Fail> {
    let mut file = Vec::from_slice(alloc, &head.print())?;
    file.extend_from_slice(&stripes(alloc, LOST)?)?;
    let mut list = Vec::new(alloc);
    list.push((Text::copy_of(alloc, "i")?, file))?;
    Ok(SureFiles::new(alloc, list)?)
}

/// The image behind an eye is amended by one worker, which is two callers.
fn amended<T: Abort + Threads + Wait + Sync, G: Gate + Sync>(
    rt: &T,
    alloc: Global,
    eye: &mut SureEye,
    job: Job,
    gate: &G,
) -> Result<(), Fail>
    requires plans { AreAmendable job.head job.plans }
    requires code { FitsCode job.head job.matrix }
    requires ops { All (IsOpOf job.head job.matrix.columns) job.ops.items }
{
    let length = eye.len()?;
    assert!(rt; length == job.head.file_bytes());
    assert!(rt; job.ops.is_empty());
    let kernel = XorKernel::new(block_plain);
    let Amended { terms, ending } = amend_image(rt, alloc, eye, job, &kernel, 1, gate)?;
    let mut out = MemSink::new(alloc, 200, Vec::new(alloc), Vec::new(alloc))?;
    assert!(rt; ending.print_image(&terms, &mut out).is_ok());
    assert!(rt; out.bytes() == stripes(alloc, WHOLE)?.as_slice());
    let mut report = MemSink::new(alloc, 200, Vec::new(alloc), Vec::new(alloc))?;
    assert!(rt; terms.head.bytes() == 8);
    let mut digits = [0; 16];
    assert!(rt;
        ending
            .print_report(&terms, &mut digits, &mut report)
            .is_ok()
    );
    assert!(rt; report.bytes().is_empty());
    Ok(())
}

/// Two callers each hold a stripe at the same time.
#[test]
fn gate_amend(rt: HostRuntime) -> Result<(), Fail> {
    let job = job(&rt, rt.alloc())?;
    let mut files = files_of(rt.alloc(), &job.head)?;
    let mut eye = files.eye("i", Duty::Copy)?;
    let gate = Meeting::new();
    let outcome = amended(&rt, rt.alloc(), &mut eye, job, &gate);
    files.retire(eye);
    outcome?;
    assert_eq!(&rt; files.total(Duty::Copy), 96);
    assert_eq!(&rt; gate.gave_up.get(), 0);
    assert!(&rt; gate.first.get() == 1 && gate.second.get() == 1);
    Ok(())
}

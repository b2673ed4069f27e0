//! The test, over row-diagonal parity of the prime 3: symbol 4 is the XOR of 0 and 2, 5 that of 1 and 3, 6 that of 0, 1
//! and 3, and 7 that of 1 and 2. Each symbol is one byte eight times.

ghost use Rattle.std.specs.Prelude.{◌≡◌, ◌<◌, ◌≤◌, ℕ, [], length, slice_index_or, All, IfOk};
ghost use Rattle.mr_image.specs.Rotated.{FitsCode};
ghost use Rattle.mr_kept.specs.Kept.{AreAmendable, stripe_bytes};
ghost use Rattle.mr_ops.specs.Ops.{IsOpOf};
ghost use Rattle.mr_history.specs.declared.kept.KeptStripe.{KeptStripe as AStripe};
ghost use Rattle.mr_history.specs.Histories.{names_of, stripes};
ghost use Rattle.mr_locks.specs.Rule.{first_view};
ghost use Rattle.mr_locks.specs.Seats.{names};
ghost use Rattle.mr_amend.specs.Callers.{AreAll, IsCallerOf, share, view};

use mr_amend::{Amend, Caller, Closed, Done, Job, Opened};
use mr_bits::{Mask, Matrix};
use mr_fixture::RDP_3;
use mr_form::read_matrix;
use mr_history::{Entry, Server};
use mr_image::ImageHead;
use mr_io::{Duty, Eye, Files, OpenGate, SureEye, SureFiles, Text};
use mr_kept::laws::valid_plans_are_amendable;
use mr_kern::{XorKernel, block_plain};
use mr_ops::{OPS_LIMIT, read_ops};
use mr_plan::{Plan, Plans, check};
use std::alloc::Global;
use std::process::Abort;
use std::sync::Wait;
use std::test::Fail;

/// The plan for device 0.
const PLAN: &str = "plan 1 given\nset 3 5 6\n0 = 5 6\n1 = 3 5\nend\n";

/// The symbols of a stripe that has lost device 0: the data are bytes 1, 2, 4 and 8.
const LOST: [u8; 8] = [255, 255, 4, 8, 5, 10, 11, 6];

/// Reads and a write of one stripe that is not whole.
const ASKS: &str = "r 0 0
w 0 1010101010101010202020202020202040404040404040408080808080808080
r 0 0
";

/// The matrix.
fn code(rt: &impl Abort) -> Matrix {
    let bytes = RDP_3.as_bytes();
    assert!(rt; bytes.len() <= 65_536, "the text is too long");
    read_matrix(bytes).expect(rt, "the text is a matrix")
}

/// The plan, for all stripes.
fn plans(rt: &impl Abort, alloc: Global, head: &ImageHead, matrix: &Matrix) -> Result<Plans, Fail>
    requires head { FitsCode head.now matrix.now }
    requires version { head.now.version ≡ 1 }
    ensures { IfOk result (λ plans. AreAmendable head.now plans) }
{
    let _within_the_limits = matrix.shape();
    let plan = Plan::read(PLAN.as_bytes())?;
    let lost = Mask::of(3);
    assert!(rt; lost.number() <= matrix.all().number());
    assert!(rt; check(matrix, lost, &plan).is_ok());
    valid_plans_are_amendable(head);
    let mut list = Vec::new(alloc);
    list.push(plan)?;
    Ok(Plans::new(list))
}

/// The asks of an image of one stripe without device 0.
fn job(rt: &impl Abort, alloc: Global) -> Result<Job, Fail>
    ensures plans { IfOk result (λ job. AreAmendable job.head job.plans) }
    ensures code { IfOk result (λ job. FitsCode job.head job.matrix) }
    ensures ops { IfOk result (λ job. All (IsOpOf job.head job.matrix.columns) job.ops.items) }
{
    let matrix = code(rt);
    let head = ImageHead::new(matrix.shape(), 8, 1)?;
    assert!(rt; head.version() == 1);
    assert!(rt; head.n() == matrix.shape().n() && head.w() == matrix.shape().w());
    let plans = plans(rt, alloc, &head, &matrix)?;
    let script = ASKS.as_bytes();
    assert!(rt; script.len() <= OPS_LIMIT);
    let ops = read_ops(alloc, script, &head, matrix.shape().k())?;
    Ok(Job {
        head,
        matrix,
        plans,
        ops,
    })
}

/// The file `i`, which has that stripe.
fn files_of(alloc: Global, head: &ImageHead) -> Result<SureFiles, Fail> {
    let mut file = Vec::from_slice(alloc, &head.print())?;
    for i in 0..64usize {
        file.push(LOST[i / 8])?;
    }
    let mut list = Vec::new(alloc);
    list.push((Text::copy_of(alloc, "i")?, file))?;
    Ok(SureFiles::new(alloc, list)?)
}

/// The image behind an eye.
fn opened(rt: &impl Abort, alloc: Global, eye: &mut SureEye, job: Job) -> Result<Opened, Fail>
    requires plans { AreAmendable job.head job.plans }
    requires code { FitsCode job.head job.matrix }
    requires ops { All (IsOpOf job.head job.matrix.columns) job.ops.items }
    ensures names { IfOk result (λ opened. names opened.amend.locks ≡ names_of opened.terms) }
    ensures first { IfOk result (λ opened. IsCallerOf opened.amend opened.first) }
    ensures view { IfOk result (λ opened. view opened.first ≡ first_view (names_of opened.terms)) }
    ensures size { IfOk result (λ opened. opened.terms.head.symbol_bytes ≡ 8) }
    ensures symbols { IfOk result (λ opened. stripe_bytes opened.terms.head ≡ 64) }
    ensures stripes { IfOk result (λ opened. opened.terms.head.stripes ≡ 1) }
{
    let length = eye.len()?;
    assert!(rt; length == job.head.file_bytes());
    assert!(rt; job.ops.len() == 3);
    let opened = Opened::of(alloc, eye, job)?;
    assert!(rt; opened.terms.head.symbols() == 8 && opened.terms.head.bytes() == 8);
    assert!(rt; opened.terms.head.stripes() == 1);
    Ok(opened)
}

/// The caller makes its asks: one that is read by the recipe, a write, and one that is read after it.
fn ask_all<T: Abort + Wait>(rt: &T, amend: &Amend, server: &Server, caller: &mut Caller)
    requires terms { names_of server.now.terms.now ≡ names amend.now.locks }
    requires caller { IsCallerOf amend.now caller.old }
    requires size { (names amend.now.locks).head.symbol_bytes ≡ 8 }
    ensures caller { IsCallerOf amend.now caller.new }
    ensures share { share (view caller.new) ≡ share (view caller.old) }
    ensures none { (view caller.new).asks ≡ [] }
{
    let mut reply = [0; 8];
    for number in 0..3 {
        let done = amend.ask_next(rt, server, caller, &mut reply, &OpenGate);
        let place = number;
        assert!(rt; done == Some(Done { number, place }));
        assert!(rt; number != 0 || reply == [1; 8]);
        assert!(rt; number != 2 || reply == [16; 8]);
    }
    let done = amend.ask_next(rt, server, caller, &mut reply, &OpenGate);
    assert!(rt; done.is_none());
}

/// The caller mends the stripe.
fn mend_all<T: Abort + Wait>(rt: &T, amend: &Amend, server: &Server, caller: &mut Caller)
    requires terms { names_of server.now.terms.now ≡ names amend.now.locks }
    requires caller { IsCallerOf amend.now caller.old }
    ensures caller { IsCallerOf amend.now caller.new }
    ensures share { share (view caller.new) ≡ share (view caller.old) }
    ensures asks { (view caller.new).asks ≡ (view caller.old).asks }
    ensures none { (view caller.new).mends ≡ [] }
{
    let done = amend.mend_next(rt, server, caller, &OpenGate);
    let (number, place) = (0, 3);
    assert!(rt; done == Some(Done { number, place }));
    let done = amend.mend_next(rt, server, caller, &OpenGate);
    assert!(rt; done.is_none());
}

/// The stripe with its history, when one caller made all calls.
fn closed<T: Abort + Wait>(
    rt: &T,
    amend: Amend,
    server: &Server,
    mut callers: Vec<Caller>,
) -> Closed
    requires terms { names_of server.now.terms.now ≡ names amend.locks }
    requires size { (names amend.locks).head.symbol_bytes ≡ 8 }
    requires count { length callers.items ≡ 1 }
    requires callers { All (IsCallerOf amend) callers.items }
    requires all { AreAll (names amend.locks) callers.items }
    ensures count { length result.stripes.items ≡ server.now.terms.now.head.stripes }
    ensures size { (t : ℕ) (d : AStripe) → t < server.now.terms.now.head.stripes
        → length (slice_index_or result.stripes.items t d).bytes.items
        ≡ stripe_bytes server.now.terms.now.head }
{
    ask_all(rt, &amend, server, &mut callers[0]);
    mend_all(rt, &amend, server, &mut callers[0]);
    amend.close(callers)
}

#[test]
fn three_asks_and_a_mend(rt: HostRuntime) -> Result<(), Fail> {
    let job = job(&rt, rt.alloc())?;
    let mut files = files_of(rt.alloc(), &job.head)?;
    let mut eye = files.eye("i", Duty::Copy)?;
    let opened = opened(&rt, rt.alloc(), &mut eye, job);
    files.retire(eye);
    assert_eq!(&rt; files.total(Duty::Copy), 48);
    let Opened {
        terms,
        amend,
        first,
    } = opened?;
    let callers = amend.callers(rt.alloc(), first, 1)?;
    let kernel = XorKernel::new(block_plain);
    let server = Server {
        terms: &terms,
        kernel: &kernel,
    };
    let closed = closed(&rt, amend, &server, callers);
    let history = [
        Entry::Ask { number: 0 },
        Entry::Ask { number: 1 },
        Entry::Ask { number: 2 },
        Entry::Mend,
    ];
    assert!(&rt; closed.history(0) == history.as_slice());
    assert!(&rt; closed.symbol(&terms.head, 0, 1) == [32; 8].as_slice());
    Ok(())
}

//! The tests, over row-diagonal parity of the prime 3: symbol 4 is the XOR of 0 and 2, 5 that of 1 and 3, 6 that of 0, 1
//! and 3, and 7 that of 1 and 2. Each symbol is one byte eight times.

ghost use Rattle.std.specs.Prelude.{◌≡◌, IfOk};
ghost use Rattle.mr_image.specs.Rotated.{FitsCode};
ghost use Rattle.mr_kept.specs.Kept.{AreAmendable};

use mr_bits::{Mask, Matrix};
use mr_fixture::RDP_3;
use mr_form::read_matrix;
use mr_image::ImageHead;
use mr_io::{Duty, Eye, Files, SureEye, SureFiles, Text};
use mr_kept::laws::valid_plans_are_amendable;
use mr_kept::{Keeper, read_stripes};
use mr_kern::{XorKernel, block_plain};
use mr_plan::{Plan, Plans, check};
use std::alloc::Global;
use std::collections::VecDeque;
use std::process::Abort;
use std::test::Fail;

/// The plan for device 0.
const PLAN: &str = "plan 1 given\nset 3 5 6\n0 = 5 6\n1 = 3 5\nend\n";

/// The symbols of a stripe that has lost device 0: the data are bytes 1, 2, 4 and 8.
const LOST: [u8; 8] = [255, 255, 4, 8, 5, 10, 11, 6];

/// The matrix.
fn code(rt: &impl Abort) -> Matrix {
    let bytes = RDP_3.as_bytes();
    assert!(rt; bytes.len() <= 65_536, "the text is too long");
    read_matrix(bytes).expect(rt, "the text is a matrix")
}

/// Each of these eight times.
fn symbols(bytes: [u8; 8]) -> [u8; 64] {
    let mut all = [0; 64];
    for i in 0..64usize {
        all[i] = bytes[i / 8];
    }
    all
}

/// The plan, for all stripes.
fn plans(rt: &impl Abort, alloc: Global, head: &ImageHead, matrix: &Matrix) -> Result<Plans, Fail>
    requires head { FitsCode head.now matrix.now }
    requires version { head.now.version ≡ 1 }
    ensures { IfOk result (λ plans. AreAmendable head.now plans) }
{
    let _within_the_limits = matrix.shape();
    let plan = Plan::read(PLAN.as_bytes())?;
    let lost = Mask::of(3);
    assert!(rt; lost.number() <= matrix.all().number());
    assert!(rt; check(matrix, lost, &plan).is_ok());
    valid_plans_are_amendable(head);
    let mut list = Vec::new(alloc);
    list.push(plan)?;
    Ok(Plans::new(list))
}

/// The stripes behind an eye.
fn stripes_of(
    rt: &impl Abort,
    alloc: Global,
    eye: &mut SureEye,
    head: &ImageHead,
    plans: &Plans,
) -> Result<VecDeque<Vec<u8>>, Fail>
    requires { AreAmendable head.now plans.now }
{
    let length = eye.len()?;
    assert!(rt; length == head.file_bytes());
    Ok(read_stripes(alloc, eye, head, plans)?)
}

/// The file `i`, which has one stripe without device 0.
fn files_of(alloc: Global, head: &ImageHead) -> Result<SureFiles, Fail> {
    let mut file = Vec::from_slice(alloc, &head.print())?;
    file.extend_from_slice(&symbols(LOST))?;
    let mut list = Vec::new(alloc);
    list.push((Text::copy_of(alloc, "i")?, file))?;
    Ok(SureFiles::new(alloc, list)?)
}

/// A lost symbol is read, and the stripe is mended.
fn mended(rt: &impl Abort, keeper: &Keeper, stripe: &mut [u8])
    requires { AreAmendable keeper.now.head.now keeper.now.plans.now }
{
    assert!(rt; keeper.head.symbols() == 8 && keeper.head.bytes() == 8);
    assert!(rt; stripe.len() == 64);
    let mut symbol = [0; 8];
    keeper.read(0, stripe, 1, &mut symbol);
    assert!(rt; symbol == [2; 8]);
    keeper.mend(0, stripe);
    assert!(rt; &*stripe == symbols([1, 2, 4, 8, 5, 10, 11, 6]).as_slice());
}

/// Four symbols of data.
fn data() -> [u8; 32] {
    let bytes = [16, 32, 64, 128];
    let mut all = [0; 32];
    for i in 0..32usize {
        all[i] = bytes[i / 8];
    }
    all
}

/// They are written.
fn written(rt: &impl Abort, keeper: &Keeper, stripe: &mut [u8])
    requires { FitsCode keeper.now.head.now keeper.now.matrix.now }
{
    assert!(rt; keeper.head.symbols() == 8 && keeper.head.bytes() == 8);
    assert!(rt; keeper.matrix.shape().k() == 4 && stripe.len() == 64);
    keeper.write(0, &data(), stripe);
    assert!(rt; &*stripe == symbols([16, 32, 64, 128, 80, 160, 176, 96]).as_slice());
}

#[test]
fn stripes(rt: HostRuntime) -> Result<(), Fail> {
    let matrix = code(&rt);
    let head = ImageHead::new(matrix.shape(), 8, 1)?;
    assert!(&rt; head.version() == 1);
    assert!(&rt; head.n() == matrix.shape().n() && head.w() == matrix.shape().w());
    let plans = plans(&rt, rt.alloc(), &head, &matrix)?;
    let mut files = files_of(rt.alloc(), &head)?;
    let mut eye = files.eye("i", Duty::Copy)?;
    let stripes = stripes_of(&rt, rt.alloc(), &mut eye, &head, &plans);
    files.retire(eye);
    let mut stripes = stripes?;
    assert_eq!(&rt; files.total(Duty::Copy), 48);
    let mut stripe = stripes.pop_front().expect(&rt, "there is no stripe");
    assert!(&rt; stripe.as_slice() == symbols([0, 0, 4, 8, 5, 10, 11, 6]).as_slice());
    let kernel = XorKernel::new(block_plain);
    let keeper = Keeper {
        head: &head,
        matrix: &matrix,
        plans: &plans,
        kernel: &kernel,
    };
    mended(&rt, &keeper, &mut stripe);
    written(&rt, &keeper, &mut stripe);
    Ok(())
}

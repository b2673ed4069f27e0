//! The test, over row-diagonal parity of the prime 3: symbol 4 is the XOR of 0 and 2, 5 that of 1 and 3, 6 that of 0, 1
//! and 3, and 7 that of 1 and 2. Each symbol is one byte eight times.

ghost use Rattle.std.specs.Prelude.{◌≡◌, ◌*◌, ◌∷◌, ℕ, [], length, slice_index_or, All, IfOk};
ghost use Rattle.mr_image.specs.Rotated.{FitsCode};
ghost use Rattle.mr_kept.specs.Kept.{AreAmendable, stripe_bytes};
ghost use Rattle.mr_history.specs.declared.kept.KeptStripe.{KeptStripe as AStripe};
ghost use Rattle.mr_history.specs.Histories.{PartsFit, bytes_read, names_of};
ghost use Rattle.mr_locks.specs.Rule.{first_view};
ghost use Rattle.mr_ops.specs.Ops.{IsOpOf};
ghost use Rattle.mr_locks.specs.Seats.{IsSeatOf, names};

use mr_bits::{Mask, Matrix};
use mr_fixture::RDP_3;
use mr_form::read_matrix;
use mr_history::{Entry, KeptStripe, Server, Terms};
use mr_image::ImageHead;
use mr_kept::laws::valid_plans_are_amendable;
use mr_kern::{XorKernel, block_plain};
use mr_locks::{LockSeat, Locks};
use mr_ops::{OPS_LIMIT, Op, read_ops};
use mr_plan::{Plan, Plans, check};
use std::alloc::Global;
use std::collections::VecDeque;
use std::process::Abort;
use std::snapshot::Snapshot;
use std::sync::Wait;
use std::test::Fail;

/// The plan for device 0.
const PLAN: &str = "plan 1 given\nset 3 5 6\n0 = 5 6\n1 = 3 5\nend\n";

/// The matrix.
fn code(rt: &impl Abort) -> Matrix {
    let bytes = RDP_3.as_bytes();
    assert!(rt; bytes.len() <= 65_536, "the text is too long");
    read_matrix(bytes).expect(rt, "the text is a matrix")
}

/// Each of these eight times.
fn symbols(alloc: Global, bytes: [u8; 8]) -> Result<Vec<u8>, Fail>
    ensures { IfOk result (λ all. length all.items ≡ 64) }
{
    let mut all = vec![in alloc; 0; 64]?;
    for i in 0..64usize {
        all[i] = bytes[i / 8];
    }
    Ok(all)
}

/// The plan, for all stripes.
fn plans(rt: &impl Abort, alloc: Global, head: &ImageHead, matrix: &Matrix) -> Result<Plans, Fail>
    requires head { FitsCode head.now matrix.now }
    requires version { head.now.version ≡ 1 }
    ensures { IfOk result (λ plans. AreAmendable head.now plans) }
{
    let _within_the_limits = matrix.shape();
    let plan = Plan::read(PLAN.as_bytes())?;
    let lost = Mask::of(3);
    assert!(rt; lost.number() <= matrix.all().number());
    assert!(rt; check(matrix, lost, &plan).is_ok());
    valid_plans_are_amendable(head);
    let mut list = Vec::new(alloc);
    list.push(plan)?;
    Ok(Plans::new(list))
}

/// What the calls on the stripes of an image of one stripe go by.
fn terms(
    head: ImageHead,
    matrix: Matrix,
    plans: Plans,
    image: &VecDeque<Vec<u8>>,
    ops: Vec<Op>,
) -> Terms
    requires plans { AreAmendable head plans }
    requires code { FitsCode head matrix }
    requires stripes { head.stripes ≡ 1 }
    requires symbols { head.devices * head.symbols_per_device * head.symbol_bytes ≡ 64 }
    requires count { length image.now.items ≡ 1 }
    requires widths { All (λ bytes. length bytes.items ≡ 64) image.now.items }
    requires ops { All (IsOpOf head matrix.columns) ops.items }
    ensures parts { PartsFit (names_of result) }
    ensures head { result.head ≡ head }
    ensures ops { result.ops.items ≡ ops.items }
    ensures image { result.image.value ≡ image.now }
{
    Terms {
        head,
        matrix,
        plans,
        image: Snapshot::of(image),
        ops,
    }
}

/// The locks of that stripe.
fn locks(alloc: Global, terms: &Terms, bytes: Vec<u8>) -> Result<(Locks, LockSeat), Fail>
    requires parts { PartsFit (names_of terms.now) }
    requires stripes { terms.now.head.stripes ≡ 1 }
    requires ops { terms.now.ops.items ≡ [] }
    requires bytes { bytes.items ≡ bytes_read (names_of terms.now) 0 }
    ensures names { IfOk result (λ made. names made.0 ≡ names_of terms.now) }
    ensures seat { IfOk result (λ made. IsSeatOf made.0 made.1) }
    ensures view { IfOk result (λ made. made.1.me ≡ (first_view (names_of terms.now), [])) }
{
    let kept = KeptStripe::of(alloc, bytes, 1)?;
    let mut stripes = Vec::new(alloc);
    stripes.push(kept)?;
    Ok(Locks::new(alloc, terms, stripes)?)
}

/// The stripe is taken, mended and given back, and taken out.
fn mended<T: Abort + Wait>(rt: &T, locks: Locks, seat: LockSeat, server: &Server) -> Vec<KeptStripe>
    requires parts { PartsFit (names locks) }
    requires terms { names_of server.now.terms.now ≡ names locks }
    requires stripes { (names locks).head.stripes ≡ 1 }
    requires ops { (names locks).ops ≡ [] }
    requires seat { IsSeatOf locks seat }
    requires view { seat.me ≡ (first_view (names locks), []) }
    ensures count { length result.items ≡ 1 }
    ensures size { (d : AStripe) → length (slice_index_or result.items 0 d).bytes.items
        ≡ stripe_bytes server.now.terms.now.head }
{
    let mut seat = seat;
    locks.lock(rt, &mut seat, 0);
    locks.mend(&mut seat, server, 0);
    let place = locks.unlock(&mut seat, 0, Entry::Mend);
    assert!(rt; place == 0);
    locks.close(seat)
}

/// The image of one stripe without device 0, and what calls on it go by, with these asks.
fn lost_stripe(rt: &impl Abort, alloc: Global, script: &str) -> Result<(Terms, Vec<u8>), Fail>
    ensures parts { IfOk result (λ made. PartsFit (names_of made.0)) }
    ensures stripes { IfOk result (λ made. made.0.head.stripes ≡ 1) }
    ensures symbols { IfOk result (λ made. stripe_bytes made.0.head ≡ 64) }
    ensures size { IfOk result (λ made. made.0.head.symbol_bytes ≡ 8) }
    ensures bytes { IfOk result (λ made. made.1.items ≡ bytes_read (names_of made.0) 0) }
    ensures long { IfOk result (λ made. length made.1.items ≡ 64) }
{
    let matrix = code(rt);
    let head = ImageHead::new(matrix.shape(), 8, 1)?;
    assert!(rt; head.version() == 1 && head.stripes() == 1);
    assert!(rt; head.n() == matrix.shape().n() && head.w() == matrix.shape().w());
    assert!(rt; head.symbols() == 8 && head.bytes() == 8);
    let plans = plans(rt, alloc, &head, &matrix)?;
    let bytes = symbols(alloc, [255, 255, 4, 8, 5, 10, 11, 6])?;
    let mut image = VecDeque::new(alloc);
    image.push_back(Vec::from_slice(alloc, &bytes)?)?;
    let asked = script.as_bytes();
    assert!(rt; asked.len() <= OPS_LIMIT);
    let ops = read_ops(alloc, asked, &head, matrix.shape().k())?;
    Ok((terms(head, matrix, plans, &image, ops), bytes))
}

#[test]
fn one_stripe(rt: HostRuntime) -> Result<(), Fail> {
    let (terms, bytes) = lost_stripe(&rt, rt.alloc(), "")?;
    assert!(&rt; terms.ops.is_empty());
    let (locks, seat) = locks(rt.alloc(), &terms, bytes)?;
    let kernel = XorKernel::new(block_plain);
    let server = Server {
        terms: &terms,
        kernel: &kernel,
    };
    let stripes = mended(&rt, locks, seat, &server);
    let kept = &stripes[0];
    assert!(&rt; kept.history() == [Entry::Mend].as_slice());
    assert!(&rt; kept.symbol(&terms.head, 1) == [2; 8].as_slice());
    Ok(())
}

/// Reads and a write of one stripe that is not whole.
const ASKS: &str = "r 0 1
w 0 1010101010101010202020202020202040404040404040408080808080808080
r 0 1
";

/// A lost symbol is read by its recipe, then the stripe is written, and read again.
#[test]
fn asks(rt: HostRuntime) -> Result<(), Fail> {
    let (terms, bytes) = lost_stripe(&rt, rt.alloc(), ASKS)?;
    assert!(&rt; terms.ops.len() == 3);
    let kernel = XorKernel::new(block_plain);
    let server = Server {
        terms: &terms,
        kernel: &kernel,
    };
    let mut kept = KeptStripe::of(rt.alloc(), bytes, 3)?;
    let mut reply = [0; 8];
    server.ask(&mut kept, 0, &mut reply);
    assert!(&rt; reply == [2; 8]);
    server.ask(&mut kept, 1, &mut reply);
    server.ask(&mut kept, 2, &mut reply);
    assert!(&rt; reply == [32; 8]);
    let history = [
        Entry::Ask { number: 0 },
        Entry::Ask { number: 1 },
        Entry::Ask { number: 2 },
    ];
    assert!(&rt; kept.history() == history.as_slice());
    Ok(())
}

//! The least cost known, and the chunks that two seats draw, for the loss of device 0 of row-diagonal parity of the prime 3.

ghost use Rattle.std.specs.Prelude.{◌≤◌, IfOk};
ghost use Rattle.mr_bound.specs.Cost.{least_cost};

use mr_bits::{Mask, Matrix};
use mr_bound::Bound;
use mr_eq::{Found, Problem};
use mr_fixture::RDP_3;
use mr_form::read_matrix;
use mr_front::search_one;
use std::alloc::Global;
use std::process::Abort;
use std::test::Fail;

/// The matrix.
fn matrix(rt: &impl Abort) -> Matrix {
    let bytes = RDP_3.as_bytes();
    assert!(rt; bytes.len() <= 65_536, "the text is too long");
    read_matrix(bytes).expect(rt, "the text is a matrix")
}

/// The problem of reading the symbols of the set `lost` of a matrix from all others.
fn problem_of(rt: &impl Abort, matrix: &Matrix, lost: Mask) -> Problem {
    assert!(rt;
        lost <= matrix.all(),
        "there are symbols that are not the matrix's"
    );
    Problem::new(matrix, matrix.all().minus(lost), lost).expect(rt, "the loss is determined")
}

/// What the set costs that the search finds with a budget of 12: the least cost or more.
fn cost_found(rt: &impl Abort, alloc: Global, problem: &Problem) -> Result<u64, Fail>
    ensures { IfOk result (λ cost. least_cost problem.now ≤ cost) }
{
    let _loss = problem.targets();
    match search_one(alloc, problem, 12)? {
        Found::Least { set, .. } => Ok(u64::from(problem.cost(set))),
        Found::Spent { .. } => panic!(rt; "the budget is spent"),
    }
}

/// The least cost is 3. The bound begins with 4, and the layer has two chunks.
#[test]
fn bound(rt: HostRuntime) -> Result<(), Fail> {
    let problem = problem_of(&rt, &matrix(&rt), Mask::of(3));
    let cost = cost_found(&rt, rt.alloc(), &problem)?;
    assert!(&rt; cost == 3, "the least cost is {cost}");
    let (bound, mut seat) = Bound::new(rt.alloc(), &problem, 4, 2)?;
    assert_eq!(&rt; bound.read(&mut seat), 4);
    assert_eq!(&rt; bound.lower(&mut seat, 3), 4);
    assert_eq!(&rt; bound.lower(&mut seat, 5), 3);
    assert_eq!(&rt; bound.read(&mut seat), 3);
    let mut other = bound.split(&mut seat);
    let first = bound.draw(&mut seat).expect(&rt, "a chunk");
    assert_eq!(&rt; first, 0);
    assert_eq!(&rt; bound.draw(&mut other), Some(1));
    assert_eq!(&rt; bound.draw(&mut seat), None);
    bound.join(&mut seat, other);
    Ok(())
}

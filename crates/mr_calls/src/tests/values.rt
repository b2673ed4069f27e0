//! What the tests share: matrices, problems and sets.

ghost use Rattle.std.specs.Prelude.{◌≡◌, ◌^◌, ◌<◌, bit_and, length, IfOk};

use mr_bits::{Mask, Matrix};
use mr_eq::{Problem, Singles, Undetermined};
use mr_form::read_matrix;
use std::alloc::Global;
use std::process::Abort;
use std::test::Fail;
use std::thread::Threads;

/// The matrix that a text spells.
pub fn matrix_of(rt: &impl Abort, text: &str) -> Matrix {
    let bytes = text.as_bytes();
    assert!(rt; bytes.len() <= 65_536, "the text is too long");
    read_matrix(bytes).expect(rt, "the text is a matrix")
}

/// The symbols of a matrix that are not lost. Those that are lost are symbols of it.
pub fn survivors(rt: &impl Abort, matrix: &Matrix, lost: Mask) -> Mask
    ensures lost { lost < 2 ^ length matrix.now.rows }
    ensures below { result < 2 ^ length matrix.now.rows }
    ensures apart { bit_and result lost ≡ 0 }
{
    assert!(rt;
        lost <= matrix.all(),
        "there are symbols that are not the matrix's"
    );
    matrix.all().minus(lost)
}

/// The problem of reading the symbols of the set `lost` from all others.
pub fn try_problem(rt: &impl Abort, matrix: &Matrix, lost: Mask) -> Result<Problem, Undetermined> {
    Problem::new(matrix, survivors(rt, matrix, lost), lost)
}

/// That problem, where the others determine them.
pub fn problem_of(rt: &impl Abort, matrix: &Matrix, lost: Mask) -> Problem {
    try_problem(rt, matrix, lost).expect(rt, "the loss is determined")
}

/// The single equations of lost symbols, which the others determine.
pub fn singles_of(
    rt: &(impl Abort + Threads + Sync),
    alloc: Global,
    matrix: &Matrix,
    lost: Mask,
    budget: u32,
) -> Result<Singles, Fail>
    ensures lost { IfOk result (λ singles. singles.lost ≡ lost) }
    ensures code { IfOk result (λ singles. singles.code ≡ matrix.now) }
{
    assert!(rt; lost <= matrix.all());
    let problem = Problem::new(matrix, matrix.all().minus(lost), lost);
    let _determined = problem.expect(rt, "the loss is determined");
    Ok(Singles::of(rt, alloc, matrix, lost, budget)?)
}

/// Asserts that the sets are those of these numbers, in order.
pub fn assert_masks(rt: &impl Abort, found: &[Mask], numbers: &[u128]) {
    assert_eq!(rt; found.len(), numbers.len(), "how many sets: {found:?}");
    for (mask, number) in found.iter().zip(numbers) {
        assert_eq!(rt; mask.number(), *number, "in {found:?}");
    }
}

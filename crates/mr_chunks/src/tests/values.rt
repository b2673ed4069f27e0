//! What the tests share: matrices and problems.

use mr_bits::{Mask, Matrix};
use mr_eq::Problem;
use mr_form::read_matrix;
use std::process::Abort;

/// The matrix that a text spells.
pub fn matrix_of(rt: &impl Abort, text: &str) -> Matrix {
    let bytes = text.as_bytes();
    assert!(rt; bytes.len() <= 65_536, "the text is too long");
    read_matrix(bytes).expect(rt, "the text is a matrix")
}

/// The problem of reading the symbols of the set `lost` of a matrix from all others, where these determine them.
pub fn problem_of(rt: &impl Abort, text: &str, lost: u128) -> Option<Problem> {
    try_problem(rt, &matrix_of(rt, text), Mask::of(lost))
}

/// That problem, for a set of symbols of the matrix.
fn try_problem(rt: &impl Abort, matrix: &Matrix, lost: Mask) -> Option<Problem> {
    assert!(rt;
        lost <= matrix.all(),
        "there are symbols that are not the matrix's"
    );
    Problem::new(matrix, matrix.all().minus(lost), lost).ok()
}

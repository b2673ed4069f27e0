//! Laws of matrices, each as the contract of a function that does nothing else.
ghost use Rattle.std.specs.Prelude.{◌<◌};
ghost use Rattle.mr_bits.specs.Laws.{MovesCodewords};

use crate::matrices::Matrix;

/// The codewords of a matrix whose devices have moved on are those of the matrix, each device `r`
/// further.
pub fn rotated_matrices_move_their_codewords(matrix: &Matrix, r: u32)
    requires { r < matrix.now.devices }
    ensures { MovesCodewords matrix.now r }
{}

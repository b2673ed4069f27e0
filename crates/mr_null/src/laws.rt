//! Laws of codes, each as the contract of a function that does nothing else.
ghost use Rattle.std.specs.Prelude.{◌≡◌, ◌<◌, true, false};
ghost use Rattle.mr_model.specs.Sets.{within};
ghost use Rattle.mr_model.specs.Code.{has_equation, row_sum};
ghost use Rattle.mr_model.specs.Codewords.{LeavesOpen};
ghost use Rattle.mr_null.specs.Combinations.{HasOneCombination};

use mr_bits::{Mask, Matrix};

/// Where `symbol` has no equation within `set`, there are two data, of any size but 0, whose
/// codewords agree on the symbols of `set` and differ at `symbol`. So nobody can tell that symbol
/// from those of `set`.
pub fn undetermined_symbols_differ(matrix: &Matrix, set: Mask, symbol: u8, size: usize)
    requires some { 0 < size }
    requires no_equation { has_equation matrix.now set symbol ≡ false }
    ensures { LeavesOpen matrix.now set symbol size }
{
    let _within_the_limits = matrix.shape();
}

/// Each sum of symbols of `set` is the sum of exactly one set of kept symbols, and that is its
/// combination.
pub fn sums_have_one_combination(matrix: &Matrix, set: Mask, symbols: Mask)
    requires { within symbols set ≡ true }
    ensures { HasOneCombination matrix.now set (row_sum matrix.now symbols) }
{}

//! Patterns that were looked at before.

ghost use Rattle.std.specs.Prelude.{◌≡◌, ◌^◌, ◌<◌, length, None, Some, IfErr, OnOk};
ghost use Rattle.mr_survey.specs.Surveys.{in_stripe, open_in};
ghost use Rattle.mr_survey.specs.Known.{AreKnown};

use crate::errors::UndeterminedIn;
use mr_bits::{Mask, Matrix};
use mr_cache::Pattern;
use mr_eq::Undetermined;
use mr_losses::problem_of;

/// Looks at the pattern of a stripe, unless it is the one of `known` for its rotation.
///
/// `known` has for each rotation a set of symbols that the others determine. The pattern's takes the place of the one of
/// its rotation.
pub(crate) fn look_once(
    matrix: &Matrix,
    stripe: u32,
    pattern: Pattern,
    known: &mut [u128],
) -> Result<(), UndeterminedIn>
    requires rotation { pattern.rotation < matrix.now.devices }
    requires lost { pattern.lost < 2 ^ length matrix.now.rows }
    requires known { AreKnown matrix.now known.old }
    ensures known { OnOk result (AreKnown matrix.now known.new) }
    ensures determined { OnOk result (open_in matrix.now pattern ≡ None) }
    ensures fault { IfErr result (λ at. in_stripe stripe (open_in matrix.now pattern) ≡ Some at) }
{
    let place = pattern.rotation as usize;
    if known[place] == pattern.lost {
        return Ok(());
    }
    look(matrix, stripe, pattern)?;
    known[place] = pattern.lost;
    Ok(())
}

/// Looks at the pattern of a stripe: whether its other symbols determine it.
fn look(matrix: &Matrix, stripe: u32, pattern: Pattern) -> Result<(), UndeterminedIn>
    requires rotation { pattern.rotation < matrix.now.devices }
    requires lost { pattern.lost < 2 ^ length matrix.now.rows }
    ensures determined { OnOk result (open_in matrix.now pattern ≡ None) }
    ensures fault { IfErr result (λ at. in_stripe stripe (open_in matrix.now pattern) ≡ Some at) }
{
    let rotated = matrix.rotated(pattern.rotation);
    match problem_of(&rotated, Mask::of(pattern.lost)) {
        Ok(_) => Ok(()),
        Err(Undetermined { symbol }) => Err(UndeterminedIn { stripe, symbol }),
    }
}

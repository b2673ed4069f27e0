ghost use Rattle.std.specs.Prelude.{◌≡◌, ◌^◌, ◌<◌, length, IfErr};
ghost use Rattle.mr_model.specs.Code.{survivors};
ghost use Rattle.mr_eq.specs.Problems.{IsUndetermined, problem_of as problem_given};
ghost use Rattle.mr_losses.specs.Losses.{symbols_of_devices};

use mr_bits::{Mask, Matrix};
use mr_eq::{Problem, Undetermined};

/// The symbols of a set of devices.
pub fn symbols_of(matrix: &Matrix, devices: Mask) -> Mask
    ensures symbols { result ≡ symbols_of_devices matrix.now devices }
    ensures below { result < 2 ^ length matrix.now.rows }
{
    let mut symbols = Mask::EMPTY;
    for symbol in matrix.all().symbols() {
        if devices.contains(matrix.device_of(symbol) as u8) {
            symbols = symbols.with(symbol);
        }
    }
    symbols
}

/// The problem of reading the `lost` symbols from all others. `Undetermined` comes exactly where
/// one of them has no equation among the others, and names the least such symbol; no reading of
/// the others could tell it.
pub fn problem_of(matrix: &Matrix, lost: Mask) -> Result<Problem, Undetermined>
    requires { lost < 2 ^ length matrix.now.rows }
    ensures value { result ≡ problem_given matrix.now (survivors matrix.now lost) lost }
    ensures refused { IfErr result
        (λ e. IsUndetermined matrix.now (survivors matrix.now lost) lost e.symbol) }
{
    Problem::new(matrix, matrix.all().minus(lost), lost)
}

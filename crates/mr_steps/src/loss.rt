//! The loss that a LOST word names: the symbols of the lost devices, to be read from the others.

ghost use Rattle.std.specs.Prelude.{◌≡◌, ◌≤◌, ◌^◌, ◌<◌, length, IfOk};
ghost use Rattle.mr_steps.specs.Losses.{determined_given, loss_of, lost_given, lost_symbols_given, targets_given};
ghost use Rattle.mr_steps.specs.Steps.{Gives, HasReadCause, IsPastWords};

use crate::fault::Fault;
use mr_bits::{Mask, Matrix};
use mr_eq::Problem;
use mr_io::Text;
use mr_losses::symbols_of;

/// The problem of reading the symbols of the lost devices from the others. `NoDevice` names the
/// first number that is no device of the matrix, and `Undetermined` the least symbol that the
/// others do not determine.
pub fn loss_in(matrix: &Matrix, lost: &Text) -> Result<Problem, Fault>
    ensures given { Gives (λ problem. problem.targets) result (targets_given matrix.now lost.now) }
    ensures loss { IfOk result (λ problem. problem ≡ loss_of matrix.now problem.targets) }
    ensures cause { HasReadCause 0 0 result }
    ensures past_words { IsPastWords result }
{
    let devices = lost_devices(lost, matrix.shape().n())?;
    let targets = symbols_of(matrix, devices);
    problem_of(matrix, targets)
}

/// The symbols of the lost devices. `NoDevice` names the first number that is no device of the matrix.
#[tactic(auto, unfolding(crate::specs::Losses::lost_symbols_given))]
pub fn lost_in(matrix: &Matrix, lost: &Text) -> Result<Mask, Fault>
    ensures given { Gives (λ symbols. symbols) result (lost_symbols_given matrix.now lost.now) }
    ensures below { IfOk result (λ symbols. symbols < 2 ^ length matrix.now.rows) }
    ensures cause { HasReadCause 0 0 result }
    ensures past_words { IsPastWords result }
{
    let devices = lost_devices(lost, matrix.shape().n())?;
    Ok(symbols_of(matrix, devices))
}

/// The set of the devices that a LOST word names, of at most 128 devices. `NoDevice` names the
/// first number that is none of them.
#[tactic(auto, unfolding(crate::specs::Losses::lost_given))]
fn lost_devices(lost: &Text, devices: u32) -> Result<Mask, Fault>
    requires { devices ≤ 128 }
    ensures given { Gives (λ set. set) result (lost_given devices lost.now) }
    ensures cause { HasReadCause 0 0 result }
    ensures past_words { IsPastWords result }
{
    match mr_words::lost_devices(lost.as_str(), devices) {
        Ok(set) => Ok(set),
        Err(device) => Err(Fault::NoDevice { device }),
    }
}

/// The problem of reading the lost symbols from the others, where these determine them.
fn problem_of(matrix: &Matrix, targets: Mask) -> Result<Problem, Fault>
    requires { targets < 2 ^ length matrix.now.rows }
    ensures given { Gives (λ p. p.targets) result (determined_given matrix.now targets) }
    ensures loss { IfOk result (λ p. p ≡ loss_of matrix.now targets) }
    ensures cause { HasReadCause 0 0 result }
    ensures past_words { IsPastWords result }
{
    let problem = Problem::new(matrix, matrix.all().minus(targets), targets)?;
    Ok(problem)
}

//! The plan that the search gives, where the equations of a lost symbol can be listed.

ghost use Rattle.std.specs.Prelude.{◌≡◌, IfOk};
ghost use Rattle.mr_model.specs.Plans.{IsValidPlan};
ghost use Rattle.mr_plan.specs.Plans.{survivors};
ghost use Rattle.mr_words.specs.Texts.{IsWorkers};
ghost use Rattle.mr_steps.specs.Losses.{loss_of};
ghost use Rattle.mr_least.specs.Choice.{has_too_many, least_by, plain_by};

use crate::watch::Watch;
use mr_bits::{Matrix, NoMemory};
use mr_choices::{Choosing, ChosenPlan, chosen_plan};
use mr_eq::Problem;
use mr_plan::{Kind, Plan};
use mr_steps::ChoiceLine;
use std::thread::Threads;

/// The most equations of a lost symbol that are listed, as a power of 2.
const MOST_LISTED: u32 = 25;

/// The plan that the search gives within the budget, or that of the plain set where a lost symbol has
/// more than 2 to the power of 25 equations: then nothing is searched. The gate is told of a search
/// before it begins.
pub fn least_plan<T: Threads + Sync, G: Watch + Sync>(
    choosing: &Choosing<'_, T, G>,
    matrix: &Matrix,
    problem: &Problem,
) -> Result<ChosenPlan, NoMemory>
    requires workers { IsWorkers choosing.now.workers }
    requires loss { problem.now ≡ loss_of matrix.now problem.now.targets }
    ensures chosen { IfOk result (λ chosen. chosen ≡ least_by matrix.now problem.now.targets
        choosing.now.budget) }
    ensures valid { IfOk result (λ chosen. IsValidPlan matrix.now
        (survivors matrix.now problem.now.targets) problem.now.targets chosen.plan.set
        chosen.plan.recipes) }
{
    if has_too_many(matrix, problem) {
        return Ok(plain_plan(matrix, problem, choosing.budget));
    }
    choosing.gate.begin(width(problem.d()));
    chosen_plan(choosing, matrix, problem)
}

/// Whether a lost symbol has more than 2 to the power of 25 equations.
pub fn has_too_many(matrix: &Matrix, problem: &Problem) -> bool
    requires loss { problem.now ≡ loss_of matrix.now problem.now.targets }
    ensures { result ≡ has_too_many matrix.now problem.now.targets }
{
    problem.levels() > 0 && problem.d() > MOST_LISTED
}

/// 2 to the power of `d`, or 0 where it is no number of 32 bits.
fn width(d: u32) -> u32 {
    1u32.checked_shl(d).unwrap_or(0)
}

/// The plan of the plain set, as one for which the budget was spent.
fn plain_plan(matrix: &Matrix, problem: &Problem, budget: u32) -> ChosenPlan
    requires loss { problem.now ≡ loss_of matrix.now problem.now.targets }
    ensures chosen { result ≡ plain_by matrix.now problem.now.targets budget }
    ensures valid { IsValidPlan matrix.now (survivors matrix.now problem.now.targets)
        problem.now.targets result.plan.set result.plan.recipes }
{
    let targets = problem.targets();
    let set = problem.plain();
    ChosenPlan {
        plan: Plan::of(matrix, targets, set, Kind::Spent),
        line: ChoiceLine::Spent {
            cost: problem.cost(set),
            budget,
        },
    }
}

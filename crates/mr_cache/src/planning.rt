//! The making of a plan.

ghost use Rattle.std.specs.Prelude.{◌≡◌, ◌^◌, ◌<◌, length, IfErr, IfOk};
ghost use Rattle.mr_eq.specs.Choices.{found_of};
ghost use Rattle.mr_eq.specs.Singles.{loss_of};
ghost use Rattle.mr_choices.specs.Chosen.{choice_for, plan_by};
ghost use Rattle.mr_cache.specs.declared.errors.PlanError.TheVariants.{Memory};
ghost use Rattle.mr_cache.specs.Planning.{IsPlannedAs};

use crate::errors::PlanError;
use crate::patterns::Pattern;
use mr_bits::{Mask, Matrix, NoMemory};
use mr_eq::{Found, Problem, Undetermined};
use mr_front::search_one;
use mr_losses::problem_of;
use mr_plan::{Kind, Plan};
use std::alloc::Global;

/// The plan of a pattern, made anew.
///
/// That there is no memory is answered only where the pattern has a plan.
pub(crate) fn make_plan(
    alloc: Global,
    matrix: &Matrix,
    budget: u32,
    pattern: Pattern,
) -> Result<Plan, PlanError>
    requires rotation { pattern.rotation < matrix.now.devices }
    requires lost { pattern.lost < 2 ^ length matrix.now.rows }
    ensures { IsPlannedAs matrix.now budget pattern result }
{
    let _within_the_limits = matrix.shape();
    let rotated = matrix.rotated(pattern.rotation);
    match problem_of(&rotated, Mask::of(pattern.lost)) {
        Ok(problem) => search_plan(alloc, &rotated, &problem, budget),
        Err(Undetermined { symbol }) => Err(PlanError::Undetermined { symbol }),
    }
}

/// The plan that the search of the survivors gives within the budget.
fn search_plan(
    alloc: Global,
    matrix: &Matrix,
    problem: &Problem,
    budget: u32,
) -> Result<Plan, PlanError>
    requires loss { problem.now ≡ loss_of matrix.now problem.now.targets }
    ensures plan { IfOk result (λ plan. plan ≡ plan_by matrix.now problem.now.targets
        (choice_for matrix.now problem.now.targets budget)) }
    ensures memory { IfErr result (λ e. e ≡ Memory) }
{
    match search_one(alloc, problem, budget) {
        Ok(found) => Ok(plan_from(matrix, problem, found, budget)),
        Err(NoMemory) => Err(PlanError::Memory),
    }
}

/// The plan with what the search found within the budget.
fn plan_from(matrix: &Matrix, problem: &Problem, found: Found, _budget: u32) -> Plan
    requires loss { problem.now ≡ loss_of matrix.now problem.now.targets }
    requires found { found ≡ found_of (choice_for matrix.now problem.now.targets _budget) }
    ensures { result ≡ plan_by matrix.now problem.now.targets
        (choice_for matrix.now problem.now.targets _budget) }
{
    let targets = problem.targets();
    match found {
        Found::Least { set, .. } => Plan::of(matrix, targets, set, Kind::Least),
        Found::Spent { set } => Plan::of(matrix, targets, set, Kind::Spent),
    }
}

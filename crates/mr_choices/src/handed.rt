//! The plan that is handed in, where a plan file is named.

ghost use Rattle.std.specs.Prelude.{◌≡◌, ◌^◌, ◌<◌, length, IfOk, IfSome};
ghost use Rattle.mr_model.specs.Plans.{IsValidPlan};
ghost use Rattle.mr_plan.specs.Plans.{survivors};
ghost use Rattle.mr_steps.specs.Losses.{loss_of};
ghost use Rattle.mr_choices.specs.Handed.{handed_file, handed_given, plan_file, sound_given};
ghost use Rattle.mr_steps.specs.Steps.{Gives, Grows, HasReadCause, IsPastWords, IsUnread, Reads};

use crate::chosen::ChosenPlan;
use mr_bits::{Mask, Matrix, What};
use mr_eq::Problem;
use mr_io::{Files, Text};
use mr_plan::{Plan, check};
use mr_steps::{ChoiceLine, Fault, file_text};
use std::alloc::Global;

/// The valid plan of a plan file, where one is named.
pub fn handed_plan<F: Files>(
    alloc: Global,
    files: &mut F,
    matrix: &Matrix,
    problem: &Problem,
    plan: &Option<Text>,
) -> Result<Option<ChosenPlan>, Fault>
    requires loss { problem.now ≡ loss_of matrix.now problem.now.targets }
    ensures reads { Reads (λ handed. handed) (F.told files.old) (F.told files.new) result
        (λ contents. handed_file contents plan.now matrix.now problem.now.targets) }
    ensures totals { Grows (F.told files.old) (F.totals files.old) (F.totals files.new) result
        (λ contents. handed_file contents plan.now matrix.now problem.now.targets) }
    ensures unread { IsUnread (F.totals files.old) (F.totals files.new) }
    ensures valid { IfOk result
        (λ handed. IfSome handed
        (λ chosen. IsValidPlan matrix.now
        (survivors matrix.now problem.now.targets) problem.now.targets chosen.plan.set
        chosen.plan.recipes)) }
    ensures cause { HasReadCause (F.faults files.old) (F.faults files.new) result }
    ensures past_words { IsPastWords result }
{
    match plan {
        Some(name) => plan_in_file(alloc, files, matrix, problem, name),
        None => Ok(None),
    }
}

/// The valid plan of a plan file.
fn plan_in_file<F: Files>(
    alloc: Global,
    files: &mut F,
    matrix: &Matrix,
    problem: &Problem,
    name: &Text,
) -> Result<Option<ChosenPlan>, Fault>
    requires loss { problem.now ≡ loss_of matrix.now problem.now.targets }
    ensures reads { Reads (λ handed. handed) (F.told files.old) (F.told files.new) result
        (λ contents. plan_file contents name.now matrix.now problem.now.targets) }
    ensures totals { Grows (F.told files.old) (F.totals files.old) (F.totals files.new) result
        (λ contents. plan_file contents name.now matrix.now problem.now.targets) }
    ensures unread { IsUnread (F.totals files.old) (F.totals files.new) }
    ensures valid { IfOk result (λ handed. IfSome handed (λ chosen. IsValidPlan matrix.now
        (survivors matrix.now problem.now.targets) problem.now.targets
        chosen.plan.set chosen.plan.recipes)) }
    ensures cause { HasReadCause (F.faults files.old) (F.faults files.new) result }
    ensures past_words { IsPastWords result }
{
    let bytes = file_text(alloc, files, name, What::PlanBytes)?;
    handed_in(matrix, problem, &bytes)
}

/// The valid plan of a text, as one that was handed in.
fn handed_in(matrix: &Matrix, problem: &Problem, bytes: &[u8]) -> Result<Option<ChosenPlan>, Fault>
    requires loss { problem.now ≡ loss_of matrix.now problem.now.targets }
    ensures given { Gives (λ handed. handed) result
        (handed_given matrix.now problem.now.targets bytes.now) }
    ensures valid { IfOk result (λ handed. IfSome handed (λ chosen. IsValidPlan matrix.now
        (survivors matrix.now problem.now.targets) problem.now.targets
        chosen.plan.set chosen.plan.recipes)) }
    ensures cause { HasReadCause 0 0 result }
    ensures past_words { IsPastWords result }
{
    let plan = sound_plan(matrix, problem.targets(), bytes)?;
    let line = ChoiceLine::Given {
        cost: problem.cost(plan.set()),
    };
    Ok(Some(ChosenPlan {
        plan: plan.given(),
        line,
    }))
}

/// The plan of a text, where it is valid for the lost symbols.
pub fn sound_plan(matrix: &Matrix, targets: Mask, bytes: &[u8]) -> Result<Plan, Fault>
    requires { targets < 2 ^ length matrix.now.rows }
    ensures given { Gives (λ plan. plan) result (sound_given matrix.now targets bytes.now) }
    ensures valid { IfOk result
        (λ plan. IsValidPlan matrix.now
        (survivors matrix.now targets) targets plan.set plan.recipes) }
    ensures cause { HasReadCause 0 0 result }
    ensures past_words { IsPastWords result }
{
    let plan = Plan::read(bytes)?;
    check(matrix, targets, &plan)?;
    Ok(plan)
}

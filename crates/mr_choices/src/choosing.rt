//! The plans that the search of the survivors gives.

ghost use Rattle.std.specs.Prelude.{◌≡◌, length, IfOk};
ghost use Rattle.mr_model.specs.Plans.{IsValidPlan};
ghost use Rattle.mr_image.specs.Rotated.{FitsCode, rotations};
ghost use Rattle.mr_eq.specs.Choices.{found_of};
ghost use Rattle.mr_plan.specs.Plans.{survivors};
ghost use Rattle.mr_mend.specs.Rotations.{AreValidPlans};
ghost use Rattle.mr_words.specs.Texts.{IsWorkers};
ghost use Rattle.mr_steps.specs.Losses.{loss_of};
ghost use Rattle.mr_choices.specs.Rotations.{losses_of};
ghost use Rattle.mr_choices.specs.Chosen.{choice_for, chosen_by, lines_chosen, plans_chosen};

use crate::chosen::{Choosing, ChosenPlan, ChosenPlans};
use mr_bits::{Mask, Matrix, NoMemory};
use mr_eq::{Found, Problem};
use mr_image::ImageHead;
use mr_io::Gate;
use mr_plan::{Kind, Plan, Plans};
use mr_search::search;
use mr_steps::ChoiceLine;
use std::thread::Threads;

/// The plan of each rotation in use, as the search of the survivors gives it, each within the whole budget.
///
/// The problems are those of the lost symbols in these rotations, from rotation 0 on.
pub fn plans_of<T: Threads + Sync, G: Gate + Sync>(
    choosing: &Choosing<'_, T, G>,
    head: &ImageHead,
    matrix: &Matrix,
    lost: Mask,
    problems: &[Problem],
) -> Result<ChosenPlans, NoMemory>
    requires workers { IsWorkers choosing.now.workers }
    requires head { FitsCode head.now matrix.now }
    requires problems { problems.now ≡ losses_of matrix.now lost (rotations head.now) }
    ensures plans { IfOk result (λ made. made.plans
        ≡ plans_chosen matrix.now lost choosing.now.budget (rotations head.now)) }
    ensures lines { IfOk result (λ made. made.lines.items
        ≡ lines_chosen matrix.now lost choosing.now.budget (rotations head.now)) }
    ensures valid { IfOk result (λ made. AreValidPlans head.now matrix.now lost made.plans) }
{
    let _within_the_limits = matrix.shape();
    let mut list = Vec::new(choosing.alloc);
    let mut lines = Vec::new(choosing.alloc);
    for (rotation, problem) in problems.iter().enumerate() {
        let rotated = matrix.rotated(rotation as u32);
        let chosen = chosen_plan(choosing, &rotated, problem)?;
        list.push(chosen.plan)?;
        lines.push(chosen.line)?;
    }
    Ok(ChosenPlans {
        plans: Plans::new(list),
        lines,
    })
}

/// The plan that the search of the survivors gives within the budget.
pub fn chosen_plan<T: Threads + Sync, G: Gate + Sync>(
    choosing: &Choosing<'_, T, G>,
    matrix: &Matrix,
    problem: &Problem,
) -> Result<ChosenPlan, NoMemory>
    requires workers { IsWorkers choosing.now.workers }
    requires loss { problem.now ≡ loss_of matrix.now problem.now.targets }
    ensures chosen { IfOk result (λ chosen. chosen ≡ chosen_by matrix.now problem.now.targets
        choosing.now.budget) }
    ensures valid { IfOk result (λ chosen. IsValidPlan matrix.now
        (survivors matrix.now problem.now.targets) problem.now.targets chosen.plan.set
        chosen.plan.recipes) }
{
    let Choosing {
        rt,
        gate,
        alloc,
        budget,
        workers,
    } = *choosing;
    let found = search(rt, alloc, problem, budget, workers, gate)?;
    Ok(chosen_from(matrix, problem, found, budget))
}

/// The plan with what the search found within the budget.
fn chosen_from(matrix: &Matrix, problem: &Problem, found: Found, budget: u32) -> ChosenPlan
    requires loss { problem.now ≡ loss_of matrix.now problem.now.targets }
    requires found { found ≡ found_of (choice_for matrix.now problem.now.targets budget) }
    ensures chosen { result ≡ chosen_by matrix.now problem.now.targets budget }
    ensures valid { IsValidPlan matrix.now (survivors matrix.now problem.now.targets)
        problem.now.targets result.plan.set result.plan.recipes }
{
    let targets = problem.targets();
    match found {
        Found::Least { set, work } => ChosenPlan {
            plan: Plan::of(matrix, targets, set, Kind::Least),
            line: ChoiceLine::Least {
                cost: problem.cost(set),
                work,
            },
        },
        Found::Spent { set } => ChosenPlan {
            plan: Plan::of(matrix, targets, set, Kind::Spent),
            line: ChoiceLine::Spent {
                cost: problem.cost(set),
                budget,
            },
        },
    }
}

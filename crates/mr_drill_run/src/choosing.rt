//! The plan of a drill, as the search chooses it.

ghost use Rattle.std.specs.Int.{bit_at};
ghost use Rattle.std.specs.Prelude.{◌≡◌, ℕ, ◌^◌, ◌<◌, true, length, IfOk};
ghost use Rattle.mr_choices.specs.Chosen.{choice_for, singles_chosen};
ghost use Rattle.mr_choices.specs.Rotations.{losses_of};
ghost use Rattle.mr_image.specs.Rotated.{FitsCode, rotations};
ghost use Rattle.mr_mend.specs.Rotations.{AreValidPlans};
ghost use Rattle.mr_model.specs.Code.{cost, has_equation, survivors};
ghost use Rattle.mr_model.specs.Search.{chosen};
ghost use Rattle.mr_words.specs.Texts.{IsWorkers};
ghost use Rattle.mr_drill_run.specs.Costs.{cost_in};

use mr_bits::{Mask, Matrix, NoMemory};
use mr_choices::{Choosing, ChosenPlans, ProblemsError, plans_of, problems_of, singles_of};
use mr_eq::{Problem, Singles};
use mr_image::ImageHead;
use mr_io::Gate;
use mr_plan::Plans;
use mr_steps::ChoiceLine;
use std::alloc::Global;
use std::thread::Threads;

/// What a rebuild goes by, and what its plan costs.
#[derive(Drop)]
pub(crate) struct Choice {
    /// The plan of each rotation in use.
    pub plans: Plans,
    /// How each of them was found, in their order.
    pub lines: Vec<ChoiceLine>,
    /// The single equations of the lost symbols in each rotation in use.
    pub singles: Vec<Singles>,
    /// What the plan of the first rotation costs.
    pub cost: u32,
}

/// The plan that the search gives for the lost symbols, which the others determine, in an image of version 1, and their
/// single equations.
///
/// It answers `NoMemory` for want of memory.
pub(crate) fn choose<T: Threads + Sync, G: Gate + Sync>(
    choosing: &Choosing<'_, T, G>,
    head: &ImageHead,
    code: &Matrix,
    lost: Mask,
) -> Result<Choice, NoMemory>
    requires workers { IsWorkers choosing.now.workers }
    requires fits { FitsCode head.now code.now }
    requires version { head.now.version ≡ 1 }
    requires lost { lost < 2 ^ length code.now.rows }
    requires determined { (t : ℕ) → bit_at lost t ≡ 1
        → has_equation code.now (survivors code.now lost) t ≡ true }
    ensures plans { IfOk result (λ choice. AreValidPlans head.now code.now lost choice.plans) }
    ensures lines { IfOk result (λ choice. length choice.lines.items ≡ rotations head.now) }
    ensures singles { IfOk result (λ choice. choice.singles.items
        ≡ singles_chosen code.now lost choosing.now.budget (rotations head.now)) }
    ensures cost { IfOk result (λ choice. choice.cost
        ≡ cost code.now (chosen (choice_for code.now lost choosing.now.budget))) }
{
    let _within_the_limits = code.shape();
    let problems = problems_for(choosing.alloc, head, code, lost)?;
    let singles = singles_of(choosing, head, code, lost, &problems)?;
    let chosen = plans_of(choosing, head, code, lost, &problems)?;
    let ChosenPlans { plans, lines } = chosen;
    let cost = cost_of(&lines[0]);
    Ok(Choice {
        plans,
        lines,
        singles,
        cost,
    })
}

/// The problem of the lost symbols, which the others determine.
fn problems_for(
    alloc: Global,
    head: &ImageHead,
    code: &Matrix,
    lost: Mask,
) -> Result<Vec<Problem>, NoMemory>
    requires fits { FitsCode head.now code.now }
    requires version { head.now.version ≡ 1 }
    requires lost { lost < 2 ^ length code.now.rows }
    requires determined { (t : ℕ) → bit_at lost t ≡ 1
        → has_equation code.now (survivors code.now lost) t ≡ true }
    ensures { IfOk result (λ problems. problems.items
        ≡ losses_of code.now lost (rotations head.now)) }
{
    let _within_the_limits = code.shape();
    match problems_of(alloc, code, lost, head.rotations()) {
        Ok(problems) => Ok(problems),
        Err(ProblemsError::Memory) => Err(NoMemory),
        Err(ProblemsError::Undetermined(_)) => unreachable!(),
    }
}

/// What the plan of a line costs.
fn cost_of(line: &ChoiceLine) -> u32
    ensures { result ≡ cost_in line.now }
{
    match *line {
        ChoiceLine::Least { cost, .. } => cost,
        ChoiceLine::Spent { cost, .. } => cost,
        ChoiceLine::Given { cost } => cost,
    }
}

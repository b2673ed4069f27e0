//! The command `check`.

ghost use Rattle.mr_top.specs.CheckSteps.{check_answer};
ghost use Rattle.mr_top.specs.Check.{cost_given};
ghost use Rattle.mr_steps.specs.Losses.{loss_of};
ghost use Rattle.mr_top.specs.Replies.{output_of};
ghost use Rattle.mr_steps.specs.Steps.{Gives, Grows, HasReadCause, IsPastWords, Reads};
ghost use Rattle.std.specs.Prelude.{◌≡◌, IfOk};

use crate::lent::Lent;
use crate::reply::Reply;
use mr_bits::{Matrix, What};
use mr_choices::sound_plan;
use mr_eq::Problem;
use mr_io::{Files, Source};
use mr_steps::{Fault, file_text, loss_in, matrix_text};
use mr_words::CheckWords;

/// Whether the plan file's plan is valid for the matrix file and the lost devices.
pub(crate) fn check<T, F: Files, S: Source, G>(
    lent: &mut Lent<'_, '_, '_, T, F, S, G>,
    words: &CheckWords,
) -> Result<Reply, Fault>
    ensures same_files { lent.new.files.ghost_name ≡ lent.old.files.ghost_name }
    ensures same_script { lent.new.script.ghost_name ≡ lent.old.script.ghost_name }
    ensures kept { lent.new.script.now ≡ lent.old.script.now }
    ensures reads { Reads output_of (F.told lent.old.files.now) (F.told lent.new.files.now) result
        (λ contents. check_answer contents words.now.matrix words.now.lost words.now.plan) }
    ensures totals { Grows (F.told lent.old.files.now) (F.totals lent.old.files.now)
        (F.totals lent.new.files.now) result
        (λ contents. check_answer contents words.now.matrix words.now.lost words.now.plan) }
    ensures cause { HasReadCause (F.faults lent.old.files.now)
        (F.faults lent.new.files.now) result }
    ensures past_words { IsPastWords result }
{
    let matrix = matrix_text(lent.tools.alloc, lent.files, &words.matrix)?;
    let problem = loss_in(&matrix, &words.lost)?;
    let bytes = file_text(lent.tools.alloc, lent.files, &words.plan, What::PlanBytes)?;
    let cost = cost_of(&matrix, &problem, &bytes)?;
    Ok(Reply::Check { cost })
}

/// What the set of the plan of a text costs, where the plan is valid for the lost symbols.
fn cost_of(matrix: &Matrix, problem: &Problem, bytes: &[u8]) -> Result<u32, Fault>
    requires loss { problem.now ≡ loss_of matrix.now problem.now.targets }
    ensures given { Gives (λ cost. cost) result
        (cost_given matrix.now problem.now.targets bytes.now) }
    ensures cause { HasReadCause 0 0 result }
    ensures past_words { IsPastWords result }
{
    let plan = sound_plan(matrix, problem.targets(), bytes)?;
    Ok(problem.cost(plan.set()))
}

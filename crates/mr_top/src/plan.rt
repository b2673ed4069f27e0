//! The command `plan`.

ghost use Rattle.std.specs.Prelude.{◌≡◌, IfOk};
ghost use Rattle.mr_top.specs.Plan.{plan_given};
ghost use Rattle.mr_top.specs.PlanSteps.{plan_answer};
ghost use Rattle.mr_top.specs.Replies.{output_of};
ghost use Rattle.mr_words.specs.Texts.{IsWorkers};
ghost use Rattle.mr_steps.specs.Steps.{Gives, Grows, HasReadCause, IsPastWords, Reads};

use crate::lent::Lent;
use crate::reply::Reply;
use mr_bits::Matrix;
use mr_choices::{Choosing, chosen_plan};
use mr_io::{Files, Gate, Source, Text};
use mr_steps::{Fault, loss_in, matrix_text};
use mr_words::PlanWords;
use std::thread::Threads;

/// The plan for a matrix file and the lost devices, by the words' workers and within the budget.
pub(crate) fn plan<T: Threads + Sync, F: Files, S: Source, G: Gate + Sync>(
    lent: &mut Lent<'_, '_, '_, T, F, S, G>,
    words: &PlanWords,
) -> Result<Reply, Fault>
    requires workers { IsWorkers words.now.workers }
    ensures same_files { lent.new.files.ghost_name ≡ lent.old.files.ghost_name }
    ensures same_script { lent.new.script.ghost_name ≡ lent.old.script.ghost_name }
    ensures kept { lent.new.script.now ≡ lent.old.script.now }
    ensures reads { Reads output_of (F.told lent.old.files.now) (F.told lent.new.files.now) result
        (λ contents. plan_answer contents words.now.matrix words.now.lost words.now.budget) }
    ensures totals { Grows (F.told lent.old.files.now) (F.totals lent.old.files.now)
        (F.totals lent.new.files.now) result
        (λ contents. plan_answer contents words.now.matrix words.now.lost words.now.budget) }
    ensures cause { HasReadCause (F.faults lent.old.files.now)
        (F.faults lent.new.files.now) result }
    ensures past_words { IsPastWords result }
{
    let matrix = matrix_text(lent.tools.alloc, lent.files, &words.matrix)?;
    let choosing = Choosing {
        rt: lent.tools.rt,
        gate: lent.tools.gate,
        alloc: lent.tools.alloc,
        budget: words.budget,
        workers: words.workers,
    };
    plan_of(&choosing, &matrix, &words.lost)
}

/// The plan for a matrix and the lost devices, as it is to be chosen.
fn plan_of<T: Threads + Sync, G: Gate + Sync>(
    choosing: &Choosing<'_, T, G>,
    matrix: &Matrix,
    lost: &Text,
) -> Result<Reply, Fault>
    requires workers { IsWorkers choosing.now.workers }
    ensures given { Gives output_of result (plan_given choosing.now.budget matrix.now lost.now) }
    ensures cause { HasReadCause 0 0 result }
    ensures past_words { IsPastWords result }
{
    let problem = loss_in(matrix, lost)?;
    let chosen = chosen_plan(choosing, matrix, &problem)?;
    Ok(Reply::Plan { chosen })
}

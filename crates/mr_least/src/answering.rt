//! The answer to the words: the plan, read and searched.

ghost use Rattle.std.specs.Prelude.{◌≡◌, ◌⊎◌, Err, None, drop, map, string_bytes};
ghost use Rattle.mr_least_words.specs.Words.{least_of};
ghost use Rattle.mr_words.specs.Texts.{IsWorkers};
ghost use Rattle.mr_least.specs.Answer.{answer, least_answer, least_given, output_of};
ghost use Rattle.mr_steps.specs.Steps.{Gives, Grows, HasReadCause, IsPastWords, Reads};

use crate::choosing::least_plan;
use crate::watch::Watch;
use mr_bits::Matrix;
use mr_choices::{Choosing, ChosenPlan};
use mr_io::{Files, Text};
use mr_least_words::{LeastWords, read_least};
use mr_steps::{Fault, loss_in, matrix_text};
use std::alloc::Global;
use std::thread::Threads;

/// What a run works with: the threads, the memory, and the gate that the search passes.
#[derive(Drop)]
pub(crate) struct Tools<'t, T, G> {
    /// The threads.
    pub rt: &'t T,
    /// The memory.
    pub alloc: Global,
    /// The gate.
    pub gate: &'t G,
}

/// The plan that the words ask for.
pub(crate) fn answer<T: Threads + Sync, F: Files, G: Watch + Sync>(
    tools: &Tools<'_, T, G>,
    words: &[String],
    files: &mut F,
) -> Result<ChosenPlan, Fault>
    ensures reads { Reads output_of (F.told files.old) (F.told files.new) result
        (λ contents. answer (map string_bytes words.now) contents) }
    ensures totals { Grows (F.told files.old) (F.totals files.old) (F.totals files.new) result
        (λ contents. answer (map string_bytes words.now) contents) }
    ensures cause { HasReadCause (F.faults files.old) (F.faults files.new) result }
    ensures usage { result ≡ Err Fault.Usage
        → least_of (drop 1 (map string_bytes words.now)) ≡ None }
    ensures not_read { least_of (drop 1 (map string_bytes words.now)) ≡ None
        → (result ≡ Err Fault.Usage) ⊎ (result ≡ Err Fault.Memory) }
{
    let asked = read_least(tools.alloc, words)?;
    answer_asked(tools, &asked, files)
}

/// The plan for a matrix file and the lost devices.
fn answer_asked<T: Threads + Sync, F: Files, G: Watch + Sync>(
    tools: &Tools<'_, T, G>,
    asked: &LeastWords,
    files: &mut F,
) -> Result<ChosenPlan, Fault>
    requires workers { IsWorkers asked.now.workers }
    ensures reads { Reads output_of (F.told files.old) (F.told files.new) result
        (λ contents. least_answer contents asked.now.matrix asked.now.lost asked.now.budget) }
    ensures totals { Grows (F.told files.old) (F.totals files.old) (F.totals files.new) result
        (λ contents. least_answer contents asked.now.matrix asked.now.lost asked.now.budget) }
    ensures cause { HasReadCause (F.faults files.old) (F.faults files.new) result }
    ensures past_words { IsPastWords result }
{
    let matrix = matrix_text(tools.alloc, files, &asked.matrix)?;
    let choosing = Choosing {
        rt: tools.rt,
        gate: tools.gate,
        alloc: tools.alloc,
        budget: asked.budget,
        workers: asked.workers,
    };
    plan_of(&choosing, &matrix, &asked.lost)
}

/// The plan for a matrix and the lost devices.
fn plan_of<T: Threads + Sync, G: Watch + Sync>(
    choosing: &Choosing<'_, T, G>,
    matrix: &Matrix,
    lost: &Text,
) -> Result<ChosenPlan, Fault>
    requires workers { IsWorkers choosing.now.workers }
    ensures given { Gives output_of result (least_given choosing.now.budget matrix.now lost.now) }
    ensures cause { HasReadCause 0 0 result }
    ensures past_words { IsPastWords result }
{
    let problem = loss_in(matrix, lost)?;
    let chosen = least_plan(choosing, matrix, &problem)?;
    Ok(chosen)
}

ghost use Rattle.std.specs.Prelude.{◌≡◌, ◌<◌, length, slice_index, IfOk};
ghost use Rattle.mr_losses.specs.Losses.{symbols_of_devices};
ghost use Rattle.mr_table.specs.Rows.{answer_of, row_of, IsAnswerTo};

use crate::row::{JobAnswer, Row};
use crate::task::Task;
use mr_bits::{Mask, Matrix, NoMemory};
use mr_eq::Undetermined;
use mr_front::search_one;
use mr_losses::{problem_of, symbols_of};
use std::alloc::Global;

impl JobAnswer {
    /// What the loss of these devices costs: the choice within the budget where the survivors
    /// determine the lost symbols, and otherwise the least symbol that they do not determine.
    pub fn of(
        alloc: Global,
        matrix: &Matrix,
        devices: Mask,
        budget: u32,
    ) -> Result<JobAnswer, NoMemory>
        ensures answer { IfOk result (λ answer. answer ≡ answer_of matrix.now budget devices) }
        ensures meaning { IfOk result
            (IsAnswerTo matrix.now (symbols_of_devices matrix.now devices) budget) }
    {
        match problem_of(matrix, symbols_of(matrix, devices)) {
            Ok(problem) => Ok(JobAnswer::Plan(search_one(alloc, &problem, budget)?)),
            Err(Undetermined { symbol }) => Ok(JobAnswer::Undetermined { symbol }),
        }
    }
}

/// The row of a job.
pub(crate) fn row_for(task: &Task, job: u32) -> Result<Row, NoMemory>
    requires { job < length task.now.losses.now.items }
    ensures { IfOk result (λ row. row ≡
        row_of task.now.matrix.now task.now.budget task.now.losses.now.items job) }
{
    let devices = task.losses[job as usize];
    let answer = JobAnswer::of(task.alloc, task.matrix, devices, task.budget)?;
    Ok(Row { job, answer })
}

ghost use Rattle.std.specs.Prelude.{◌≡◌, ◌≤◌, All, IfOk};
ghost use Rattle.std.specs.List.Sorted.{IsPermutation, IsNonDecreasingBy};
ghost use Rattle.mr_table.specs.Rows.{table_of, IsRow};

use crate::crew::{gather, hire, run};
use crate::jobs::Jobs;
use crate::losses::losses_of;
use crate::row::Row;
use crate::task::Task;
use crate::worker::take_all;
use mr_bits::{Matrix, NoMemory};
use mr_io::Gate;
use std::alloc::Global;
use std::sync::Wait;
use std::thread::Threads;

/// The table of a matrix: the row of each job, in order of the jobs, which are the losses of
/// `losses_of`. Each search has this budget.
///
/// So many workers take the jobs from one queue, each in a thread of its own, and pass the gate at
/// `Job` after each that they take. Neither their number nor the gate changes anything of the rows.
/// It may wait, since the queue may; where it returns, the rows are these.
pub fn table<R: Threads + Wait + Sync, G: Gate + Sync>(
    rt: &R,
    alloc: Global,
    matrix: &Matrix,
    budget: u32,
    workers: u32,
    gate: &G,
) -> Result<Vec<Row>, NoMemory>
    requires workers { (1 ≤ workers) × (workers ≤ 64) }
    ensures rows { IfOk result (λ rows. rows.items ≡ table_of matrix.now budget) }
    ensures each { IfOk result (λ rows. All (IsRow matrix.now budget) rows.items) }
{
    let losses = losses_of(alloc, matrix.shape().n())?;
    let (jobs, mut pass) = Jobs::new(rt, alloc, losses.len() as u32)?;
    let task = Task {
        alloc,
        matrix,
        budget,
        losses: &losses,
        jobs: &jobs,
    };
    let mut crew = hire(rt, &task, workers, &mut pass)?;
    run(rt, gate, &task, crew.as_mut_slice());
    let mut rows = gather(rt, &task, &mut pass, crew)?;
    take_all(rt, gate, &task, &mut pass, &mut rows)?;
    sort(&mut rows);
    Ok(rows)
}

/// Puts the rows in order of their jobs.
fn sort(rows: &mut Vec<Row>)
    ensures permutation { IsPermutation rows.old.items rows.new.items }
    ensures ascending { IsNonDecreasingBy (λ row. row.job) rows.new.items }
{
    rows.sort_unstable_by_key(|row| row.job);
}

ghost use Rattle.std.specs.Prelude.{◌≡◌, ℕ, ◌+◌, ◌<◌, ◌≤◌, [], length, All, IfOk, OnOk, sum_by, slice_index_or};
ghost use Rattle.mr_counts.specs.Shares.{whole_share};
ghost use Rattle.mr_table.specs.Rule.{first_view, share_of};
ghost use Rattle.mr_table.specs.Passes.{pass_view, count_of, IsPassOf};
ghost use Rattle.mr_table.specs.Work.{share, AreRowsOf, IsTask, IsReady, IsDone, HasWorked};

use crate::pass::JobPass;
use crate::row::Row;
use crate::task::Task;
use crate::worker::Worker;
use mr_bits::NoMemory;
use mr_io::Gate;
use std::sync::Wait;
use std::thread;
use std::thread::Threads;

/// So many workers, each with a pass that is split off from this one.
pub(crate) fn hire<R: Wait>(
    rt: &R,
    task: &Task,
    workers: u32,
    pass: &mut JobPass,
) -> Result<Vec<Worker>, NoMemory>
    requires workers { workers ≤ 64 }
    requires pass { IsPassOf task.now.jobs.now pass.old }
    requires first { pass_view pass.old ≡ first_view (count_of task.now.jobs.now) }
    ensures pass { IfOk result (λ crew. IsPassOf task.now.jobs.now pass.new
        × ((pass_view pass.new).taken ≡ [])) }
    ensures count { IfOk result (λ crew. length crew.items ≡ workers) }
    ensures ready { IfOk result (λ crew. All (IsReady task.now) crew.items) }
    ensures shares { IfOk result (λ crew.
        share_of (pass_view pass.new) + sum_by share crew.items ≡ whole_share) }
{
    let mut crew = Vec::new(task.alloc);
    for _ in 0..workers {
        let split = task.jobs.split(rt, pass)?;
        crew.push(Worker::new(task.alloc, split))?;
    }
    Ok(crew)
}

/// Each worker works in a thread of its own.
pub(crate) fn run<R: Threads + Wait + Sync, G: Gate + Sync>(
    rt: &R,
    gate: &G,
    task: &Task,
    crew: &mut [Worker],
)
    requires some { 0 < length crew.old }
    requires task { IsTask task.now }
    requires ready { All (IsReady task.now) crew.old }
    ensures { (i : ℕ) (d : Worker) → i < length crew.old
        → HasWorked task.now (slice_index_or crew.old i d) (slice_index_or crew.new i d) }
{
    let threads = crew.len();
    thread::for_each_mut(
        rt,
        crew,
        threads,
        &|_, worker: &mut Worker| worker.work(rt, gate, task),
    );
}

/// The rows that the workers made, once their passes are joined.
pub(crate) fn gather<R: Wait>(
    rt: &R,
    task: &Task,
    pass: &mut JobPass,
    mut crew: Vec<Worker>,
) -> Result<Vec<Row>, NoMemory>
    requires pass { IsPassOf task.now.jobs.now pass.old × ((pass_view pass.old).taken ≡ []) }
    requires done { All (IsDone task.now) crew.items }
    requires shares { share_of (pass_view pass.old) + sum_by share crew.items ≡ whole_share }
    ensures pass { IfOk result (λ rows. IsPassOf task.now.jobs.now pass.new) }
    ensures whole { IfOk result (λ rows. share_of (pass_view pass.new) ≡ whole_share) }
    ensures rows { IfOk result (λ rows. AreRowsOf task.now pass.new rows.items) }
{
    let mut rows = Vec::new(task.alloc);
    while let Some(worker) = crew.pop() {
        let Worker {
            pass: other,
            rows: mut more,
            outcome,
        } = worker;
        outcome?;
        task.jobs.join(rt, pass, other);
        rows.append(&mut more)?;
    }
    Ok(rows)
}

//! The rebuild by workers, and the reads that are served beside it.

ghost use Rattle.std.specs.Prelude.{◌≡◌, ℕ, ◌<◌, true, false, length, slice_index_or, All, OnErr, OnOk};
ghost use Rattle.mr_io.specs.Counts.{Rose};
ghost use Rattle.mr_mend.specs.Mending.{AreMendable};
ghost use Rattle.mr_mend.specs.Scripts.{IsInRange};
ghost use Rattle.mr_mend.specs.Workers.{CanWork, HasEnded, HasFinished, HasWorked};

use crate::asks::Ask;
use crate::tasks::Task;
use crate::workers::Worker;
use mr_board::Board;
use mr_eq::Singles;
use mr_image::ImageHead;
use mr_io::{Eye, Failed, Gate};
use mr_kern::XorKernel;
use mr_plan::Plans;
use std::thread;
use std::thread::Threads;

/// Each worker works, beside the others: a mender draws stripes until none is left, rebuilds each and marks it done; a
/// reader serves its asks in their order.
///
/// Menders pass the gate at `Drawn` and `Done` of each stripe, readers at `ReadBegin` and `ReadEnd` of each ask. A
/// worker whose read fails stops, and the others go on. It takes no memory.
pub fn mend<T: Threads + Sync, E: Eye + Send, G: Gate + Sync>(
    rt: &T,
    workers: &mut [Worker<E>],
    board: &Board,
    head: &ImageHead,
    plans: &Plans,
    singles: &[Singles],
    asks: &[Ask],
    kernel: &XorKernel,
    gate: &G,
) -> Result<(), Failed>
    requires plans { AreMendable head.now plans.now }
    requires asks { All (IsInRange head.now) asks.now }
    requires workers { All (CanWork head.now plans.now singles.now asks.now E.sight board.now)
        workers.old }
    ensures count { length workers.new ≡ length workers.old }
    ensures worked { (k : ℕ) (d : Worker E) → k < length workers.old
        → HasWorked E.sight E.faults board.now
        (slice_index_or workers.old k d) (slice_index_or workers.new k d) }
    ensures finished { OnOk result ((k : ℕ) (d : Worker E) → k < length workers.old
        → HasFinished E.sight E.faults head.now plans.now singles.now asks.now
        (slice_index_or workers.old k d) (slice_index_or workers.new k d)) }
    ensures failed { OnErr result ((k : ℕ) × (k < length workers.old) × ((d : Worker E)
        → Rose (E.faults (slice_index_or workers.old k d).eye)
        (E.faults (slice_index_or workers.new k d).eye))) }
{
    let task = Task {
        board,
        head,
        plans,
        singles,
        asks,
        kernel,
        gate,
    };
    work_all(rt, &task, workers);
    outcome(workers)
}

/// Each worker works, in a thread of its own.
fn work_all<T: Threads + Sync, E: Eye + Send, G: Gate + Sync>(
    rt: &T,
    task: &Task<G>,
    workers: &mut [Worker<E>],
)
    requires plans { AreMendable task.now.head.now task.now.plans.now }
    requires asks { All (IsInRange task.now.head.now) task.now.asks.now }
    requires workers { All (CanWork task.now.head.now task.now.plans.now task.now.singles.now
        task.now.asks.now E.sight task.now.board.now) workers.old }
    ensures { (k : ℕ) (d : Worker E) → k < length workers.old
        → HasEnded E.sight E.faults task.now.board.now task.now.head.now task.now.plans.now
        task.now.singles.now task.now.asks.now
        (slice_index_or workers.old k d) (slice_index_or workers.new k d) }
{
    let threads = workers.len();
    if threads > 0 {
        thread::for_each_mut(
            rt,
            workers,
            threads,
            &|_, worker: &mut Worker<E>|
                requires plans { AreMendable task.now.head.now task.now.plans.now }
                requires asks { All (IsInRange task.now.head.now) task.now.asks.now }
                requires ready { CanWork task.now.head.now task.now.plans.now task.now.singles.now
                    task.now.asks.now E.sight task.now.board.now worker.old }
                ensures { HasEnded E.sight E.faults task.entry.now.board.now
                    task.entry.now.head.now task.entry.now.plans.now task.entry.now.singles.now
                    task.entry.now.asks.now worker.old worker.new }
            { worker.work(task) },
        );
    }
}

/// `Failed` where a read of some worker failed.
fn outcome<E>(workers: &[Worker<E>]) -> Result<(), Failed>
    ensures none { OnOk result ((k : ℕ) (d : Worker E) → k < length workers.now
        → (slice_index_or workers.now k d).failed ≡ false) }
    ensures some { OnErr result ((k : ℕ) × (k < length workers.now) × ((d : Worker E)
        → (slice_index_or workers.now k d).failed ≡ true)) }
{
    for worker in workers {
        if worker.failed {
            return Err(Failed);
        }
    }
    Ok(())
}

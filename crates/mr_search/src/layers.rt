ghost use Rattle.std.specs.Prelude.{◌≡◌, ℕ, ◌+◌, ◌<◌, ◌≤◌, [], length, sum_by, slice_index_or, All, OnOk, Ok};
ghost use Rattle.std.specs.List.{Contains};
ghost use Rattle.mr_model.specs.Members.{members};
ghost use Rattle.mr_bound.specs.Cost.{least_cost};
ghost use Rattle.mr_bound.specs.Seats.{seat_view, problem_of, chunks_of, IsSeatOf};
ghost use Rattle.mr_front.specs.Children.{children};
ghost use Rattle.mr_front.specs.Layers.{HasJoined};
ghost use Rattle.mr_search.specs.Crew.{InCrew};
ghost use Rattle.mr_search.specs.Work.{share_of, IsTask, IsIdle, IsReady, IsDone, HasWorked};

use crate::inputs::Task;
use crate::worker::Worker;
use mr_bits::NoMemory;
use mr_bound::{Bound, BoundSeat};
use mr_io::Gate;
use std::thread;
use std::thread::Threads;

/// So many unions are worth a thread.
const WORTH_A_THREAD: u128 = 65_536;

/// So many equations of each target are few.
const FEW_EQUATIONS: u32 = 32;

/// Lets the children of the masks of a layer wait at the next level, except where they cost more
/// than the least cost known. The seat is the first one of the bound, and has no draw.
pub(crate) fn expand_layer<T: Threads + Sync, G: Gate + Sync>(
    rt: &T,
    gate: &G,
    task: &Task,
    seat: &mut BoundSeat,
    crew: &mut [Worker],
) -> Result<(), NoMemory>
    requires task { IsTask task.now.bound.now task.now.equations.now task.now.layer.now
        task.now.last }
    requires seat { IsSeatOf task.now.bound.now seat.old }
    requires left { (seat_view seat.old).left ≡ 4095 }
    requires parts { (seat_view seat.old).parts ≡ 1 }
    requires fresh { (seat_view seat.old).draws ≡ [] }
    requires workers { (0 < length crew.old) × (length crew.old ≤ 64) }
    requires idle { All (IsIdle (length (members task.now.equations.now.targets) + 1)) crew.old }
    ensures seat { OnOk result (IsSeatOf task.now.bound.now seat.new) }
    ensures idle { OnOk result
        (All (IsIdle (length (members task.now.equations.now.targets) + 1)) crew.new) }
    ensures joined { OnOk result (HasJoined task.now.equations.now task.now.layer.now
        (least_cost task.now.equations.now) (InCrew task.now.equations.now crew.old)
        (InCrew task.now.equations.now crew.new)) }
{
    hire(task, seat, crew);
    let threads = threads_for(task, crew.len());
    run(rt, gate, task, threads, crew);
    gather(task, seat, crew)
}

/// In how many threads a layer is worked on: as many as its unions are worth, and no more than it has
/// masks. Where each target has few equations it is two, since the whole search is short then, and a
/// gate can hold one worker until another has come.
fn threads_for(task: &Task, workers: usize) -> usize
    ensures { 0 < result }
{
    let masks = task.layer.masks.len();
    let width = task.equations.width();
    let worth = if width <= FEW_EQUATIONS {
        2
    } else {
        1 + masks as u128 * u128::from(width) / WORTH_A_THREAD
    };
    worth.min(masks as u128).min(workers as u128).max(1) as usize
}

/// Gives each worker a seat that is split off from this one.
fn hire(task: &Task, seat: &mut BoundSeat, crew: &mut [Worker])
    requires seat { IsSeatOf task.now.bound.now seat.old }
    requires left { (seat_view seat.old).left ≡ 4095 }
    requires parts { (seat_view seat.old).parts ≡ 1 }
    requires fresh { (seat_view seat.old).draws ≡ [] }
    requires workers { length crew.old ≤ 64 }
    requires idle { All (IsIdle (length (members task.now.equations.now.targets) + 1)) crew.old }
    ensures seat { IsSeatOf task.now.bound.now seat.new × ((seat_view seat.new).draws ≡ []) }
    ensures ready { All (IsReady task.now.bound.now
        (length (members task.now.equations.now.targets) + 1)) crew.new }
    ensures rows { (i : ℕ) (d : Worker) → i < length crew.old
        → (slice_index_or crew.new i d).rows ≡ (slice_index_or crew.old i d).rows }
    ensures shares { (seat_view seat.new).parts + (seat_view seat.new).left
        + sum_by share_of crew.new ≡ 4096 }
{
    for place in 0..crew.len() {
        let split = task.bound.split(seat);
        crew[place].begin(split);
    }
}

/// Each worker works, in so many threads.
fn run<T: Threads + Sync, G: Gate + Sync>(
    rt: &T,
    gate: &G,
    task: &Task,
    threads: usize,
    crew: &mut [Worker],
)
    requires threads { 0 < threads }
    requires task { IsTask task.now.bound.now task.now.equations.now task.now.layer.now
        task.now.last }
    requires ready { All (IsReady task.now.bound.now
        (length (members task.now.equations.now.targets) + 1)) crew.old }
    ensures { (i : ℕ) (d : Worker) → i < length crew.old
        → HasWorked task.now.bound.now task.now.layer.now
        (slice_index_or crew.old i d) (slice_index_or crew.new i d) }
{
    thread::for_each_mut(
        rt,
        crew,
        threads,
        &|_, worker: &mut Worker| worker.work(task, gate),
    );
}

/// Joins the seats of all workers. Where no worker wanted for memory, the children of each mask of
/// the layer wait.
fn gather(task: &Task, seat: &mut BoundSeat, crew: &mut [Worker]) -> Result<(), NoMemory>
    requires chunks { chunks_of task.now.bound.now ≡ length task.now.layer.now.masks }
    requires seat { IsSeatOf task.now.bound.now seat.old × ((seat_view seat.old).draws ≡ []) }
    requires done { All (IsDone task.now.bound.now task.now.layer.now
        (length (members task.now.equations.now.targets) + 1)) crew.old }
    requires some { 0 < length crew.old }
    requires shares { (seat_view seat.old).parts + (seat_view seat.old).left
        + sum_by share_of crew.old ≡ 4096 }
    ensures seat { OnOk result (IsSeatOf task.now.bound.now seat.new) }
    ensures idle { OnOk result
        (All (IsIdle (length (members task.now.equations.now.targets) + 1)) crew.new) }
    ensures rows { OnOk result ((i : ℕ) (d : Worker) → i < length crew.old
        → (slice_index_or crew.new i d).rows ≡ (slice_index_or crew.old i d).rows) }
    ensures worked { OnOk result ((i : ℕ) (d : Worker) → i < length crew.old
        → (slice_index_or crew.old i d).outcome ≡ Ok tt) }
    ensures covers { OnOk result ((u : ℕ)
        → Contains (children (problem_of task.now.bound.now) task.now.layer.now.level
        (least_cost (problem_of task.now.bound.now)) task.now.layer.now.masks) u
        → InCrew (problem_of task.now.bound.now) crew.old (task.now.layer.now.level + 1) u) }
{
    for place in 0..crew.len() {
        let other = crew[place].leave()?;
        task.bound.join(seat, other);
    }
    Ok(())
}

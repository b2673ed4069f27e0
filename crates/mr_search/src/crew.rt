ghost use Rattle.std.specs.Prelude.{◌≡◌, ◌≢◌, ℕ, suc, ◌+◌, ◌<◌, ◌≤◌, ◌⊎◌, ◌↔◌, true, false, length, slice_index_or, All, IfOk, OnOk, Ok, None};
ghost use Rattle.std.specs.List.{Contains};
ghost use Rattle.mr_model.specs.Members.{members};
ghost use Rattle.mr_eq.specs.Problems.{Loss};
ghost use Rattle.mr_front.specs.Waiting.{mask_cost};
ghost use Rattle.mr_front.specs.Layers.{IsFirstLayer, IsRest, IsFirstKey, IsFirst, HasLost};
ghost use Rattle.mr_search.specs.Crew.{InCrew, LateWith, IsKeyAtMost};
ghost use Rattle.mr_search.specs.Work.{IsIdle, HasKey};

use crate::inputs::Inputs;
use crate::worker::Worker;
use mr_bits::{Mask, NoMemory};
use mr_front::{Layer, Masks, Rows};
use std::alloc::Global;
use std::thread;
use std::thread::Threads;

/// So many masks, each with its unions, are worth a thread for each worker.
const WORTH_THREADS: u128 = 65_536;

/// So many workers, for so many levels. The empty mask waits at level 0 with one of them, and no
/// other mask waits.
pub(crate) fn new_crew(alloc: Global, workers: u32, levels: u8) -> Result<Vec<Worker>, NoMemory>
    requires { 1 ≤ workers }
    ensures idle { IfOk result (λ crew. All (IsIdle (levels + 1)) crew.items) }
    ensures count { IfOk result (λ crew. length crew.items ≡ workers) }
    ensures waits { IfOk result (λ crew. (p : Loss) (i u : ℕ)
        → InCrew p crew.items i u ↔ ((i ≡ 0) × (u ≡ 0))) }
{
    let mut crew = Vec::new(alloc);
    crew.push(Worker::new(Rows::start(alloc, levels)?))?;
    for _ in 1..workers {
        crew.push(Worker::new(Rows::new(alloc, levels)?))?;
    }
    Ok(crew)
}

/// The least cost at which something waits and, for that cost, the least level, or None where
/// nothing waits. The children that were put off up to there are made, except those that cost more
/// than `most`, which wait no more.
pub(crate) fn first_key<T: Threads + Sync>(
    rt: &T,
    inputs: &Inputs,
    most: u64,
    crew: &mut [Worker],
) -> Result<Option<(u32, u8)>, NoMemory>
    requires problem { inputs.now.equations.now ≡ inputs.now.problem.now }
    requires idle { All (IsIdle (length (members inputs.now.equations.now.targets) + 1)) crew.old }
    ensures idle { OnOk result
        (All (IsIdle (length (members inputs.now.equations.now.targets) + 1)) crew.new) }
    ensures lost { OnOk result (HasLost inputs.now.equations.now most
        (InCrew inputs.now.equations.now crew.old) (InCrew inputs.now.equations.now crew.new)) }
    ensures first { IfOk result (IsFirst inputs.now.equations.now
        (InCrew inputs.now.equations.now crew.new) (LateWith crew.new)) }
{
    let threads = threads_for_due(inputs, crew);
    find_keys(rt, inputs, most, threads, crew);
    have_memory(crew)?;
    Ok(least_key(crew))
}

/// In how many threads the first keys are looked for.
fn threads_for_due(inputs: &Inputs, crew: &[Worker]) -> usize
    ensures { 0 < result }
{
    let mut due = 0;
    for place in 0..crew.len() {
        due = crew[place].rows.due().max(due);
    }
    if due as u128 * u128::from(inputs.equations.width()) < WORTH_THREADS {
        1
    } else {
        crew.len().max(1)
    }
}

/// Each worker looks for the first key of its rows, in so many threads.
fn find_keys<T: Threads + Sync>(
    rt: &T,
    inputs: &Inputs,
    most: u64,
    threads: usize,
    crew: &mut [Worker],
)
    requires threads { 0 < threads }
    requires problem { inputs.now.equations.now ≡ inputs.now.problem.now }
    requires idle { All (IsIdle (length (members inputs.now.equations.now.targets) + 1)) crew.old }
    ensures { (i : ℕ) (d : Worker) → i < length crew.old → HasKey inputs.now.equations.now most
        (slice_index_or crew.old i d) (slice_index_or crew.new i d) }
{
    let levels = inputs.problem.levels();
    let equations = inputs.equations;
    thread::for_each_mut(
        rt,
        crew,
        threads,
        &|_, worker: &mut Worker| { worker.find_key(equations, levels, most) },
    );
}

/// Whether no worker wanted for memory.
fn have_memory(crew: &[Worker]) -> Result<(), NoMemory>
    ensures { OnOk result ((i : ℕ) (d : Worker) → i < length crew.now
        → (slice_index_or crew.now i d).outcome ≡ Ok tt) }
{
    for place in 0..crew.len() {
        if crew[place].outcome.is_err() {
            return Err(NoMemory);
        }
    }
    Ok(())
}

/// The least of the keys that the workers found.
fn least_key(crew: &[Worker]) -> Option<(u32, u8)>
    ensures lower { (i : ℕ) (d : Worker) → i < length crew.now
        → IsKeyAtMost result (slice_index_or crew.now i d).key }
    ensures one { (result ≡ None) ⊎ ((i : ℕ) × (i < length crew.now)
        × ((d : Worker) → (slice_index_or crew.now i d).key ≡ result)) }
{
    let mut least = None;
    for place in 0..crew.len() {
        least = earlier(least, crew[place].key);
    }
    least
}

/// The lesser of two keys by cost and then by level, where there are two.
fn earlier(a: Option<(u32, u8)>, b: Option<(u32, u8)>) -> Option<(u32, u8)>
    ensures first { IsKeyAtMost result a }
    ensures second { IsKeyAtMost result b }
    ensures one { (result ≡ a) ⊎ (result ≡ b) }
{
    match (a, b) {
        (Some(x), Some(y)) => Some(if comes_first(x, y) { x } else { y }),
        (Some(x), None) => Some(x),
        (None, other) => other,
    }
}

/// Whether a key comes no later than another.
fn comes_first(x: (u32, u8), y: (u32, u8)) -> bool
    ensures yes { result ≡ true → (x.0 ≤ y.0) × (x.0 ≡ y.0 → x.1 ≤ y.1) }
    ensures no { result ≡ false → (y.0 ≤ x.0) × (y.0 ≡ x.0 → y.1 ≤ x.1) }
{
    x.0 < y.0 || x.0 == y.0 && x.1 <= y.1
}

/// Takes the first layer, whose masks have this cost and level.
pub(crate) fn take_layer(
    inputs: &Inputs,
    cost: u32,
    level: u8,
    crew: &mut [Worker],
) -> Result<Layer, NoMemory>
    requires idle { All (IsIdle (length (members inputs.now.equations.now.targets) + 1)) crew.old }
    requires first { IsFirstKey inputs.now.equations.now (InCrew inputs.now.equations.now crew.old)
        (LateWith crew.old) cost level }
    ensures idle { OnOk result
        (All (IsIdle (length (members inputs.now.equations.now.targets) + 1)) crew.new) }
    ensures layer { IfOk result (IsFirstLayer inputs.now.equations.now
        (InCrew inputs.now.equations.now crew.old)) }
    ensures rest { IfOk result (IsRest inputs.now.equations.now
        (InCrew inputs.now.equations.now crew.old) (InCrew inputs.now.equations.now crew.new)) }
{
    let mut list = Vec::new(inputs.alloc);
    take_lists(inputs, cost, level, crew, &mut list)?;
    Ok(Layer {
        cost,
        level,
        masks: Masks::distinct(list),
    })
}

/// Moves the masks that wait at this cost and level to a list.
fn take_lists(
    inputs: &Inputs,
    cost: u32,
    level: u8,
    crew: &mut [Worker],
    list: &mut Vec<Mask>,
) -> Result<(), NoMemory>
    requires idle { All (IsIdle (length (members inputs.now.equations.now.targets) + 1)) crew.old }
    requires level { level < length (members inputs.now.equations.now.targets) + 1 }
    requires made { (k c v : ℕ) → level ≡ suc k → LateWith crew.old k c v → cost < c }
    ensures idle { OnOk result
        (All (IsIdle (length (members inputs.now.equations.now.targets) + 1)) crew.new) }
    ensures taken { OnOk result ((u : ℕ) → Contains list.new.items u
        ↔ (Contains list.old.items u ⊎ (InCrew inputs.now.equations.now crew.old level u
        × (mask_cost inputs.now.equations.now u ≡ cost)))) }
    ensures rest { OnOk result ((i u : ℕ) → InCrew inputs.now.equations.now crew.new i u
        ↔ (InCrew inputs.now.equations.now crew.old i u
        × (i ≡ level → mask_cost inputs.now.equations.now u ≢ cost))) }
{
    for place in 0..crew.len() {
        crew[place].rows.take(inputs.equations, cost, level, list)?;
    }
    Ok(())
}

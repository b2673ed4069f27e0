ghost use Rattle.std.specs.Prelude.{◌≡◌, ℕ, ◌↔◌, ◌+◌, ◌<◌, ◌≤◌, length, All, IfOk};
ghost use Rattle.mr_model.specs.Members.{members};
ghost use Rattle.mr_model.specs.Choice.{choice_of};
ghost use Rattle.mr_model.specs.Laws.{IsLean};
ghost use Rattle.mr_eq.specs.Choices.{found_of};
ghost use Rattle.mr_eq.specs.Laws.{IsWorkBounded};
ghost use Rattle.mr_front.specs.Searches.{set_of, IsFoundWithin};
ghost use Rattle.mr_search.specs.Crew.{InCrew};
ghost use Rattle.mr_search.specs.Work.{IsIdle};

use crate::crew::{first_key, new_crew, take_layer};
use crate::inputs::{Inputs, Question, Task};
use crate::layers::expand_layer;
use crate::worker::Worker;
use mr_bits::{Mask, NoMemory};
use mr_bound::Bound;
use mr_eq::{Equations, Found, Problem};
use mr_front::work_with;
use mr_io::Gate;
use mr_null::NullsError;
use std::alloc::Global;
use std::thread::Threads;

/// The choice for a problem, as `mr_front::search_one` gives it, found by so many workers beside
/// each other.
///
/// Each layer is worked on by all workers: one of them draws a mask, passes the gate at `Chunk`,
/// makes the children of the mask, except those that cost more than the least cost known, and
/// passes the gate at `Made` with the number of those children. The least cost known begins as that
/// of the plain set, and is lowered to that of each mask of the last level. The gate changes
/// nothing of the answer.
pub fn search<T: Threads + Sync, G: Gate + Sync>(
    rt: &T,
    alloc: Global,
    problem: &Problem,
    budget: u32,
    workers: u32,
    gate: &G,
) -> Result<Found, NoMemory>
    requires { (1 ≤ workers) × (workers ≤ 64) }
    ensures choice { IfOk result (λ found. found ≡ found_of
        (choice_of problem.now.code problem.now.avail problem.now.targets budget)) }
    ensures within { IfOk result (IsFoundWithin problem.now budget) }
    ensures lean { IfOk result (λ found. IsLean problem.now.code problem.now.avail problem.now.targets
        (set_of found)) }
    ensures bounded { IsWorkBounded problem.now }
{
    let _loss = problem.targets();
    let question = Question {
        alloc,
        problem,
        budget,
    };
    find(rt, gate, &question, workers)
}

/// The choice for the problem that is asked for.
fn find<T: Threads + Sync, G: Gate + Sync>(
    rt: &T,
    gate: &G,
    question: &Question,
    workers: u32,
) -> Result<Found, NoMemory>
    requires { (1 ≤ workers) × (workers ≤ 64) }
    ensures { IfOk result (λ found. found ≡ found_of (choice_of question.now.problem.now.code
        question.now.problem.now.avail question.now.problem.now.targets question.now.budget)) }
{
    let problem = question.problem;
    let _loss = problem.targets();
    if problem.levels() == 0 {
        return Ok(Found::Least {
            set: Mask::EMPTY,
            work: 0,
        });
    }
    match Equations::of(question.alloc, problem, question.budget) {
        Ok(equations) => {
            let inputs = Inputs {
                alloc: question.alloc,
                problem,
                equations: &equations,
            };
            search_layers(rt, gate, &inputs, question.budget, workers)
        }
        Err(NullsError::TooMany { .. }) => Ok(Found::Spent {
            set: problem.plain(),
        }),
        Err(NullsError::Memory) => Err(NoMemory),
    }
}

/// The choice for a problem whose equations are listed, found by so many workers.
fn search_layers<T: Threads + Sync, G: Gate + Sync>(
    rt: &T,
    gate: &G,
    inputs: &Inputs,
    budget: u32,
    workers: u32,
) -> Result<Found, NoMemory>
    requires workers { (1 ≤ workers) × (workers ≤ 64) }
    requires problem { inputs.now.equations.now ≡ inputs.now.problem.now }
    ensures { IfOk result (λ found. found ≡ found_of (choice_of inputs.now.problem.now.code
        inputs.now.problem.now.avail inputs.now.problem.now.targets budget)) }
{
    let mut crew = new_crew(inputs.alloc, workers, inputs.problem.levels())?;
    search_with(rt, gate, inputs, budget, crew.as_mut_slice())
}

/// The choice for a problem, found by a crew with which only the empty mask waits: it takes one
/// layer after another, until one has masks that have an equation of each target, or the work is
/// above `budget`.
fn search_with<T: Threads + Sync, G: Gate + Sync>(
    rt: &T,
    gate: &G,
    inputs: &Inputs,
    budget: u32,
    crew: &mut [Worker],
) -> Result<Found, NoMemory>
    requires problem { inputs.now.equations.now ≡ inputs.now.problem.now }
    requires workers { (0 < length crew.old) × (length crew.old ≤ 64) }
    requires idle { All (IsIdle (length (members inputs.now.equations.now.targets) + 1)) crew.old }
    requires waits { (i u : ℕ) → InCrew inputs.now.equations.now crew.old i u
        ↔ ((i ≡ 0) × (u ≡ 0)) }
    ensures { IfOk result (λ found. found ≡ found_of (choice_of inputs.now.problem.now.code
        inputs.now.problem.now.avail inputs.now.problem.now.targets budget)) }
{
    let width = inputs.equations.width();
    let levels = inputs.problem.levels();
    let plain = inputs.problem.plain();
    let mut least = u64::from(inputs.problem.cost(plain));
    let mut work = 0;
    while let Some(key) = first_key(rt, inputs, least, crew)? {
        let layer = take_layer(inputs, key.0, key.1, crew)?;
        if layer.level >= levels {
            return Ok(Found::Least {
                set: layer.masks.get(0),
                work,
            });
        }
        let Some(more) = work_with(work, layer.masks.len(), width, budget) else {
            return Ok(Found::Spent { set: plain });
        };
        work = more;
        let chunks = layer.masks.len() as u32;
        let (bound, mut seat) = Bound::new(inputs.alloc, inputs.problem, least, chunks)?;
        let task = Task {
            bound: &bound,
            equations: inputs.equations,
            layer: &layer,
            last: u32::from(layer.level) + 1 == u32::from(levels),
        };
        expand_layer(rt, gate, &task, &mut seat, crew)?;
        least = bound.read(&mut seat);
    }
    unreachable!()
}

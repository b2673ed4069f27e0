ghost use Rattle.std.specs.Prelude.{◌≡◌, ◌+◌, ◌*◌, ◌<◌, length, nat_le, Option, Some, None, IfOk, OnOk, if◌then◌else◌};
ghost use Rattle.mr_model.specs.Members.{members};
ghost use Rattle.mr_model.specs.Choice.{choice_of};
ghost use Rattle.mr_model.specs.Laws.{IsLean};
ghost use Rattle.mr_eq.specs.Choices.{found_of};
ghost use Rattle.mr_eq.specs.Laws.{IsWorkBounded};
ghost use Rattle.mr_front.specs.Searches.{set_of, IsFoundWithin};
ghost use Rattle.mr_front.specs.Rows.{InRows, LateIn, row_count};
ghost use Rattle.mr_front.specs.Layers.{IsFirstLayer, IsRest, IsFirstKey, HasJoined};

use crate::layers::Layer;
use crate::masks::Masks;
use crate::rows::Rows;
use mr_bits::{Mask, NoMemory};
use mr_eq::{Equations, Found, Problem};
use mr_null::NullsError;
use std::alloc::Global;

/// The choice for a problem: the first smallest set of survivors from which each target can be read, where the work of
/// finding it is at most `budget`, and otherwise the plain set.
///
/// The answer is `Spent` exactly where the work is above `budget`. Where each target has more equations than that,
/// none is listed. Either set determines the targets, its rows are independent, and it is the union of its recipes. With
/// `d` the number of survivors less the rank of their rows, the work is at most the sum of 2 to the power `d`, `2 d`,
/// `3 d` and so on, one for each target.
pub fn search_one(alloc: Global, problem: &Problem, budget: u32) -> Result<Found, NoMemory>
    ensures choice { IfOk result (λ found. found ≡ found_of
        (choice_of problem.now.code problem.now.avail problem.now.targets budget)) }
    ensures within { IfOk result (IsFoundWithin problem.now budget) }
    ensures lean { IfOk result (λ found. IsLean problem.now.code problem.now.avail problem.now.targets
        (set_of found)) }
    ensures bounded { IsWorkBounded problem.now }
{
    let _loss = problem.targets();
    find(alloc, problem, budget)
}

/// The choice for a problem.
fn find(alloc: Global, problem: &Problem, budget: u32) -> Result<Found, NoMemory>
    ensures { IfOk result (λ found. found ≡ found_of
        (choice_of problem.now.code problem.now.avail problem.now.targets budget)) }
{
    let _loss = problem.targets();
    if problem.levels() == 0 {
        return Ok(Found::Least {
            set: Mask::EMPTY,
            work: 0,
        });
    }
    match Equations::of(alloc, problem, budget) {
        Ok(equations) => search_layers(alloc, problem, &equations, budget),
        Err(NullsError::TooMany { .. }) => Ok(Found::Spent {
            set: problem.plain(),
        }),
        Err(NullsError::Memory) => Err(NoMemory),
    }
}

/// The choice for a problem whose equations are listed: it takes one layer after another, until one
/// has masks that have an equation of each target, or the work is above `budget`.
fn search_layers(
    alloc: Global,
    problem: &Problem,
    equations: &Equations,
    budget: u32,
) -> Result<Found, NoMemory>
    requires { equations.now ≡ problem.now }
    ensures { IfOk result (λ found. found ≡ found_of
        (choice_of problem.now.code problem.now.avail problem.now.targets budget)) }
{
    let width = equations.width();
    let levels = problem.levels();
    let plain = problem.plain();
    let most = u64::from(problem.cost(plain));
    let mut rows = Rows::start(alloc, levels)?;
    let mut work = 0;
    while let Some(key) = rows.first_key(equations, levels, most)? {
        let layer = take_layer(alloc, equations, key.0, key.1, &mut rows)?;
        if layer.level >= levels {
            return Ok(Found::Least {
                set: layer.masks.get(0),
                work,
            });
        }
        let Some(more) = work_with(work, layer.masks.len(), width, budget) else {
            return Ok(Found::Spent { set: plain });
        };
        work = more;
        expand_layer(equations, &layer, most, &mut rows)?;
    }
    unreachable!()
}

/// Takes the first layer, whose masks have this cost and level.
fn take_layer(
    alloc: Global,
    equations: &Equations,
    cost: u32,
    level: u8,
    rows: &mut Rows,
) -> Result<Layer, NoMemory>
    requires { IsFirstKey equations.now (InRows equations.now rows.old) (LateIn rows.old)
        cost level }
    ensures count { row_count rows.new ≡ row_count rows.old }
    ensures layer { IfOk result (IsFirstLayer equations.now (InRows equations.now rows.old)) }
    ensures rest { IfOk result (IsRest equations.now (InRows equations.now rows.old)
        (InRows equations.now rows.new)) }
{
    let mut list = Vec::new(alloc);
    rows.take(equations, cost, level, &mut list)?;
    Ok(Layer {
        cost,
        level,
        masks: Masks::distinct(list),
    })
}

/// The work with that of a layer of `masks` masks, each united with `width` equations. None where it
/// is above `budget`.
pub fn work_with(work: u32, masks: usize, width: u32, budget: u32) -> Option<u32>
    ensures { result ≡ (if nat_le (work + masks * width) budget then Some (work + masks * width) else None) }
{
    let more = u128::from(work) + masks as u128 * u128::from(width);
    if more <= u128::from(budget) {
        Some(more as u32)
    } else {
        None
    }
}

/// Lets the children of the masks of a layer wait at the next level, except those that cost more
/// than `most`.
fn expand_layer(
    equations: &Equations,
    layer: &Layer,
    most: u64,
    rows: &mut Rows,
) -> Result<(), NoMemory>
    requires level { layer.now.level < length (members equations.now.targets) }
    requires count { row_count rows.old ≡ length (members equations.now.targets) + 1 }
    ensures count { row_count rows.new ≡ row_count rows.old }
    ensures joined { OnOk result (HasJoined equations.now layer.now most
        (InRows equations.now rows.old) (InRows equations.now rows.new)) }
{
    for place in 0..layer.masks.len() {
        rows.join(equations, layer, place, most)?;
    }
    Ok(())
}

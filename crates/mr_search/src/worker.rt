ghost use Rattle.std.specs.Prelude.{◌≡◌, ℕ, ◌+◌, ◌<◌, ◌≤◌, ◌⊎◌, [], ◌∷◌, true, length, OnOk, IfOk, Some, None, Ok};
ghost use Rattle.std.specs.List.{Contains};
ghost use Rattle.mr_model.specs.Members.{members};
ghost use Rattle.mr_bound.specs.Cost.{least_cost};
ghost use Rattle.mr_bound.specs.Seats.{seat_view, problem_of, chunks_of, IsSeatOf};
ghost use Rattle.mr_eq.specs.Problems.{Loss};
ghost use Rattle.mr_front.specs.Rows.{InRows, row_count};
ghost use Rattle.mr_front.specs.Layers.{IsSomeChild};
ghost use Rattle.mr_search.specs.Layers.{IsFloored, Covers};
ghost use Rattle.mr_search.specs.Work.{IsTask, IsIdle, IsReady, HasWorked, HasKey};

use crate::inputs::Task;
use mr_bits::NoMemory;
use mr_bound::{Bound, BoundSeat};
use mr_eq::Equations;
use mr_front::Rows;
use mr_io::{Gate, Point};
use std::alloc::Global;

/// One of those that work on the layers, with the masks that wait with it.
#[derive(Drop)]
pub(crate) struct Worker {
    /// Its seat at the bound of the layer that is worked on.
    pub seat: Option<BoundSeat>,
    /// The masks that wait with it.
    pub rows: Rows,
    /// The first key of its rows, once it has looked for it.
    pub key: Option<(u32, u8)>,
    /// Whether it had memory for its last work.
    pub outcome: Result<(), NoMemory>,
}

impl Worker {
    /// A worker with the masks of these rows.
    pub(crate) fn new(rows: Rows) -> Worker
        ensures idle { IsIdle (row_count rows) result }
        ensures rows { result.rows ≡ rows }
    {
        Worker {
            seat: None,
            rows,
            key: None,
            outcome: Ok(()),
        }
    }

    /// Begins with a seat.
    pub(crate) fn begin(&mut self, seat: BoundSeat)
        ensures seat { self.new.seat ≡ Some seat }
        ensures rows { self.new.rows ≡ self.old.rows }
    {
        self.seat = Some(seat);
        self.outcome = Ok(());
    }

    /// Gives its seat back, where it had memory for all its work.
    pub(crate) fn leave(&mut self) -> Result<BoundSeat, NoMemory>
        ensures seat { IfOk result (λ s. self.old.seat ≡ Some s) }
        ensures none { OnOk result (self.new.seat ≡ None) }
        ensures rows { self.new.rows ≡ self.old.rows }
        ensures worked { OnOk result (self.old.outcome ≡ Ok tt) }
    {
        if self.outcome.is_err() {
            return Err(NoMemory);
        }
        match self.seat.take() {
            Some(seat) => Ok(seat),
            None => Err(NoMemory),
        }
    }

    /// Looks for the first key of its rows.
    pub(crate) fn find_key(&mut self, equations: &Equations, levels: u8, most: u64)
        requires levels { levels ≡ length (members equations.now.targets) }
        requires idle { IsIdle (length (members equations.now.targets) + 1) self.old }
        ensures { HasKey equations.now most self.old self.new }
    {
        match self.rows.first_key(equations, levels, most) {
            Ok(key) => {
                self.key = key;
                self.outcome = Ok(());
            }
            Err(refused) => {
                self.outcome = Err(refused);
            }
        }
    }

    /// Works on a layer until no mask is left, or there is no memory.
    pub(crate) fn work<G: Gate>(&mut self, task: &Task, gate: &G)
        requires task { IsTask task.now.bound.now task.now.equations.now task.now.layer.now
            task.now.last }
        requires ready { IsReady task.now.bound.now
            (length (members task.now.equations.now.targets) + 1) self.old }
        ensures { HasWorked task.now.bound.now task.now.layer.now self.old self.new }
    {
        if let Some(mut seat) = self.seat.take() {
            let outcome = draw_all(&mut seat, &mut self.rows, task, gate);
            self.outcome = outcome;
            self.seat = Some(seat);
        }
    }
}

/// Draws masks of the layer until none is left, and lets the children of each wait in the rows.
fn draw_all<G: Gate>(
    seat: &mut BoundSeat,
    rows: &mut Rows,
    task: &Task,
    gate: &G,
) -> Result<(), NoMemory>
    requires task { IsTask task.now.bound.now task.now.equations.now task.now.layer.now
        task.now.last }
    requires count { row_count rows.old ≡ length (members task.now.equations.now.targets) + 1 }
    requires seat { IsSeatOf task.now.bound.now seat.old }
    requires fresh { (seat_view seat.old).draws ≡ [] }
    ensures seat { IsSeatOf task.now.bound.now seat.new }
    ensures share { (seat_view seat.new).parts + (seat_view seat.new).left
        ≡ (seat_view seat.old).parts + (seat_view seat.old).left }
    ensures count { row_count rows.new ≡ row_count rows.old }
    ensures ended { OnOk result ((n : ℕ) × (chunks_of task.now.bound.now ≤ n)
        × Contains (seat_view seat.new).draws n) }
    ensures stays { OnOk result ((i u : ℕ) → InRows task.now.equations.now rows.old i u
        → InRows task.now.equations.now rows.new i u) }
    ensures only { OnOk result ((i u : ℕ) → InRows task.now.equations.now rows.new i u
        → InRows task.now.equations.now rows.old i u ⊎ ((i ≡ task.now.layer.now.level + 1)
        × IsSomeChild task.now.equations.now task.now.layer.now u)) }
    ensures covers { OnOk result (Covers task.now.equations.now task.now.layer.now
        (least_cost task.now.equations.now) (seat_view seat.new).draws
        (InRows task.now.equations.now rows.new (task.now.layer.now.level + 1))) }
{
    while let Some(number) = task.bound.draw(seat) {
        gate.pass(Point::Chunk {
            cost: task.layer.cost,
            level: task.layer.level,
            number,
        });
        let children = expand_drawn(seat, rows, task, number)?;
        gate.pass(Point::Made {
            cost: task.layer.cost,
            level: task.layer.level,
            number,
            children,
        });
    }
    Ok(())
}

/// Lets the children of a mask that was drawn wait, except those that cost more than the least cost
/// known, and makes known what a child of the last level costs. It answers how many children there
/// are.
fn expand_drawn(
    seat: &mut BoundSeat,
    rows: &mut Rows,
    task: &Task,
    number: u32,
) -> Result<u32, NoMemory>
    requires task { IsTask task.now.bound.now task.now.equations.now task.now.layer.now
        task.now.last }
    requires count { row_count rows.old ≡ length (members task.now.equations.now.targets) + 1 }
    requires number { number < length task.now.layer.now.masks }
    requires seat { IsSeatOf task.now.bound.now seat.old }
    ensures seat { IsSeatOf task.now.bound.now seat.new }
    ensures draws { (seat_view seat.new).draws ≡ (seat_view seat.old).draws }
    ensures share { (seat_view seat.new).parts + (seat_view seat.new).left
        ≡ (seat_view seat.old).parts + (seat_view seat.old).left }
    ensures count { row_count rows.new ≡ row_count rows.old }
    ensures stays { OnOk result ((i u : ℕ) → InRows task.now.equations.now rows.old i u
        → InRows task.now.equations.now rows.new i u) }
    ensures only { OnOk result ((i u : ℕ) → InRows task.now.equations.now rows.new i u
        → InRows task.now.equations.now rows.old i u ⊎ ((i ≡ task.now.layer.now.level + 1)
        × IsSomeChild task.now.equations.now task.now.layer.now u)) }
    ensures covers { OnOk result (Covers task.now.equations.now task.now.layer.now
        (least_cost task.now.equations.now) (number ∷ [])
        (InRows task.now.equations.now rows.new (task.now.layer.now.level + 1))) }
{
    let most = task.bound.read(seat);
    let made = rows.join(task.equations, task.layer, number as usize, most)?;
    make_known(seat, task.bound, task.last, made.least);
    Ok(made.children)
}

/// Makes a cost known, where it is that of a set which has an equation of each target.
fn make_known(seat: &mut BoundSeat, bound: &Bound, last: bool, cost: u64)
    requires seat { IsSeatOf bound.now seat.old }
    requires cost { last ≡ true → least_cost (problem_of bound.now) ≤ cost }
    ensures seat { IsSeatOf bound.now seat.new }
    ensures draws { (seat_view seat.new).draws ≡ (seat_view seat.old).draws }
    ensures share { (seat_view seat.new).parts + (seat_view seat.new).left
        ≡ (seat_view seat.old).parts + (seat_view seat.old).left }
{
    if last {
        bound.lower(seat, cost);
    }
}

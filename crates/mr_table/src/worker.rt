ghost use Rattle.std.specs.Prelude.{◌≡◌, OnOk};
ghost use Rattle.mr_counts.specs.Numbers.{AreEachBelow};
ghost use Rattle.mr_table.specs.Rule.{share_of, IsWhole};
ghost use Rattle.mr_table.specs.Passes.{pass_view, count_of, IsPassOf};
ghost use Rattle.mr_table.specs.Work.{IsTask, AreRowsOf};

use crate::answers::row_for;
use crate::pass::JobPass;
use crate::row::Row;
use crate::task::Task;
use mr_bits::NoMemory;
use mr_io::{Gate, Point};
use std::alloc::Global;
use std::sync::Wait;

/// One of those that work on a table: its pass, the rows that it made, and whether it had memory
/// for them.
#[derive(Drop)]
pub(crate) struct Worker {
    pub pass: JobPass,
    pub rows: Vec<Row>,
    pub outcome: Result<(), NoMemory>,
}

impl Worker {
    ghost use Rattle.std.specs.Prelude.{◌≡◌, [], Ok};
    ghost use Rattle.mr_table.specs.Work.{IsTask, IsReady, HasWorked};

    /// A worker with this pass, who made no row.
    pub(crate) fn new(alloc: Global, pass: JobPass) -> Worker
        ensures { (result.pass ≡ pass) × (result.rows.items ≡ []) × (result.outcome ≡ Ok tt) }
    {
        Worker {
            pass,
            rows: Vec::new(alloc),
            outcome: Ok(()),
        }
    }

    /// Works until no job is left, or there is no memory.
    pub(crate) fn work<R: Wait, G: Gate>(&mut self, rt: &R, gate: &G, task: &Task)
        requires task { IsTask task.now }
        requires ready { IsReady task.now self.old }
        ensures { HasWorked task.now self.old self.new }
    {
        let outcome = take_all(rt, gate, task, &mut self.pass, &mut self.rows);
        self.outcome = outcome;
    }
}

/// Takes jobs until none is left, and adds the row of each. A pass that has all parts then took
/// each job once.
pub(crate) fn take_all<R: Wait, G: Gate>(
    rt: &R,
    gate: &G,
    task: &Task,
    pass: &mut JobPass,
    rows: &mut Vec<Row>,
) -> Result<(), NoMemory>
    requires task { IsTask task.now }
    requires pass { IsPassOf task.now.jobs.now pass.old }
    requires rows { AreRowsOf task.now pass.old rows.old.items }
    ensures pass { IsPassOf task.now.jobs.now pass.new }
    ensures share { share_of (pass_view pass.new) ≡ share_of (pass_view pass.old) }
    ensures rows { OnOk result (AreRowsOf task.now pass.new rows.new.items) }
    ensures each { OnOk result (IsWhole (pass_view pass.new)
        → AreEachBelow (pass_view pass.new).taken (count_of task.now.jobs.now)) }
{
    while let Some(number) = task.jobs.take(rt, pass) {
        gate.pass(Point::Job { number });
        rows.push(row_for(task, number)?)?;
    }
    Ok(())
}

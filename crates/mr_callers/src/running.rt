//! Callers that make their calls, each in a thread of its own.

ghost use Rattle.std.specs.Prelude.{◌≡◌, ◌∷◌, [], ℕ, ◌<◌, length, slice_index_or};
ghost use Rattle.mr_history.specs.Histories.{names_of};
ghost use Rattle.mr_locks.specs.Rule.{rest_of};
ghost use Rattle.mr_locks.specs.Seats.{names};
ghost use Rattle.mr_amend.specs.Callers.{IsCallerOf, view};
ghost use Rattle.mr_callers.specs.Jobs.{CanRun, HasAskedFirst, HasMendedSome, HasRun, HaveRoom, IsFilled, numbers_of};

use crate::crews::CallerJob;
use crate::tasks::Task;
use mr_account::Slot;
use mr_amend::Caller;
use mr_io::Gate;
use std::sync::Wait;
use std::thread;
use std::thread::Threads;

/// Each caller makes its calls in a thread of its own. The first half of them make their asks first, and then mend; the
/// others mend first, and then make their asks. It takes no memory.
pub(crate) fn run_jobs<R: Threads + Wait + Sync, G: Gate + Sync>(
    rt: &R,
    task: &Task<G>,
    jobs: &mut [CallerJob],
)
    requires terms { names_of task.now.server.now.terms.now ≡ names task.now.amend.now.locks }
    requires some { 0 < length jobs.old }
    requires ready { (c : ℕ) (d : CallerJob) → c < length jobs.old
        → CanRun task.now.amend.now (slice_index_or jobs.old c d) }
    ensures { (c : ℕ) (d : CallerJob) → c < length jobs.old
        → HasRun task.now.amend.now (slice_index_or jobs.old c d) (slice_index_or jobs.new c d) }
{
    let threads = jobs.len();
    let asking = threads / 2;
    thread::for_each_mut(
        rt,
        jobs,
        threads,
        &|place, job: &mut CallerJob|
            requires terms { names_of task.now.server.now.terms.now
                ≡ names task.now.amend.now.locks }
            requires ready { CanRun task.now.amend.now job.old }
            ensures { HasRun task.entry.now.amend.now job.old job.new }
        { run_job(rt, task, place < asking, job) },
    );
}

/// Makes all calls of a caller.
fn run_job<R: Wait, G: Gate>(rt: &R, task: &Task<G>, asks_first: bool, job: &mut CallerJob)
    requires terms { names_of task.now.server.now.terms.now ≡ names task.now.amend.now.locks }
    requires ready { CanRun task.now.amend.now job.old }
    ensures { HasRun task.now.amend.now job.old job.new }
{
    if asks_first {
        ask_all(rt, task, &mut job.caller, &mut job.slots);
        mend_all(rt, task, &mut job.caller);
    } else {
        mend_all(rt, task, &mut job.caller);
        ask_all(rt, task, &mut job.caller, &mut job.slots);
    }
}

/// Makes all asks of a caller, and fills its slots.
fn ask_all<R: Wait, G: Gate>(rt: &R, task: &Task<G>, caller: &mut Caller, slots: &mut Vec<Slot>)
    requires terms { names_of task.now.server.now.terms.now ≡ names task.now.amend.now.locks }
    requires caller { IsCallerOf task.now.amend.now caller.old }
    requires asks { (view caller.old).asks ≡ numbers_of slots.old.items }
    requires rooms { HaveRoom (names task.now.amend.now.locks).head.symbol_bytes slots.old.items }
    ensures { HasAskedFirst task.now.amend.now (view caller.old) slots.old.items
        (length slots.old.items) caller.new slots.new.items }
{
    for index in 0..slots.len() {
        fill(rt, task, caller, &mut slots[index]);
    }
}

/// Makes the next ask of a caller, which is that of the slot.
fn fill<R: Wait, G: Gate>(rt: &R, task: &Task<G>, caller: &mut Caller, slot: &mut Slot)
    requires terms { names_of task.now.server.now.terms.now ≡ names task.now.amend.now.locks }
    requires caller { IsCallerOf task.now.amend.now caller.old }
    requires room { length slot.old.reply.items
        ≡ (names task.now.amend.now.locks).head.symbol_bytes }
    requires next { (view caller.old).asks ≡ slot.old.number ∷ rest_of (view caller.old).asks }
    ensures caller { IsCallerOf task.now.amend.now caller.new }
    ensures filled { IsFilled (view caller.old) slot.old slot.new (view caller.new) }
{
    let Some(done) = task
        .amend
        .ask_next(rt, task.server, caller, &mut slot.reply, task.gate)
    else {
        unreachable!()
    };
    slot.place = done.place;
}

/// Mends all stripes of a caller.
fn mend_all<R: Wait, G: Gate>(rt: &R, task: &Task<G>, caller: &mut Caller)
    requires terms { names_of task.now.server.now.terms.now ≡ names task.now.amend.now.locks }
    requires caller { IsCallerOf task.now.amend.now caller.old }
    ensures mends { HasMendedSome task.now.amend.now (view caller.old) caller.new }
    ensures none { (view caller.new).mends ≡ [] }
{
    while let Some(_done) = task.amend.mend_next(rt, task.server, caller, task.gate) {}
}

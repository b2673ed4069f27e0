//! Callers with the memory that they want.

ghost use Rattle.std.specs.Prelude.{◌≡◌, ℕ, ◌<◌, length, map, slice_index_or, All, IfOk};
ghost use Rattle.mr_history.specs.Histories.{stripes};
ghost use Rattle.mr_history.specs.declared.kept.KeptStripe.{KeptStripe as AStripe};
ghost use Rattle.mr_locks.specs.Seats.{IsClosed, names};
ghost use Rattle.mr_amend.specs.Callers.{AreAll, IsDone, made_by, view};
ghost use Rattle.mr_callers.specs.Jobs.{HasRooms, HaveRoom, callers_of, numbers_of, slots_of};

use mr_account::{Ending, Slot};
use mr_amend::{Amend, Caller};
use std::alloc::{AllocError, Global};
use std::collections::VecDeque;

/// A caller, and a slot for each of its asks.
#[derive(Drop)]
pub struct CallerJob {
    pub(crate) caller: Caller,
    pub(crate) slots: Vec<Slot>,
}

/// Callers that are to make their calls.
#[derive(Drop)]
pub struct Crew {
    pub(crate) jobs: Vec<CallerJob>,
    /// Memory for the callers when they have made their calls.
    pub(crate) callers: Vec<Caller>,
    /// Memory for their slots.
    pub(crate) slots: Vec<Vec<Slot>>,
}

impl Crew {
    /// These callers, each with a slot for each of its asks, with room for a reply of so many bytes.
    pub(crate) fn of(alloc: Global, callers: Vec<Caller>, size: usize) -> Result<Crew, AllocError>
        ensures callers { IfOk result (λ crew. callers_of crew.jobs.items ≡ callers.items) }
        ensures numbers { IfOk result (λ crew.
            All (λ job. numbers_of job.slots.items ≡ (view job.caller).asks) crew.jobs.items) }
        ensures replies { IfOk result (λ crew.
            All (λ job. HaveRoom size job.slots.items) crew.jobs.items) }
        ensures rooms { IfOk result HasRooms }
    {
        let mut crew = Crew {
            jobs: Vec::with_capacity(alloc, callers.len())?,
            slots: Vec::with_capacity(alloc, callers.len())?,
            callers: Vec::with_capacity(alloc, callers.len())?,
        };
        let mut left = VecDeque::from(callers);
        while let Some(caller) = left.pop_front() {
            let slots = slots_for(alloc, &caller, size)?;
            crew.jobs.push_reserved(CallerJob { caller, slots });
        }
        Ok(crew)
    }

    /// Takes the stripes out, when all callers have made their calls. It takes no memory.
    pub(crate) fn finish(self, amend: Amend) -> Ending
        requires rooms { HasRooms self }
        requires some { 0 < length self.jobs.items }
        requires done { All (λ job. IsDone amend job.caller) self.jobs.items }
        requires all { AreAll (names amend.locks) (callers_of self.jobs.items) }
        ensures slots { map (λ slots. slots.items) result.slots.items ≡ slots_of self.jobs.items }
        ensures count { length result.stripes.items ≡ stripes (names amend.locks) }
        ensures closed { (t : ℕ) (d : AStripe) → t < stripes (names amend.locks)
            → IsClosed (names amend.locks) (λ h. made_by h t (callers_of self.jobs.items)) t
            (slice_index_or result.stripes.items t d) }
    {
        let Crew {
            jobs,
            mut callers,
            mut slots,
        } = self;
        let mut left = VecDeque::from(jobs);
        while let Some(job) = left.pop_front() {
            let CallerJob { caller, slots: own } = job;
            callers.push_reserved(caller);
            slots.push_reserved(own);
        }
        Ending {
            stripes: amend.close(callers).stripes,
            slots,
        }
    }
}

/// A slot for each ask of a caller, with room for a reply of so many bytes.
fn slots_for(alloc: Global, caller: &Caller, size: usize) -> Result<Vec<Slot>, AllocError>
    ensures numbers { IfOk result (λ slots. numbers_of slots.items ≡ (view caller.now).asks) }
    ensures rooms { IfOk result (λ slots. HaveRoom size slots.items) }
{
    let asks = caller.asks();
    let mut slots = Vec::with_capacity(alloc, asks.len())?;
    for index in 0..asks.len() {
        slots.push_reserved(Slot {
            number: asks[index],
            place: 0,
            reply: vec![in alloc; 0; size]?,
        });
    }
    Ok(slots)
}

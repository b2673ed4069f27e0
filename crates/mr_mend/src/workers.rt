//! Those that work on a board beside each other: menders and readers.

ghost use Rattle.std.specs.Prelude.{◌≡◌, ℕ, ◌<◌, ◌≤◌, true, false, map, length, vec_len, All, Any, IfErr, IfOk};
ghost use Rattle.mr_mend.specs.Mending.{AreMendable};
ghost use Rattle.mr_mend.specs.Scripts.{IsInRange};
ghost use Rattle.mr_mend.specs.Workers.{AreStrided, HasReply, IsReader, numbers_of};

use crate::menders::mend_drawn;
use crate::readers::serve_slots;
use crate::rooms::Room;
use crate::served::Slot;
use crate::tasks::Task;
use mr_bits::NoMemory;
use mr_board::Pass;
use mr_image::ImageHead;
use mr_io::{Eye, Gate};
use mr_plan::Plans;
use std::alloc::Global;

/// What a worker does, and its memory for that.
#[derive(Drop)]
pub(crate) enum Role {
    /// It mends.
    Mender {
        /// The room for one stripe.
        room: Room,
    },
    /// It serves asks.
    Reader {
        /// The asks that it serves, and their replies.
        slots: Vec<Slot>,
        /// Room for one symbol.
        tmp: Vec<u8>,
    },
}

/// A worker: its pass of a board, its eye on the image, and what it does.
pub struct Worker<E> {
    pub(crate) pass: Pass,
    pub(crate) eye: E,
    pub(crate) role: Role,
    pub(crate) failed: bool,
}

/// There was no memory for a worker. Its pass and its eye are handed back.
pub struct WorkerRefused<E> {
    /// The pass that was handed in.
    pub pass: Pass,
    /// The eye that was handed in.
    pub eye: E,
}

impl<E: Eye> Worker<E> {
    ghost use Rattle.mr_mend.specs.Workers.{AreStrided, CanWork, HasEnded, IsMender, IsReader, IsReplyOf, numbers_of};

    /// A worker that mends, in an image with this head and these plans.
    pub fn mender(
        alloc: Global,
        pass: Pass,
        eye: E,
        head: &ImageHead,
        plans: &Plans,
    ) -> Result<Worker<E>, WorkerRefused<E>>
        ensures pass { IfOk result (λ worker. worker.pass ≡ pass) }
        ensures eye { IfOk result (λ worker. worker.eye ≡ eye) }
        ensures role { IfOk result (λ worker. IsMender head.now plans.now worker.role) }
        ensures refused { IfErr result (λ refused. (refused.pass ≡ pass) × (refused.eye ≡ eye)) }
    {
        match Room::new(alloc, head, plans) {
            Ok(room) => Ok(Worker {
                pass,
                eye,
                role: Role::Mender { room },
                failed: false,
            }),
            Err(_) => Err(WorkerRefused { pass, eye }),
        }
    }

    /// A worker that serves, of so many asks, those of the numbers `first`, `first + step` and so on, in this order, and has room
    /// for their replies. `step` is at least 1.
    pub fn reader(
        alloc: Global,
        pass: Pass,
        eye: E,
        head: &ImageHead,
        asks: u32,
        first: u32,
        step: u32,
    ) -> Result<Worker<E>, WorkerRefused<E>>
        requires { 1 ≤ step }
        ensures pass { IfOk result (λ worker. worker.pass ≡ pass) }
        ensures eye { IfOk result (λ worker. worker.eye ≡ eye) }
        ensures role { IfOk result (λ worker. IsReader head.now worker.role) }
        ensures numbers { IfOk result (λ worker.
            AreStrided first step asks (numbers_of worker.role)) }
        ensures refused { IfErr result (λ refused. (refused.pass ≡ pass) × (refused.eye ≡ eye)) }
    {
        match reader_role(alloc, head, asks, first, step) {
            Ok(role) => Ok(Worker {
                pass,
                eye,
                role,
                failed: false,
            }),
            Err(_) => Err(WorkerRefused { pass, eye }),
        }
    }

    /// The reply to the ask of this number, which is one of those that this worker, a reader, serves.
    pub fn reply(&self, number: u32) -> &[u8]
        requires { Any (λ n. n ≡ number) (numbers_of self.now.role) }
        ensures { IsReplyOf self.now.role number result.now }
    {
        match &self.role {
            Role::Reader { slots, .. } => reply_in(slots.as_slice(), number),
            Role::Mender { .. } => unreachable!(),
        }
    }

    /// Its pass and its eye.
    pub fn into_parts(self) -> (Pass, E)
        ensures { result ≡ (self.pass, self.eye) }
    {
        let Worker {
            pass,
            eye,
            role: _,
            failed: _,
        } = self;
        (pass, eye)
    }

    /// Works until all is done, or a read fails.
    pub(crate) fn work<G: Gate>(&mut self, task: &Task<G>)
        requires plans { AreMendable task.now.head.now task.now.plans.now }
        requires asks { All (IsInRange task.now.head.now) task.now.asks.now }
        requires ready { CanWork task.now.head.now task.now.plans.now task.now.singles.now
            task.now.asks.now E.sight task.now.board.now self.old }
        ensures { HasEnded E.sight E.faults task.now.board.now task.now.head.now task.now.plans.now
            task.now.singles.now task.now.asks.now self.old self.new }
    {
        match &mut self.role {
            Role::Mender { room } => {
                self.failed = mend_drawn(task, &mut self.pass, &mut self.eye, room).is_err();
            }
            Role::Reader { slots, tmp } => {
                self.failed = serve_slots(
                    task,
                    &mut self.pass,
                    &mut self.eye,
                    slots.as_mut_slice(),
                    tmp.as_mut_slice(),
                )
                .is_err();
            }
        }
    }
}

/// A reader of these asks, with room for the replies and for one symbol more.
fn reader_role(
    alloc: Global,
    head: &ImageHead,
    asks: u32,
    first: u32,
    step: u32,
) -> Result<Role, NoMemory>
    requires { 1 ≤ step }
    ensures role { IfOk result (IsReader head.now) }
    ensures numbers { IfOk result (λ role. AreStrided first step asks (numbers_of role)) }
{
    let slots = slots_of(alloc, head, asks, first, step)?;
    let tmp = vec![in alloc; 0; head.bytes() as usize]?;
    Ok(Role::Reader { slots, tmp })
}

/// The slots of the asks `first`, `first + step` and so on, of so many asks.
fn slots_of(
    alloc: Global,
    head: &ImageHead,
    asks: u32,
    first: u32,
    step: u32,
) -> Result<Vec<Slot>, NoMemory>
    requires { 1 ≤ step }
    ensures room { IfOk result (λ slots.
        All (λ slot. vec_len slot.bytes ≡ head.now.symbol_bytes) slots.items) }
    ensures numbers { IfOk result (λ slots.
        AreStrided first step asks (map (λ slot. slot.number) slots.items)) }
{
    let size = head.bytes() as usize;
    let mut slots = Vec::new(alloc);
    let mut number = u64::from(first);
    while number < u64::from(asks) {
        let bytes = vec![in alloc; 0; size]?;
        slots.push(Slot {
            number: number as u32,
            bytes,
        })?;
        number += u64::from(step);
    }
    Ok(slots)
}

/// The bytes of the slot of this number.
fn reply_in(slots: &[Slot], number: u32) -> &[u8]
    requires { Any (λ slot. slot.number ≡ number) slots.now }
    ensures { HasReply slots.now number result.now }
{
    for slot in slots {
        if slot.number == number {
            return slot.bytes.as_slice();
        }
    }
    unreachable!()
}

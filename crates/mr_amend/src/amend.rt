//! The stripes under their locks, and the calls of callers.

ghost use Rattle.std.specs.Prelude.{◌≡◌, ℕ, List, ◌+◌, ◌^◌, ◌<◌, [], ◌++◌, All, IfOk, MatchOption, length, slice_index_or};
ghost use Rattle.mr_history.specs.Histories.{PartsFit, names_of, stripes};
ghost use Rattle.mr_history.specs.declared.kept.KeptStripe.{KeptStripe as AStripe};
ghost use Rattle.mr_locks.specs.Rule.{first_view};
ghost use Rattle.mr_locks.specs.Seats.{IsClosed, names};
ghost use Rattle.mr_amend.specs.Props.{PartsFit-prop};

use crate::caller::{Caller, Done};
use crate::closed::Closed;
use crate::making::{calls_of_each, kept_stripes, numbers};
use mr_bits::NoMemory;
use mr_history::{Entry, Server, Terms};
use mr_io::{Gate, Point};
use mr_locks::Locks;
use std::alloc::Global;
use std::collections::VecDeque;
use std::sync::Wait;

/// The stripes of an image, each under its lock.
///
/// Threads share it by `&`. Each makes its calls with a caller of its own, and with what the calls go by: the `Terms` that
/// the stripes were read for.
#[derive(Drop)]
pub struct Amend {
    pub(crate) locks: Locks,
    ghost parts: { PartsFit (names locks) } by { PartsFit-prop (names locks) },
}

impl Amend {
    ghost use Rattle.mr_amend.specs.Callers.{AreAll, HasAsked, HasMended, IsCallerOf, IsDone, made_by, view};
    ghost use Rattle.mr_locks.specs.Seats.{HasAll};
    ghost use Rattle.mr_locks.specs.Calls.{made_of};

    /// The stripes of these bytes as they were read, each with memory for all its calls, and the caller that owns each ask
    /// and each stripe.
    pub fn new(
        alloc: Global,
        terms: &Terms,
        bytes: VecDeque<Vec<u8>>,
    ) -> Result<(Amend, Caller), NoMemory>
        requires parts { PartsFit (names_of terms.now) }
        requires bytes { terms.now.image.value ≡ bytes }
        requires small { length terms.now.ops.items < 2 ^ 31 }
        ensures names { IfOk result (λ made. names made.0.locks ≡ names_of terms.now) }
        ensures first { IfOk result (λ made. IsCallerOf made.0 made.1) }
        ensures view { IfOk result (λ made. view made.1 ≡ first_view (names_of terms.now)) }
    {
        let asks = numbers(alloc, terms.ops.len() as u32)?;
        let mends = numbers(alloc, terms.head.stripes())?;
        let counts = calls_of_each(alloc, terms)?;
        let stripes = kept_stripes(alloc, terms, bytes, counts.as_slice())?;
        let (locks, seat) = Locks::new(alloc, terms, stripes)?;
        let amend = Amend { locks };
        Ok((amend, Caller { seat, asks, mends }))
    }

    /// Makes the caller's next ask, under the lock of its stripe. A read replies what the history of the stripe gives at the
    /// place of the ask. A write leaves `reply` as it is.
    ///
    /// It answers `None` exactly where no ask is left to the caller. The gate is passed when the stripe was taken, and when it
    /// was given back.
    pub fn ask_next<R: Wait, G: Gate>(
        &self,
        rt: &R,
        server: &Server,
        caller: &mut Caller,
        reply: &mut [u8],
        gate: &G,
    ) -> Option<Done>
        requires terms { names_of server.now.terms.now ≡ names self.now.locks }
        requires caller { IsCallerOf self.now caller.old }
        requires reply { length reply.old ≡ (names self.now.locks).head.symbol_bytes }
        ensures caller { IsCallerOf self.now caller.new }
        ensures asked { MatchOption result
            (((view caller.old).asks ≡ []) × (view caller.new ≡ view caller.old)
            × (reply.new ≡ reply.old))
            (λ done. HasAsked (view caller.old) done reply.new (view caller.new)) }
        ensures size { length reply.new ≡ length reply.old }
    {
        let number = caller.asks.pop_front()?;
        let stripe = server.terms.stripe(number);
        self.locks.lock(rt, &mut caller.seat, stripe);
        gate.pass(Point::Held { stripe });
        self.locks.ask(&mut caller.seat, server, number, reply);
        let place = self
            .locks
            .unlock(&mut caller.seat, stripe, Entry::Ask { number });
        gate.pass(Point::Left { stripe });
        Some(Done { number, place })
    }

    /// Mends the caller's next stripe, or leaves it where it is whole, under its lock.
    ///
    /// It answers `None` exactly where no stripe is left to the caller. The gate is passed as by `ask_next`.
    pub fn mend_next<R: Wait, G: Gate>(
        &self,
        rt: &R,
        server: &Server,
        caller: &mut Caller,
        gate: &G,
    ) -> Option<Done>
        requires terms { names_of server.now.terms.now ≡ names self.now.locks }
        requires caller { IsCallerOf self.now caller.old }
        ensures caller { IsCallerOf self.now caller.new }
        ensures mended { MatchOption result
            (((view caller.old).mends ≡ []) × (view caller.new ≡ view caller.old))
            (λ done. HasMended (view caller.old) done (view caller.new)) }
    {
        let stripe = caller.mends.pop_front()?;
        self.locks.lock(rt, &mut caller.seat, stripe);
        gate.pass(Point::Held { stripe });
        self.locks.mend(&mut caller.seat, server, stripe);
        let place = self.locks.unlock(&mut caller.seat, stripe, Entry::Mend);
        gate.pass(Point::Left { stripe });
        Some(Done {
            number: stripe,
            place,
        })
    }

    /// The stripes with their histories, by all callers when no ask and no stripe is left to them.
    pub fn close(self, callers: Vec<Caller>) -> Closed
        requires some { 0 < length callers.items }
        requires done { All (IsDone self) callers.items }
        requires all { AreAll (names self.locks) callers.items }
        ensures count { length result.stripes.items ≡ stripes (names self.locks) }
        ensures closed { (t : ℕ) (d : AStripe) → t < stripes (names self.locks)
            → IsClosed (names self.locks) (λ h. made_by h t callers.items) t
            (slice_index_or result.stripes.items t d) }
    {
        let Caller {
            seat,
            asks: _,
            mends: _,
        } = self.gather(callers);
        let Amend { locks } = self;
        let stripes = locks.close(seat);
        Closed { stripes }
    }

    /// One caller that made what all of these made.
    fn gather(&self, mut callers: Vec<Caller>) -> Caller
        requires some { 0 < length callers.items }
        requires done { All (IsDone self.now) callers.items }
        requires all { AreAll (names self.now.locks) callers.items }
        ensures done { IsDone self.now result }
        ensures all { HasAll (names self.now.locks) (view result) }
        ensures made { (t : ℕ) (h : List Entry → Entry → ℕ)
            → made_of h t (view result).made ≡ made_by h t callers.items }
    {
        let Some(mut first) = callers.pop() else {
            unreachable!()
        };
        while let Some(caller) = callers.pop() {
            self.join(&mut first, caller);
        }
        first
    }

    /// Takes in what another caller made.
    fn join(&self, caller: &mut Caller, other: Caller)
        requires caller { IsDone self.now caller.old }
        requires other { IsDone self.now other }
        ensures done { IsDone self.now caller.new }
        ensures made { (view caller.new).made ≡ (view caller.old).made ++ (view other).made }
    {
        let Caller {
            seat,
            asks: _,
            mends: _,
        } = other;
        self.locks.join(&mut caller.seat, seat);
    }
}

//! How the asks and the stripes are dealt out to callers.

ghost use Rattle.std.specs.Prelude.{◌≡◌, ℕ, ◌<◌, ◌≤◌, All, IfOk, OnOk, length, slice_index_or};
ghost use Rattle.mr_locks.specs.Rule.{blank_view, first_view, joined_view, with_ask, with_mend, without_ask, without_mend};
ghost use Rattle.mr_locks.specs.Seats.{names};

use crate::amend::Amend;
use crate::caller::Caller;
use mr_bits::NoMemory;
use std::alloc::{AllocError, Global};
use std::collections::VecDeque;

impl Amend {
    ghost use Rattle.mr_amend.specs.Callers.{AreAll, IsCallerOf, share_view, view};

    /// Deals the asks and the stripes of the first caller out to this many callers, 1 to 128: the caller at a place gets
    /// those whose number is its place modulo `count`. The `Amend` is to be dropped where there was no memory.
    pub fn callers(
        &self,
        alloc: Global,
        mut first: Caller,
        count: u32,
    ) -> Result<Vec<Caller>, NoMemory>
        requires count { (1 ≤ count) × (count ≤ 128) }
        requires first { IsCallerOf self.now first }
        requires view { view first ≡ first_view (names self.now.locks) }
        ensures count { IfOk result (λ callers. length callers.items ≡ count) }
        ensures callers { IfOk result (λ callers. All (IsCallerOf self.now) callers.items) }
        ensures views { IfOk result (λ callers. (c : ℕ) (d : Caller) → c < count
            → view (slice_index_or callers.items c d)
            ≡ share_view (names self.now.locks) c count) }
        ensures all { IfOk result (λ callers. AreAll (names self.now.locks) callers.items) }
    {
        let mut callers = self.blanks(alloc, &mut first, count)?;
        for number in 0..first.asks.len() {
            self.deal_ask(&mut first, &mut callers[number % count as usize])?;
        }
        for stripe in 0..first.mends.len() {
            self.deal_mend(&mut first, &mut callers[stripe % count as usize])?;
        }
        Ok(callers)
    }

    /// This many callers, to whom nothing is left.
    fn blanks(
        &self,
        alloc: Global,
        first: &mut Caller,
        count: u32,
    ) -> Result<Vec<Caller>, AllocError>
        requires { IsCallerOf self.now first.old }
        ensures first { OnOk result (IsCallerOf self.now first.new) }
        ensures view { OnOk result (view first.new ≡ view first.old) }
        ensures count { IfOk result (λ callers. length callers.items ≡ count) }
        ensures callers { IfOk result (λ callers. All (IsCallerOf self.now) callers.items) }
        ensures views { IfOk result (λ callers.
            All (λ caller. view caller ≡ blank_view (view first.old)) callers.items) }
    {
        let mut callers = Vec::with_capacity(alloc, count as usize)?;
        for _caller in 0..count {
            callers.push_reserved(self.blank(alloc, first));
        }
        Ok(callers)
    }

    /// A caller to whom nothing is left.
    fn blank(&self, alloc: Global, first: &mut Caller) -> Caller
        requires { IsCallerOf self.now first.old }
        ensures first { IsCallerOf self.now first.new }
        ensures view { view first.new ≡ view first.old }
        ensures blank { IsCallerOf self.now result }
        ensures none { view result ≡ blank_view (view first.old) }
    {
        let seat = self.locks.split(&mut first.seat);
        Caller {
            seat,
            asks: VecDeque::new(alloc),
            mends: VecDeque::new(alloc),
        }
    }

    /// The first ask that is left to one caller is left to another from now on.
    fn deal_ask(&self, giver: &mut Caller, taker: &mut Caller) -> Result<(), AllocError>
        requires giver { IsCallerOf self.now giver.old }
        requires taker { IsCallerOf self.now taker.old }
        ensures giver { OnOk result (IsCallerOf self.now giver.new) }
        ensures taker { OnOk result (IsCallerOf self.now taker.new) }
        ensures left { OnOk result (view giver.new ≡ without_ask (view giver.old)) }
        ensures dealt { OnOk result (view taker.new
            ≡ joined_view (view taker.old) (with_ask (view giver.old))) }
    {
        let Some(&number) = giver.asks.front() else {
            return Ok(());
        };
        taker.asks.push_back(number)?;
        giver.asks.pop_front();
        self.locks.deal_ask(&mut giver.seat, &mut taker.seat);
        Ok(())
    }

    /// The first stripe that is left to one caller is left to another from now on.
    fn deal_mend(&self, giver: &mut Caller, taker: &mut Caller) -> Result<(), AllocError>
        requires giver { IsCallerOf self.now giver.old }
        requires taker { IsCallerOf self.now taker.old }
        ensures giver { OnOk result (IsCallerOf self.now giver.new) }
        ensures taker { OnOk result (IsCallerOf self.now taker.new) }
        ensures left { OnOk result (view giver.new ≡ without_mend (view giver.old)) }
        ensures dealt { OnOk result (view taker.new
            ≡ joined_view (view taker.old) (with_mend (view giver.old))) }
    {
        let Some(&stripe) = giver.mends.front() else {
            return Ok(());
        };
        taker.mends.push_back(stripe)?;
        giver.mends.pop_front();
        self.locks.deal_mend(&mut giver.seat, &mut taker.seat);
        Ok(())
    }
}

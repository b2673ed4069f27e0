//! The locks, and the steps on them.

ghost use Rattle.std.specs.Prelude.{◌≡◌, ℕ, List, ◌+◌, ◌*◌, ◌<◌, ◌≤◌, ◌^◌, [], length, slice_index_or, vec_capacity, IfOk};
ghost use Rattle.std.specs.Slots.{IsFull, slots_items, slots_len};
ghost use Rattle.mr_history.specs.Histories.{FitsHistory, IsReply, PartsFit, call_count, names_of, stripe_of, stripes, value};
ghost use Rattle.mr_history.specs.declared.entry.Entry.TheVariants.{Ask, Mend};
ghost use Rattle.mr_locks.specs.Calls.{Holding, Idle, Waiting, made_of};
ghost use Rattle.mr_locks.specs.Rule.{AreEarlier, IsNext, Takes, blank_view, first_view, joined_view, left, served_view, waiting_view, with_ask, with_mend, without_ask, without_mend};

use crate::rule::{Blank, Both, DealAsk, DealMend, LockRule, Look, Serve, Ticket};
use crate::view::LockView;
use atomic_table::{Seat, Table};
use mr_bits::NoMemory;
use mr_history::{Entry, KeptStripe, Server, Terms};
use std::alloc::Global;
use std::sync::Wait;
use std::thread::yield_now;

/// A seat of the locks, with which one caller steps. It has no bytes. In contracts `me.0` is what the caller knows, a
/// `LockView`, and `me.1` are the stripes that it holds.
pub type LockSeat = Seat<KeptStripe, LockView>;

/// The stripes of an image, each under a lock of its own.
///
/// They are shared by `&`. Each thread steps with a seat of its own. No step takes memory.
#[derive(Drop)]
pub struct Locks {
    table: Table<KeptStripe, LockView, Terms, LockRule, Global>,
    /// Memory for the stripes when they are taken out.
    spare: Vec<KeptStripe>,
    ghost words: { table.shared.table_id.words ≡ 1 + 2 * stripes (names_of table.shared.key) },
    ghost slots: { table.shared.table_id.slots ≡ stripes (names_of table.shared.key) },
    ghost spare_none: { spare.items ≡ [] },
    ghost spare_room: { stripes (names_of table.shared.key) ≤ vec_capacity spare },
}

impl Locks {
    ghost use Rattle.mr_locks.specs.Seats.{HasAll, HasLocked, HoldsGrown, HoldsStripe, IsClosed, IsSeatOf, names};

    /// The locks of these stripes, and the seat of the first caller, to whom all calls are left.
    pub fn new(
        alloc: Global,
        terms: &Terms,
        stripes: Vec<KeptStripe>,
    ) -> Result<(Locks, LockSeat), NoMemory>
        requires parts { PartsFit (names_of terms.now) }
        requires small { (t : ℕ) → call_count (names_of terms.now) t < 2 ^ 32 }
        requires count { length stripes.items ≡ terms.now.head.stripes }
        requires fresh { (t : ℕ) (d : KeptStripe) → t < terms.now.head.stripes
            → FitsHistory (names_of terms.now) t [] (slice_index_or stripes.items t d) }
        ensures names { IfOk result (λ made. names made.0 ≡ names_of terms.now) }
        ensures seat { IfOk result (λ made. IsSeatOf made.0 made.1) }
        ensures view { IfOk result (λ made.
            made.1.me ≡ (first_view (names_of terms.now), [])) }
    {
        let count = terms.head.stripes() as usize;
        let spare = Vec::with_capacity(alloc, count)?;
        let words = Vec::from_elem(alloc, 0u64, 1 + 2 * count)?;
        let Ok((table, seat)) = Table::new(alloc, words.as_slice(), stripes, terms) else {
            return Err(NoMemory);
        };
        Ok((Locks { table, spare }, seat))
    }

    /// Takes a stripe, as soon as those who asked for it before have given it back.
    pub fn lock<R: Wait>(&self, rt: &R, seat: &mut LockSeat, stripe: u32)
        requires seat { IsSeatOf self.now seat.old }
        requires idle { seat.old.me.0.turn ≡ Idle }
        requires bare { seat.old.me.1 ≡ [] }
        requires stripe { stripe < stripes (names self.now) }
        requires left { 0 < left (names self.now) stripe seat.old.me.0 }
        ensures seat { IsSeatOf self.now seat.new }
        ensures locked { HasLocked (names self.now) seat.old.me stripe seat.new.me }
    {
        let ticket = self.ticket(seat, stripe);
        self.wait(rt, seat, stripe, ticket);
    }

    /// Draws a ticket of a stripe.
    fn ticket(&self, seat: &mut LockSeat, stripe: u32) -> u64
        requires seat { IsSeatOf self.now seat.old }
        requires idle { seat.old.me.0.turn ≡ Idle }
        requires stripe { stripe < stripes (names self.now) }
        requires left { 0 < left (names self.now) stripe seat.old.me.0 }
        ensures seat { IsSeatOf self.now seat.new }
        ensures waits { seat.new.me ≡ (waiting_view seat.old.me.0 stripe result, seat.old.me.1) }
    {
        let place = 1 + 2 * stripe as usize;
        self.table.shared.fetch_add::<Ticket>(seat, place, 1)
    }

    /// Looks until the ticket is served, and takes the stripe.
    fn wait<R: Wait>(&self, rt: &R, seat: &mut LockSeat, stripe: u32, ticket: u64)
        requires seat { IsSeatOf self.now seat.old }
        requires waits { seat.old.me.0.turn ≡ Waiting stripe ticket }
        requires stripe { stripe < stripes (names self.now) }
        ensures seat { IsSeatOf self.now seat.new }
        ensures takes { Takes seat.old.me stripe ticket seat.new.me }
    {
        let place = 2 + 2 * stripe as usize;
        for _ in rt.forever() {
            if self.table.shared.load::<Look>(seat, place) == ticket {
                return;
            }
            yield_now();
        }
        unreachable!()
    }

    /// Makes an ask on its stripe, which the caller holds. A read replies what the stripe's history gives.
    pub fn ask(&self, seat: &mut LockSeat, server: &Server, number: u32, reply: &mut [u8])
        requires terms { names_of server.now.terms.now ≡ names self.now }
        requires parts { PartsFit (names self.now) }
        requires seat { IsSeatOf self.now seat.old }
        requires number { number < length (names self.now).ops }
        requires reply { length reply.old ≡ (names self.now).head.symbol_bytes }
        requires held { (log : List Entry)
            × HoldsStripe (names self.now) seat.old.me (stripe_of (names self.now) number) log }
        ensures seat { IsSeatOf self.now seat.new }
        ensures view { seat.new.me.0 ≡ seat.old.me.0 }
        ensures grown { let n = names self.now in let t = stripe_of n number in (log : List Entry)
            → HoldsStripe n seat.old.me t log → HoldsGrown n seat.new.me t log (Ask number) }
        ensures reply { let n = names self.now in let t = stripe_of n number in (log : List Entry)
            → HoldsStripe n seat.old.me t log → IsReply n number (value n t log) reply.new }
        ensures size { length reply.new ≡ length reply.old }
    {
        let stripe = server.terms.stripe(number);
        let kept = seat.slot_mut(&self.table.shared, stripe as usize);
        server.ask(kept, number, reply);
    }

    /// Mends a stripe that the caller holds, or leaves it where it is whole.
    pub fn mend(&self, seat: &mut LockSeat, server: &Server, stripe: u32)
        requires terms { names_of server.now.terms.now ≡ names self.now }
        requires parts { PartsFit (names self.now) }
        requires seat { IsSeatOf self.now seat.old }
        requires held { (log : List Entry) × HoldsStripe (names self.now) seat.old.me stripe log }
        ensures seat { IsSeatOf self.now seat.new }
        ensures view { seat.new.me.0 ≡ seat.old.me.0 }
        ensures grown { let n = names self.now in (log : List Entry)
            → HoldsStripe n seat.old.me stripe log → HoldsGrown n seat.new.me stripe log Mend }
    {
        let kept = seat.slot_mut(&self.table.shared, stripe as usize);
        server.mend(kept, stripe);
    }

    /// Gives a stripe back, whose history has grown by the call that was made. It answers the place of that call in the
    /// history.
    pub fn unlock(&self, seat: &mut LockSeat, stripe: u32, _entry: Entry) -> u32
        requires seat { IsSeatOf self.now seat.old }
        requires stripe { stripe < stripes (names self.now) }
        requires next { IsNext seat.old.me.0 stripe _entry }
        requires held { (log : List Entry)
            × HoldsGrown (names self.now) seat.old.me stripe log _entry }
        ensures seat { IsSeatOf self.now seat.new }
        ensures served { (log : List Entry) → seat.old.me.0.turn ≡ Holding stripe (length log) log
            → (result ≡ length log) × AreEarlier (length log) stripe seat.old.me.0
            × (seat.new.me ≡ (served_view seat.old.me.0 stripe log _entry, [])) }
    {
        let place = 2 + 2 * stripe as usize;
        self.table.shared.fetch_add::<Serve>(seat, place, 1) as u32
    }

    /// A seat for another caller, to whom nothing is left.
    pub fn split(&self, seat: &mut LockSeat) -> LockSeat
        requires seat { IsSeatOf self.now seat.old }
        requires idle { seat.old.me.0.turn ≡ Idle }
        ensures seat { IsSeatOf self.now seat.new }
        ensures kept { seat.new.me ≡ seat.old.me }
        ensures other { IsSeatOf self.now result }
        ensures blank { result.me ≡ (blank_view seat.old.me.0, []) }
    {
        self.table.shared.split_seat::<Blank>(seat)
    }

    /// The first ask that is left to one caller is left to another from now on.
    pub fn deal_ask(&self, giver: &mut LockSeat, taker: &mut LockSeat)
        requires giver { IsSeatOf self.now giver.old }
        requires taker { IsSeatOf self.now taker.old }
        requires idle { (giver.old.me.0.turn ≡ Idle) × (taker.old.me.0.turn ≡ Idle) }
        ensures giver { IsSeatOf self.now giver.new }
        ensures taker { IsSeatOf self.now taker.new }
        ensures left { giver.new.me ≡ (without_ask giver.old.me.0, giver.old.me.1) }
        ensures dealt { taker.new.me
            ≡ (joined_view taker.old.me.0 (with_ask giver.old.me.0), taker.old.me.1) }
    {
        let part = self.table.shared.split_seat::<DealAsk>(giver);
        self.table.shared.join_seat::<Both>(taker, part);
    }

    /// The first stripe that is left to one caller is left to another from now on.
    pub fn deal_mend(&self, giver: &mut LockSeat, taker: &mut LockSeat)
        requires giver { IsSeatOf self.now giver.old }
        requires taker { IsSeatOf self.now taker.old }
        requires idle { (giver.old.me.0.turn ≡ Idle) × (taker.old.me.0.turn ≡ Idle) }
        ensures giver { IsSeatOf self.now giver.new }
        ensures taker { IsSeatOf self.now taker.new }
        ensures left { giver.new.me ≡ (without_mend giver.old.me.0, giver.old.me.1) }
        ensures dealt { taker.new.me
            ≡ (joined_view taker.old.me.0 (with_mend giver.old.me.0), taker.old.me.1) }
    {
        let part = self.table.shared.split_seat::<DealMend>(giver);
        self.table.shared.join_seat::<Both>(taker, part);
    }

    /// The first caller takes in what the second knows, and the calls that are left to it.
    pub fn join(&self, seat: &mut LockSeat, other: LockSeat)
        requires seat { IsSeatOf self.now seat.old }
        requires other { IsSeatOf self.now other }
        requires idle { (seat.old.me.0.turn ≡ Idle) × (other.me.0.turn ≡ Idle) }
        requires bare { other.me.1 ≡ [] }
        ensures seat { IsSeatOf self.now seat.new }
        ensures joined { seat.new.me ≡ (joined_view seat.old.me.0 other.me.0, seat.old.me.1) }
    {
        self.table.shared.join_seat::<Both>(seat, other);
    }

    /// Takes the stripes out, with a seat that made each call that there is.
    pub fn close(self, seat: LockSeat) -> Vec<KeptStripe>
        requires seat { IsSeatOf self seat }
        requires all { HasAll (names self) seat.me.0 }
        ensures count { length result.items ≡ stripes (names self) }
        ensures closed { (t : ℕ) (d : KeptStripe) → t < stripes (names self)
            → IsClosed (names self) (λ h. made_of h t seat.me.0.made) t
            (slice_index_or result.items t d) }
    {
        let Locks { table, spare } = self;
        take_all(table.close_with(seat), spare)
    }
}

/// The values of the slots, in order.
fn take_all(
    mut closed: atomic_table::Closed<KeptStripe, Global>,
    mut stripes: Vec<KeptStripe>,
) -> Vec<KeptStripe>
    requires full { IsFull closed.slots × IsFull closed.words }
    requires none { stripes.items ≡ [] }
    requires room { slots_len closed.slots ≤ vec_capacity stripes }
    ensures { result.items ≡ slots_items closed.slots }
{
    let count = closed.slot_count();
    for slot in 0..count {
        stripes.push_reserved(closed.take(slot));
    }
    closed.free();
    stripes
}

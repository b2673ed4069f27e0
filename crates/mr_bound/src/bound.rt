ghost use Rattle.std.specs.Prelude.{◌≡◌, ℕ, ◌+◌, ◌<◌, ◌≤◌, [], min, length, IfOk, IfSome, IfNone};
ghost use Rattle.mr_counts.specs.Numbers.{AreEachBelow, next_above};
ghost use Rattle.mr_counts.specs.Shares.{whole_share};
ghost use Rattle.mr_bound.specs.Cost.{least_cost};

use crate::rule::{BoundRule, Cut, Draw, Lower, Read, Review, Terms, Union};
use crate::view::BoundView;
use atomic_table::{Seat, Table};
use mr_bits::NoMemory;
use mr_eq::Problem;
use std::alloc::Global;
use std::snapshot::Snapshot;

/// The word that is the least cost known.
const COST: usize = 0;

/// The word that is the number of draws.
const DRAWN: usize = 1;

/// The bound of one layer of a search: the least cost known of a set from which all targets can be
/// read, and how many of the layer's chunks were drawn. A chunk is one mask of the layer.
///
/// It is shared by `&`. Each thread steps with a seat of its own; no step takes memory, and none
/// waits for another.
#[derive(Drop)]
pub struct Bound {
    table: Table<(), BoundView, Terms, BoundRule, Global>,
    chunks: u32,
    ghost words: { table.shared.table_id.words ≡ 2 },
    ghost terms: { chunks ≡ table.shared.key.chunks },
}

/// A seat of a bound, with which one thread steps. It has no bytes. Contracts see by `seat_view`
/// what it knows: a `BoundView`.
#[derive(Drop)]
pub struct BoundSeat {
    seat: Seat<(), BoundView>,
    ghost bare: { seat.me.1 ≡ [] },
    ghost live: { 0 < seat.me.0.parts },
}

impl Bound {
    ghost use Rattle.mr_bound.specs.Rule.{first_view, with_low, with_draw, kept_view, split_view, joined_view};
    ghost use Rattle.mr_bound.specs.Seats.{seat_view, problem_of, chunks_of, IsSeatOf};

    /// The bound of a layer of so many chunks, and its first seat, from which 4,095 others can be
    /// split off. `start` is a cost that is known: the least cost of the problem or more.
    pub fn new(
        alloc: Global,
        problem: &Problem,
        start: u64,
        chunks: u32,
    ) -> Result<(Bound, BoundSeat), NoMemory>
        requires { least_cost problem.now ≤ start }
        ensures problem { IfOk result (λ made. problem_of made.0 ≡ problem.now) }
        ensures chunks { IfOk result (λ made. chunks_of made.0 ≡ chunks) }
        ensures seat { IfOk result (λ made. IsSeatOf made.0 made.1) }
        ensures view { IfOk result (λ made.
            seat_view made.1 ≡ first_view problem.now chunks start) }
    {
        let terms = Terms {
            problem: Snapshot::of(problem),
            start,
            chunks,
        };
        let (table, seat) = Table::of_words(alloc, &[start, 0], &terms)?;
        Ok((Bound { table, chunks }, BoundSeat { seat }))
    }

    /// A seat for another thread. It has drawn nothing, and none can be split off from it.
    pub fn split(&self, seat: &mut BoundSeat) -> BoundSeat
        requires seat { IsSeatOf self.now seat.old }
        requires left { 0 < (seat_view seat.old).left }
        ensures seat { IsSeatOf self.now seat.new }
        ensures kept { seat_view seat.new ≡ kept_view (seat_view seat.old) }
        ensures other { IsSeatOf self.now result }
        ensures part { seat_view result ≡ split_view (seat_view seat.old) }
    {
        let seat = self.table.shared.split_seat::<Cut>(&mut seat.seat);
        BoundSeat { seat }
    }

    /// The seat takes in what another knows. Where it then has all parts, its draws are the numbers
    /// below their count, each once.
    pub fn join(&self, seat: &mut BoundSeat, other: BoundSeat)
        requires seat { IsSeatOf self.now seat.old }
        requires other { IsSeatOf self.now other }
        ensures seat { IsSeatOf self.now seat.new }
        ensures joined { seat_view seat.new ≡ joined_view (seat_view seat.old) (seat_view other) }
        ensures whole { let v = seat_view seat.new in v.parts + v.left ≡ whole_share
            → AreEachBelow v.draws (length v.draws) }
    {
        let BoundSeat { seat: other } = other;
        self.table.shared.join_seat::<Union>(&mut seat.seat, other);
        self.table.shared.load::<Review>(&mut seat.seat, COST);
    }

    /// The least cost known: at least the least cost of the problem, and no more than the seat saw
    /// before.
    pub fn read(&self, seat: &mut BoundSeat) -> u64
        requires { IsSeatOf self.now seat.old }
        ensures least { least_cost (problem_of self.now) ≤ result }
        ensures most { result ≤ (seat_view seat.old).low }
        ensures seat { IsSeatOf self.now seat.new }
        ensures view { seat_view seat.new ≡ with_low (seat_view seat.old) result }
    {
        self.table.shared.load::<Read>(&mut seat.seat, COST)
    }

    /// Makes a cost known, which is the least cost of the problem or more, and answers the least
    /// that was known before.
    pub fn lower(&self, seat: &mut BoundSeat, cost: u64) -> u64
        requires seat { IsSeatOf self.now seat.old }
        requires cost { least_cost (problem_of self.now) ≤ cost }
        ensures least { least_cost (problem_of self.now) ≤ result }
        ensures most { result ≤ (seat_view seat.old).low }
        ensures seat { IsSeatOf self.now seat.new }
        ensures view { seat_view seat.new ≡ with_low (seat_view seat.old) (min result cost) }
    {
        self.table
            .shared
            .fetch_min::<Lower>(&mut seat.seat, COST, cost)
    }

    /// A chunk that no seat drew before, or `None` where all are drawn. A seat that was answered
    /// `None` does not draw again. Each number drawn is above all that the seat drew before.
    pub fn draw(&self, seat: &mut BoundSeat) -> Option<u32>
        requires seat { IsSeatOf self.now seat.old }
        requires open { next_above (seat_view seat.old).draws ≤ chunks_of self.now }
        ensures seat { IsSeatOf self.now seat.new }
        ensures some { let v = seat_view seat.old in
            IfSome result (λ n. (n < chunks_of self.now) × (next_above v.draws ≤ n)
            × (seat_view seat.new ≡ with_draw v n)) }
        ensures none { let v = seat_view seat.old in
            IfNone result ((n : ℕ) × (chunks_of self.now ≤ n) × (next_above v.draws ≤ n)
            × (seat_view seat.new ≡ with_draw v n)) }
    {
        let drawn = self
            .table
            .shared
            .fetch_add::<Draw>(&mut seat.seat, DRAWN, 1);
        if drawn < u64::from(self.chunks) {
            Some(drawn as u32)
        } else {
            None
        }
    }
}

//! The rule of the table of a bound, and what each kind of step tells its seat.
ghost use Rattle.std.specs.Prelude.{◌≡◌, ◌+◌, ◌≤◌, min, length};
ghost use Rattle.mr_counts.specs.Numbers.{AreEachBelow, next_above};
ghost use Rattle.mr_counts.specs.Shares.{whole_share};
ghost use Rattle.mr_bound.specs.Cost.{least_cost};
ghost use Rattle.mr_bound.specs.Rule.{Kept, first_view, with_low, with_draw, kept_view, split_view, joined_view, spent_view};

use crate::view::BoundView;
use atomic_table::{Join, Play, Split, TableRule};
use mr_eq::Problem;
use std::snapshot::Snapshot;

/// What a bound is made with.
#[derive(Drop)]
pub struct Terms {
    /// The problem, for contracts alone.
    pub problem: Snapshot<Problem>,
    /// The least cost known at the start.
    pub start: u64,
    /// How many chunks there are.
    pub chunks: u32,
}

/// The rule that each step keeps.
pub struct BoundRule;

impl TableRule<(), BoundView, Terms> for BoundRule {
    ghost holds = { λ t. Kept t.problem.value t.chunks };

    ghost first = { λ t. first_view t.problem.value t.chunks t.start };
}

/// A load of the least cost known. It is at least the least cost of the problem, and at most what
/// the seat saw before.
pub struct Read;

impl Play<(), BoundView> for Read {
    ghost then = { λ _ me n after. (least_cost me.0.problem ≤ n) × (n ≤ me.0.low)
        × (after ≡ (with_low me.0 n, me.1)) };
}

/// A fetch_min of the least cost known. It finds what a load would find.
pub struct Lower;

impl Play<(), BoundView> for Lower {
    ghost then = { λ at me n after. (least_cost me.0.problem ≤ n) × (n ≤ me.0.low)
        × (after ≡ (with_low me.0 (min n at.first), me.1)) };
}

/// A fetch_add of the number of draws. What it finds is above all that the seat drew before.
pub struct Draw;

impl Play<(), BoundView> for Draw {
    ghost then = { λ _ me n after. (next_above me.0.draws ≤ n)
        × (after ≡ (with_draw me.0 n, me.1)) };
}

/// A load after a join. A seat that has all parts drew each number below the number of its draws
/// once.
pub struct Review;

impl Play<(), BoundView> for Review {
    ghost then = { λ _ me _ after. (after ≡ me) × (me.0.parts + me.0.left ≡ whole_share
        → AreEachBelow me.0.draws (length me.0.draws)) };
}

/// A split of a seat.
pub struct Cut;

impl Split<BoundView> for Cut {
    ghost left = { kept_view };

    ghost right = { split_view };
}

/// A join of two seats.
pub struct Union;

impl Join<BoundView> for Union {
    ghost both = { joined_view };

    ghost spent = { spent_view };
}

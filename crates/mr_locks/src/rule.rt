//! The rule of the locks, and what each kind of step tells its caller.

ghost use Rattle.mr_history.specs.Histories.{names_of};
ghost use Rattle.mr_locks.specs.Rule.{Locked, Looked, Served, Ticketed, blank_view, first_view, joined_view, spent_view, with_ask, with_mend, without_ask, without_mend};

use crate::view::LockView;
use atomic_table::{Join, Play, Split, TableRule};
use mr_history::{KeptStripe, Terms};

/// The rule that each step keeps.
pub struct LockRule;

impl TableRule<KeptStripe, LockView, Terms> for LockRule {
    ghost holds = { λ terms. Locked (names_of terms) };

    ghost first = { λ terms. first_view (names_of terms) };
}

/// A fetch_add of the tickets of a stripe.
pub struct Ticket;

impl Play<KeptStripe, LockView> for Ticket {
    ghost then = { Ticketed };
}

/// A load of how many tickets of a stripe were served.
pub struct Look;

impl Play<KeptStripe, LockView> for Look {
    ghost then = { Looked };
}

/// A fetch_add of how many tickets of a stripe were served.
pub struct Serve;

impl Play<KeptStripe, LockView> for Serve {
    ghost then = { Served };
}

/// A split that hands nothing over.
pub struct Blank;

impl Split<LockView> for Blank {
    ghost left = { λ v. v };

    ghost right = { blank_view };
}

/// A split that hands the first ask over.
pub struct DealAsk;

impl Split<LockView> for DealAsk {
    ghost left = { without_ask };

    ghost right = { with_ask };
}

/// A split that hands the first stripe over.
pub struct DealMend;

impl Split<LockView> for DealMend {
    ghost left = { without_mend };

    ghost right = { with_mend };
}

/// A join of two idle callers.
pub struct Both;

impl Join<LockView> for Both {
    ghost both = { joined_view };

    ghost spent = { spent_view };
}

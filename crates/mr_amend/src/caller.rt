//! A caller, and what its calls answer.

ghost use Rattle.std.specs.Prelude.{◌≡◌, []};
ghost use Rattle.mr_locks.specs.Calls.{Idle};

use mr_locks::LockSeat;
use std::collections::VecDeque;

/// Who makes some of the asks, and mends some of the stripes.
#[derive(Drop)]
pub struct Caller {
    pub(crate) seat: LockSeat,
    /// The numbers of the asks that are left to it, in the order in which it makes them.
    pub(crate) asks: VecDeque<u32>,
    /// The stripes that are left to it, in the order in which it mends them.
    pub(crate) mends: VecDeque<u32>,
    ghost bare: { seat.me.1 ≡ [] },
    ghost idle: { seat.me.0.turn ≡ Idle },
    ghost asks_left: { seat.me.0.asks ≡ asks.items },
    ghost mends_left: { seat.me.0.mends ≡ mends.items },
}

impl Caller {
    ghost use Rattle.std.specs.Prelude.{length};
    ghost use Rattle.mr_amend.specs.Callers.{view};

    /// The numbers of the asks that are left to it, in order.
    pub fn asks(&self) -> &VecDeque<u32>
        ensures { result.now.items ≡ (view self.now).asks }
    {
        &self.asks
    }
}

/// A call that was made.
#[derive(Clone, Copy, PartialEq, Eq, Debug)]
pub struct Done {
    /// The number of the ask, or the stripe that was mended.
    pub number: u32,
    /// The place of the call in the history of its stripe.
    pub place: u32,
}

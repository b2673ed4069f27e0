//! What a caller knows.

ghost use Rattle.std.specs.Prelude.{ℕ, List};
ghost use Rattle.std.specs.Borrow.{ftrue};
ghost use Rattle.mr_history.specs.Histories.{Names};
ghost use Rattle.mr_locks.specs.Calls.{Made, Turn};

use std::marker::Model;

/// What a caller knows. It is there for contracts alone: no value of it is made.
pub struct LockView {
    /// What the locks were made for.
    pub ghost names: { Names },
    /// Whether the caller waits for a stripe or holds one.
    pub ghost turn: { Turn },
    /// The calls that it made, and those of the callers that it joined, in order.
    pub ghost made: { List Made },
    /// The numbers of the asks that are left to it.
    pub ghost asks: { List ℕ },
    /// The stripes that are left to it to mend.
    pub ghost mends: { List ℕ },
}

impl Model for LockView {
    ghost also_owns = { λ _. ftrue };
}

ghost use Rattle.std.specs.Prelude.{ℕ, List};
ghost use Rattle.std.specs.Borrow.{ftrue};
ghost use Rattle.mr_eq.specs.Problems.{Loss};

use std::marker::Model;

/// What a seat knows. It is there for contracts alone: no value of it is made.
pub struct BoundView {
    /// The problem of the bound.
    pub ghost problem: { Loss },
    /// How many chunks the bound has.
    pub ghost chunks: { ℕ },
    /// The numbers that the seat drew, and those of the seats that it joined, in order.
    pub ghost draws: { List ℕ },
    /// The least cost known was this when the seat last looked.
    pub ghost low: { ℕ },
    /// How many seats can be split off yet.
    pub ghost left: { ℕ },
    /// One for the seat itself, and one for each seat that it joined.
    pub ghost parts: { ℕ },
}

impl Model for BoundView {
    ghost also_owns = { λ _. ftrue };
}

ghost use Rattle.std.specs.Prelude.{ℕ, List, Option};
ghost use Rattle.std.specs.Borrow.{ftrue};
ghost use Rattle.mr_board.specs.Terms.{BoardTerms};

use std::marker::Model;

/// What a pass knows. It is there for contracts alone: no value of it is made.
pub struct PassView {
    /// What the board is made for.
    pub ghost terms: { BoardTerms },
    /// The numbers that the pass drew, and those of the passes that it joined, in order.
    pub ghost draws: { List ℕ },
    /// The open stripe: the pass drew it, and has neither marked it done nor given it up.
    pub ghost claimed: { Option ℕ },
    /// How many words of the open stripe are stored, from its first on.
    pub ghost filled: { ℕ },
    /// The stripes that it saw done.
    pub ghost seen: { List ℕ },
    /// The stripes that it gave up. They are never done.
    pub ghost gave: { List ℕ },
    /// How many states it loaded.
    pub ghost loads: { ℕ },
    /// The stripe whose state it loaded last, and that state.
    pub ghost met: { ℕ × ℕ },
    /// How many passes can be split off yet.
    pub ghost left: { ℕ },
    /// One for the pass itself, and one for each pass that it joined.
    pub ghost parts: { ℕ },
}

impl Model for PassView {
    ghost also_owns = { λ _. ftrue };
}

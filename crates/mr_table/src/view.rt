ghost use Rattle.std.specs.Prelude.{ℕ, List};
ghost use Rattle.std.specs.Borrow.{ftrue};

use std::marker::Model;

/// What a pass knows. It is there for contracts alone: no value of it is made.
pub struct JobView {
    /// So many jobs were pushed.
    pub ghost pushed: { ℕ },
    /// The jobs that the pass took, and those of the passes that it joined, in order.
    pub ghost taken: { List ℕ },
    /// How many passes can be split off yet.
    pub ghost left: { ℕ },
    /// One for the pass itself, and one for each pass that it joined.
    pub ghost parts: { ℕ },
}

impl Model for JobView {
    ghost also_owns = { λ _. ftrue };
}

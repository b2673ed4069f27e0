//! What is kept of an account in memory.

ghost use Rattle.std.specs.Prelude.{◌≡◌};

use crate::slots::Slot;
use mr_history::KeptStripe;

/// What the callers gave together. Contracts see the account of it by `account_of`.
#[derive(Drop)]
pub struct Ending {
    /// The stripes in the end, upwards.
    pub stripes: Vec<KeptStripe>,
    /// For each caller the slots of its asks, upwards. The asks are dealt out by turns: ask `k` is at `k / count` of the
    /// caller `k % count`, where there are `count` callers.
    pub slots: Vec<Vec<Slot>>,
}

impl Ending {
    ghost use Rattle.mr_account.specs.Endings.{HasSlot, slots_in, told, told_of};

    /// The slot of the ask of this number.
    pub fn slot(&self, number: usize) -> &Slot
        requires { HasSlot (slots_in self.now) number }
        ensures { told result.now ≡ told_of (slots_in self.now) number }
    {
        let callers = self.slots.len();
        &self.slots[number % callers][number / callers]
    }
}

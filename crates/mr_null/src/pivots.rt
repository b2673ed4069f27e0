ghost use Rattle.std.specs.Prelude.{◌≡◌, ◌^◌, ◌<◌, fold};
ghost use Rattle.mr_null.specs.Elimination.{step};

use mr_bits::Mask;

/// A sum of rows, and the set of the symbols whose rows were added up.
#[derive(Clone, Copy, Default)]
pub(crate) struct Combined {
    pub(crate) sum: Mask,
    pub(crate) members: Mask,
}

/// A sum of rows that is used to clear one of its columns from other sums.
#[derive(Clone, Copy, Default)]
pub(crate) struct Pivot {
    pub(crate) column: u8,
    pub(crate) combined: Combined,
}

impl Pivot {
    #[tactic(auto, unfolding(crate::specs::Elimination::step))]
    /// The sum without this pivot's column: where it has it, this pivot is added.
    pub(crate) fn step(&self, so_far: Combined) -> Combined
        ensures { result ≡ step so_far self.now }
    {
        if so_far.sum.contains(self.column) {
            Combined {
                sum: so_far.sum.xor(self.combined.sum),
                members: so_far.members.xor(self.combined.members),
            }
        } else {
            so_far
        }
    }
}

/// What all pivots, in order, leave of a sum.
pub(crate) fn reduced(pivots: &[Pivot], combined: Combined) -> Combined
    ensures { result ≡ fold step combined pivots.now }
{
    pivots
        .iter()
        .fold(combined, |so_far, pivot| pivot.step(so_far))
}

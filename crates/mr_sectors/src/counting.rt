//! How many patterns there are, and how many symbols fail.

ghost use Rattle.std.specs.Prelude.{◌≡◌, IfOk};
ghost use Rattle.mr_patch.specs.Damages.{IsDamage, parts_of};
ghost use Rattle.mr_sectors.specs.Counts.{mended_of, patterns_of};

use mr_bits::NoMemory;
use mr_patch::{Damage, pattern_of};
use mr_sector::next_pattern;
use std::alloc::Global;
use std::collections::HashSet;

/// What a damage comes to in all stripes.
#[derive(Clone, Copy, Debug, PartialEq, Eq)]
pub struct Counts {
    /// How many patterns there are, without the empty one.
    pub patterns: usize,
    /// How many symbols fail, counted in each stripe.
    pub mended: u64,
}

/// How many patterns the stripes have, each counted once, and how many symbols fail in them. It goes through the sectors
/// once. Stripes in which nothing fails have no pattern here.
pub fn counts_of(alloc: Global, damage: &Damage) -> Result<Counts, NoMemory>
    requires { IsDamage (parts_of damage.now) }
    ensures patterns { IfOk result
        (λ counts. counts.patterns ≡ patterns_of (parts_of damage.now)) }
    ensures mended { IfOk result (λ counts. counts.mended ≡ mended_of (parts_of damage.now)) }
{
    let mut seen = HashSet::new(alloc);
    let mut mended = 0;
    let mut left = damage.sectors;
    for stripe in 0..damage.head.stripes() {
        let (failed, later) = next_pattern(damage.lost, left, stripe);
        left = later;
        if failed.is_empty() {
            continue;
        }
        seen.insert(pattern_of(damage, stripe, failed))?;
        mended += u64::from(failed.count());
    }
    Ok(Counts {
        patterns: seen.len(),
        mended,
    })
}

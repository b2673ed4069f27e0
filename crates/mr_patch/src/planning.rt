//! The plan of a stripe's pattern, out of the cache.

ghost use Rattle.std.specs.Prelude.{◌≡◌, ◌^◌, ◌<◌, length, IsErrOf, IsOk, OnOk};
ghost use Rattle.mr_cache.specs.Cache.{HasInFront, IsSameCache, budget_of, code_of};
ghost use Rattle.mr_cache.specs.Planning.{plan_of_pattern};
ghost use Rattle.mr_patch.specs.Damages.{failed_at, parts_of, pattern_at};

use crate::damage::{Damage, Patching};
use mr_bits::Mask;
use mr_cache::{Pattern, PlanCache, PlanError, Served};
use mr_io::{FilesError, Gate, Point};

/// The pattern of a stripe with these symbols that fail.
pub fn pattern_of(damage: &Damage, stripe: u32, failed: Mask) -> Pattern
    requires { failed ≡ failed_at (parts_of damage.now) stripe }
    ensures { result ≡ pattern_at (parts_of damage.now) stripe }
{
    let rotation = if damage.head.version() == 2 {
        stripe % damage.head.n()
    } else {
        0
    };
    Pattern {
        rotation,
        lost: failed.number(),
    }
}

/// Sees to it that the plan of a pattern that is determined stands in front of the cache. Where it is made, the gate is
/// passed at `Planned` with the stripe. It answers `Memory` where there is none for the plan.
pub(crate) fn find_plan<G: Gate>(
    cache: &mut PlanCache,
    patching: &Patching<'_, G>,
    stripe: u32,
    pattern: Pattern,
) -> Result<(), FilesError>
    requires rotation { pattern.rotation < (code_of cache.old).devices }
    requires lost { pattern.lost < 2 ^ length (code_of cache.old).rows }
    requires planned { IsOk (plan_of_pattern (code_of cache.old) (budget_of cache.old) pattern) }
    ensures front { OnOk result (HasInFront cache.new pattern) }
    ensures same { IsSameCache cache.old cache.new }
    ensures memory { IsErrOf result FilesError.Failed → ⊥ }
{
    match cache.get(patching.alloc, pattern) {
        Ok(Served::Kept) => Ok(()),
        Ok(Served::Made) => {
            patching.gate.pass(Point::Planned { stripe });
            Ok(())
        }
        Err(PlanError::Memory) => Err(FilesError::Memory),
        Err(PlanError::Undetermined { .. }) => unreachable!(),
    }
}

//! The survey of all stripes.

ghost use Rattle.std.specs.Prelude.{◌≡◌, None, Some, IfErr, OnOk};
ghost use Rattle.mr_patch.specs.Damages.{IsDamage, IsDetermined, parts_of};
ghost use Rattle.mr_survey.specs.Surveys.{IsFirstUndetermined, first_undetermined};

use crate::errors::UndeterminedIn;
use crate::known::look_once;
use mr_bits::MOST_SYMBOLS;
use mr_patch::{Damage, pattern_of};
use mr_sector::next_pattern;

/// Sees whether in each stripe the symbols that can be read determine those that fail.
///
/// It answers `UndeterminedIn` exactly where a stripe is not determined, and names the first such stripe with the least of
/// its symbols that fail and have no equation among the others. It goes through the sectors once, reads no image and
/// takes no memory; a pattern that its rotation had the last time is not looked at again.
pub fn survey(damage: &Damage) -> Result<(), UndeterminedIn>
    requires { IsDamage (parts_of damage.now) }
    ensures determined { OnOk result (IsDetermined (parts_of damage.now)) }
    ensures undetermined { IfErr result (IsFirstUndetermined (parts_of damage.now)) }

    // The same by the definition: it finds none, or that stripe.
    ensures none { OnOk result (first_undetermined (parts_of damage.now) ≡ None) }
    ensures found { IfErr result (λ at. first_undetermined (parts_of damage.now) ≡ Some at) }
{
    let _within_the_limits = damage.matrix.shape();
    let mut known = [0; MOST_SYMBOLS];
    let mut left = damage.sectors;
    for stripe in 0..damage.head.stripes() {
        let (failed, later) = next_pattern(damage.lost, left, stripe);
        left = later;
        let pattern = pattern_of(damage, stripe, failed);
        look_once(damage.matrix, stripe, pattern, &mut known)?;
    }
    Ok(())
}

//! Laws of patched files, each as the contract of a function that does nothing else.

ghost use Rattle.mr_patch.specs.Damages.{IsDamage, parts_of};
ghost use Rattle.mr_patch.specs.Laws.{GivesCodeFiles};

use crate::damage::Damage;

/// Where all symbols that do not fail come from data and determine those that fail, the patched file is that of the
/// codewords of the data, whatever the budget.
pub fn patched_files_are_of_codewords(damage: &Damage)
    requires { IsDamage (parts_of damage.now) }
    ensures { GivesCodeFiles (parts_of damage.now) }
{
    let _within_the_limits = damage.head.bytes();
    let _code = damage.matrix.shape();
}

//! What is proved of repairs. A call does nothing: its contract is the law.

ghost use Rattle.mr_patch.specs.Damages.{IsDamage, parts_of};
ghost use Rattle.mr_sectors.specs.Laws.{WritesCodewords};

use mr_patch::Damage;

/// Where all symbols that do not fail come from data and determine those that fail, the image that is written is that of
/// the codewords of the data, whatever the budget.
pub fn repairs_write_codewords(damage: &Damage)
    requires { IsDamage (parts_of damage.now) }
    ensures { WritesCodewords (parts_of damage.now) }
{
    let _within_the_limits = damage.head.bytes();
    let _code = damage.matrix.shape();
}

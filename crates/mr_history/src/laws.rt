//! A law of histories, as the contract of a function that does nothing else.

ghost use Rattle.mr_history.specs.Histories.{ChangesByWrites, names_of};

use crate::terms::Terms;

/// Whatever the history of a stripe, writes alone change what it makes of the stripe: a mend undoes no write that was made
/// before it.
pub fn writes_alone_change_a_stripe(terms: &Terms)
    ensures { ChangesByWrites (names_of terms.now) }
{
    let _asks = terms.ops.len();
}

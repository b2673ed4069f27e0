//! A law of accounts, as the contract of a function that does nothing else.

ghost use Rattle.std.specs.Prelude.{ℕ};
ghost use Rattle.mr_account.specs.Accounts.{Account, IsAmended, StandsInOrder};
ghost use Rattle.mr_history.specs.Histories.{names_of};

use mr_history::Terms;

/// Whatever so many callers gave: two asks of one caller stand in the history of a stripe in the order of their numbers,
/// and the history of a stripe that no ask names is one mend.
pub fn callers_keep_their_order(terms: &Terms)
    ensures { (callers : ℕ) (account : Account) → IsAmended (names_of terms.now) callers account
        → StandsInOrder (names_of terms.now) callers account }
{
    let _asks = terms.ops.len();
}

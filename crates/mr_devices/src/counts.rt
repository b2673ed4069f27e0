//! Counts that stop at 2^64 - 1.

ghost use Rattle.std.specs.Prelude.{◌≡◌};
ghost use Rattle.mr_io.specs.Counts.{counted};

/// The count after one more: it stops at 2^64 - 1.
pub(crate) fn one_more(before: u64) -> u64
    ensures { result ≡ counted before 1 }
{
    before.saturating_add(1)
}

//! Counts that stop at the last number of 64 bits.

ghost use Rattle.std.specs.Prelude.{◌≡◌};
ghost use Rattle.mr_io.specs.Counts.{counted};

/// The count after `more`: it stops at 2^64 - 1.
pub(crate) fn add_count(before: u64, more: u64) -> u64
    ensures { result ≡ counted before more }
{
    before.saturating_add(more)
}

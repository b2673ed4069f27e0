//! A test.

use crate::kept::KeptStripe;
use std::test::Fail;

/// A stripe as it was read has its bytes and no history.
#[test]
fn fresh_stripe(rt: HostRuntime) -> Result<(), Fail> {
    let bytes = Vec::from_slice(rt.alloc(), &[1, 2, 4, 8, 16, 32, 64, 128])?;
    let kept = KeptStripe::of(rt.alloc(), bytes, 3)?;
    assert!(&rt; kept.history().is_empty());
    assert!(&rt; !kept.whole);
    assert!(&rt; kept.bytes.as_slice() == [1, 2, 4, 8, 16, 32, 64, 128].as_slice());
    Ok(())
}

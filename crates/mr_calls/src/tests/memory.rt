//! Calls that want for memory: by `rt try --test --fail-alloc N` the allocation of number N is refused. With enough
//! memory each answers as the tables of the other tests say.

use crate::tests::values::{matrix_of, problem_of};
use mr_bits::Mask;
use mr_fixture::RDP_3;
use mr_front::Frontier;
use std::test::Fail;

/// After want of memory the frontier is as it was: the empty mask waits and no other.
#[test]
fn frontier(rt: HostRuntime) -> Result<(), Fail> {
    let problem = problem_of(&rt, &matrix_of(&rt, RDP_3), Mask::of(3));
    // (what the test takes may be refused as well)
    let Ok(mut frontier) = Frontier::new(rt.alloc(), &problem) else {
        return Ok(());
    };
    let masks = [Mask::of(20), Mask::of(96)];
    let is_added = frontier.add(1, &masks).is_ok();
    let first = frontier.take_layer().expect(&rt, "a layer waits");
    assert_eq!(&rt; (first.cost, first.level, first.masks.len()), (0, 0, 1));
    assert_eq!(&rt; first.masks.get(0), Mask::EMPTY);
    let second = frontier.take_layer();
    assert_eq!(&rt; second.is_some(), is_added);
    if let Some(layer) = second {
        assert_eq!(&rt; (layer.cost, layer.level, layer.masks.len()), (2, 1, 2));
    }
    Ok(())
}

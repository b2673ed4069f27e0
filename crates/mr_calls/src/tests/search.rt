//! The calls of the search, each with ample memory: their answers for row-diagonal parity of the prime 3. A set of symbols
//! is the number whose bit i tells of symbol i.

use crate::tests::values::{assert_masks, matrix_of, problem_of, survivors};
use mr_bits::Mask;
use mr_eq::{Equations, Found};
use mr_fixture::RDP_3;
use mr_front::{Frontier, expand, search_one};
use mr_null::{Basis, NullsError};
use std::alloc::Global;
use std::process::Abort;
use std::test::Fail;

/// The sets of sum zero of the survivors of device 0: the empty one, 2 4 5 6, 2 3 5 7 and 3 4 6 7. There are more than 3.
#[test]
fn nulls(rt: HostRuntime) -> Result<(), Fail> {
    let matrix = matrix_of(&rt, RDP_3);
    let basis = Basis::of(&matrix, survivors(&rt, &matrix, Mask::of(3)));
    let nulls = basis.nulls(rt.alloc(), 4)?;
    let mut list = Vec::new(rt.alloc());
    for index in 0..nulls.len() {
        list.push(nulls.get(index))?;
    }
    assert_masks(&rt, &list, &[0, 116, 172, 216]);
    match basis.nulls(rt.alloc(), 3) {
        Ok(_) => assert!(&rt; false, "a list of at most 3"),
        Err(error) => assert_eq!(&rt; error, NullsError::TooMany { d: 2 }),
    }
    Ok(())
}

/// The equations of the symbols of device 0 in the order of their indexes, and behind them the least one, as one thread
/// and as threads find it: there are two of two members for each symbol, and the lesser number is the first.
static EQUATIONS: [[u128; 6]; 2] = [[20, 96, 184, 204, 20, 20], [40, 92, 132, 240, 40, 40]];

#[test]
fn equations(rt: HostRuntime) -> Result<(), Fail> {
    let problem = problem_of(&rt, &matrix_of(&rt, RDP_3), Mask::of(3));
    let equations = Equations::of(rt.alloc(), &problem, 4)?;
    for level in 0..2u8 {
        assert!(&rt; level < problem.levels());
        let mut list = Vec::new(rt.alloc());
        for index in 0..equations.width() {
            list.push(equations.get(level, index))?;
        }
        list.push(equations.least(level))?;
        list.push(equations.least_split(&rt, rt.alloc(), level)?)?;
        assert_masks(&rt, &list, &EQUATIONS[usize::from(level)]);
    }
    match Equations::of(rt.alloc(), &problem, 3) {
        Ok(_) => assert!(&rt; false, "at most 3 equations"),
        Err(error) => assert_eq!(&rt; error, NullsError::TooMany { d: 2 }),
    }
    Ok(())
}

/// A layer: its cost and level, its masks, and their children of cost 4 at most.
type Row = ((u32, u8), &'static [u128], &'static [u128]);

/// The layers for device 0.
static FIRST_DEVICE: [Row; 5] = [
    ((0, 0), &[0], &[20, 96, 184, 204]),
    ((2, 1), &[20, 96], &[60, 92, 148, 104, 228, 240]),
    ((3, 2), &[104, 148], &[]),
    ((4, 1), &[184, 204], &[184, 204]),
    ((4, 2), &[60, 92, 184, 204, 228, 240], &[]),
];

/// The layers for device 3, whose least sets cost as much as the plain one: those before the last have 1, 1, 2 and 1 masks.
static LAST_DEVICE: [Row; 5] = [
    ((0, 0), &[0], &[11, 30, 33, 52]),
    ((2, 1), &[33], &[39, 51, 45, 57]),
    ((3, 1), &[11, 52], &[15, 27, 54, 60]),
    ((4, 1), &[30], &[30]),
    ((4, 2), &[15, 27, 30, 39, 45, 51, 54, 57, 60], &[]),
];

/// Asserts the layers from the first to the last of the problem of a loss.
fn assert_layers(rt: &impl Abort, alloc: Global, lost: Mask, rows: &[Row]) -> Result<(), Fail> {
    let problem = problem_of(rt, &matrix_of(rt, RDP_3), lost);
    let equations = Equations::of(alloc, &problem, 4)?;
    let mut frontier = Frontier::new(alloc, &problem)?;
    for (place, masks, children) in rows {
        let layer = frontier.take_layer().expect(rt, "a layer waits");
        assert_eq!(rt; (layer.cost, layer.level), *place, "the cost and the level");
        let mut list = Vec::new(alloc);
        for index in 0..layer.masks.len() {
            list.push(layer.masks.get(index))?;
        }
        assert_masks(rt, &list, masks);
        let mut made = Vec::new(alloc);
        if layer.level < problem.levels() {
            expand(&equations, &layer, 0, layer.masks.len(), 4, &mut made)?;
            frontier.add(layer.level + 1, &made)?;
        }
        assert_masks(rt, &made, children);
    }
    assert!(rt; frontier.take_layer().is_none(), "a layer waits");
    Ok(())
}

#[test]
fn layers(rt: HostRuntime) -> Result<(), Fail> {
    assert_layers(&rt, rt.alloc(), Mask::of(3), &FIRST_DEVICE)?;
    assert_layers(&rt, rt.alloc(), Mask::of(192), &LAST_DEVICE)
}

/// The budget is met, or is one too little.
#[test]
fn search(rt: HostRuntime) -> Result<(), Fail> {
    let problem = problem_of(&rt, &matrix_of(&rt, RDP_3), Mask::of(3));
    let set = Mask::of(104);
    let found = search_one(rt.alloc(), &problem, 12)?;
    assert_eq!(&rt; found, Found::Least { set, work: 12 });
    let set = Mask::of(60);
    let found = search_one(rt.alloc(), &problem, 11)?;
    assert_eq!(&rt; found, Found::Spent { set });
    Ok(())
}

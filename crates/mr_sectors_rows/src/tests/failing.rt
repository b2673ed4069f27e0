//! Calls of the outside that fail, and a list that is too long.

use crate::tests::rows::ONE;
use mr_runs::{
    Case, Cut, Trial, Unread, check_trial, check_unread, check_unreported, check_unwritten,
};
use std::test::Fail;

/// The repair of one stripe, as a static: a constant would be written out where it is lent.
static ONE_STRIPE: Case = ONE;

/// Calls of the eyes of the matrix, of the head, of the list, of the sets and of the rest that fail, and the bytes that
/// are taken before them.
static READS: [Unread; 9] = [
    (&[(1, 0)], [0; 5]),
    (&[(2, 0)], [55, 0, 0, 0, 0]),
    (&[(2, 2)], [55, 0, 0, 0, 0]),
    (&[(3, 0)], [55, 32, 0, 0, 0]),
    (&[(3, 1)], [55, 32, 0, 0, 0]),
    (&[(3, 2)], [55, 32, 0, 0, 0]),
    (&[(4, 0)], [59, 32, 0, 0, 0]),
    (&[(5, 0)], [59, 32, 0, 0, 0]),
    (&[(4, 1)], [59, 32, 0, 0, 0]),
];

/// The first call for what is copied fails: what fails in the stripe is mended.
static COPIES: [Unread; 1] = [(&[(5, 1)], [59, 32, 32, 0, 0])];

/// Puts of `out` that fail.
static CUTS: [Cut; 2] = [(65_536, &[], &[1], 0), (40, &[], &[], 40)];

/// Puts of the report that fail.
static REPORTS: [Cut; 1] = [(14, &[], &[], 14)];

#[test]
fn failing(rt: HostRuntime) -> Result<(), Fail> {
    check_unread(&rt, rt.alloc(), &ONE_STRIPE, &READS)?;
    check_unread(&rt, rt.alloc(), &ONE_STRIPE, &COPIES)?;
    check_unwritten(&rt, rt.alloc(), &ONE_STRIPE, &CUTS)?;
    Ok(check_unreported(&rt, rt.alloc(), &ONE_STRIPE, &REPORTS)?)
}

/// A list of one byte too many, whose bytes are not read.
#[test]
fn long_list(rt: HostRuntime) -> Result<(), Fail> {
    let list = vec![in rt.alloc(); 0; 1_048_577]?;
    let mut trial = Trial::of(rt.alloc(), &ONE_STRIPE)?;
    trial.files.pop();
    let trial = trial
        .over(rt.alloc(), "b", &list)?
        .ends(rt.alloc(), 3, b"", b"status 3 large sectorbytes 1048577\n")?
        .takes([55, 32, 0, 0, 0]);
    Ok(check_trial(&rt, rt.alloc(), trial)?)
}

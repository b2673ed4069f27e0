//! What `rebuild` refuses before it looks at the image, and files that are not there.

use mr_fixture::RDP_3;
use mr_runs::Bytes::{Image, Text};
use mr_runs::{BARE, Bytes, Case, HEAD, LOST, Trial, check_trial};
use std::test::Fail;

/// The matrix of row-diagonal parity for the prime 3.
const M: Bytes = Text(RDP_3);

/// A plan, in 43 bytes.
const PLAN: Bytes = Text("plan 1 least\nset 2 4 7\n0 = 2 4\n1 = 2 7\nend\n");

/// The matrix, the plan, the words, the status, the line, and the bytes of texts that are read. A matrix that is none, a
/// device that the matrix does not have, and a loss that the survivors do not determine, come before the plan, and the plan
/// before the image. No file `q` is there.
static REFUSED: [(Bytes, Bytes, &str, u8, &str, u64); 15] = [
    (
        Text(""),
        PLAN,
        "rebuild m q 0",
        2,
        "status 2 matrix line 1 missing\n",
        0,
    ),
    (
        Text("matrix 1 1 1 1\n"),
        PLAN,
        "rebuild m q 4",
        2,
        "status 2 matrix line 2 missing\n",
        15,
    ),
    (M, PLAN, "rebuild m q 4", 4, "status 4 device 4\n", 55),
    (
        M,
        PLAN,
        "rebuild m q 4 --plan=q",
        4,
        "status 4 device 4\n",
        55,
    ),
    (
        M,
        PLAN,
        "rebuild m q 0,1,2,7,9",
        4,
        "status 4 device 7\n",
        55,
    ),
    (
        M,
        PLAN,
        "rebuild m q 0,1,2",
        7,
        "status 7 undetermined symbol 0\n",
        55,
    ),
    (
        M,
        PLAN,
        "rebuild m q 0,1,2,3",
        7,
        "status 7 undetermined symbol 0\n",
        55,
    ),
    (
        M,
        PLAN,
        "rebuild m q 0,1,2 --plan=q",
        7,
        "status 7 undetermined symbol 0\n",
        55,
    ),
    (
        M,
        Text("plan 1 least\n"),
        "rebuild m q 0 --plan=p",
        8,
        "status 8 plan line 2\n",
        68,
    ),
    (
        M,
        PLAN,
        "rebuild m q 1 --plan=p",
        8,
        "status 8 plan symbol 2 notsurvivor\n",
        98,
    ),
    (
        M,
        PLAN,
        "rebuild m p 0 --plan=p",
        5,
        "status 5 image head\n",
        98,
    ),
    (M, PLAN, "rebuild q i 0", 9, "status 9 read\n", 0),
    (M, PLAN, "rebuild m q 0", 9, "status 9 read\n", 55),
    (M, PLAN, "rebuild m i 0 --plan=q", 9, "status 9 read\n", 55),
    (M, PLAN, "rebuild m q 0 --plan=p", 9, "status 9 read\n", 98),
];

/// The image file alone.
static BASE: Case = Case {
    files: &[("i", Image(HEAD, LOST))],
    ..BARE
};

#[test]
fn refused(rt: HostRuntime) -> Result<(), Fail> {
    for (matrix, plan, line, status, report, read) in &REFUSED {
        let head = if *status == 5 { 32 } else { 0 };
        let mut trial = Trial::of(rt.alloc(), &BASE)?
            .by(rt.alloc(), line)?
            .over(rt.alloc(), "m", &matrix.listed(rt.alloc())?)?
            .over(rt.alloc(), "p", &plan.listed(rt.alloc())?)?
            .ends(rt.alloc(), *status, b"", report.as_bytes())?
            .takes([*read, head, 0, 0, 0]);
        trial.faults = [u64::from(*status == 9), 0, 0, 0];
        check_trial(&rt, rt.alloc(), trial)?;
    }
    Ok(())
}

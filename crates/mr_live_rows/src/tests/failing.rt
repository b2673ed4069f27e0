//! Calls of eyes that fail while menders and readers are at work.

use crate::tests::rows::THREE;
use mr_io::OpenGate;
use mr_runs::{Case, Given, Trial, run_by};
use std::test::Fail;

/// A rebuild by two menders and two readers.
static LIVE: Case = Case {
    words: &["rebuild", "m", "i", "0", "--live", "--workers=2"],
    ..THREE
};

/// The calls of the eyes of the matrix, of the head, of two menders, of two readers, and of the survivors. Call 0 is that
/// of the files for the eye. Not each of them is made.
static CALLS: [(u64, u64); 49] = [
    (1, 0),
    (1, 1),
    (1, 2),
    (1, 3),
    (1, 4),
    (1, 5),
    (1, 6),
    (2, 0),
    (2, 1),
    (2, 2),
    (2, 3),
    (2, 4),
    (2, 5),
    (2, 6),
    (3, 0),
    (3, 1),
    (3, 2),
    (3, 3),
    (3, 4),
    (3, 5),
    (3, 6),
    (4, 0),
    (4, 1),
    (4, 2),
    (4, 3),
    (4, 4),
    (4, 5),
    (4, 6),
    (5, 0),
    (5, 1),
    (5, 2),
    (5, 3),
    (5, 4),
    (5, 5),
    (5, 6),
    (6, 0),
    (6, 1),
    (6, 2),
    (6, 3),
    (6, 4),
    (6, 5),
    (6, 6),
    (7, 0),
    (7, 1),
    (7, 2),
    (7, 3),
    (7, 4),
    (7, 5),
    (7, 6),
];

/// A call fails, or is never made: the run ends with a failed read and nothing written exactly where a fault was counted.
#[test]
fn calls_that_fail(rt: HostRuntime) -> Result<(), Fail> {
    for call in CALLS.chunks(1) {
        let trial = Trial::of(rt.alloc(), &LIVE)?.failing(call, [0; 4]);
        let given = Given {
            files: trial.files,
            script: trial.script,
            schedule: trial.schedule,
        };
        let ran = run_by(&rt, rt.alloc(), &trial.words, given, &OpenGate)?;
        if ran.faults == [0; 4] {
            assert_eq!(&rt; ran.status, 0);
            assert!(&rt; ran.out == trial.out && ran.report == trial.report);
        } else {
            assert_eq!(&rt; ran.faults, [1, 0, 0, 0]);
            assert_eq!(&rt; ran.status, 9);
            assert!(&rt; ran.out.is_empty());
            assert!(&rt; ran.report.as_slice() == b"status 9 read\n".as_slice());
        }
    }
    Ok(())
}

//! Files that are not read and sinks that do not take, at `plan` and `check`.

use crate::tests::rows::{LEAST, M, PLAIN};
use mr_runs::Bytes::Text;
use mr_runs::{
    Case, Cut, ON_RDP_3, Puts, ROOMY, SOUND, Schedule, Unread, check_cases, check_same,
    check_unread, check_unreported, check_unwritten,
};
use std::test::Fail;

/// A plan that is written and reported.
static SPENT: Case = Case {
    words: &["plan", "m", "0", "--budget", "11"],
    out: Text(PLAIN),
    report: "spent cost 4 budget 11\n",
    ..ON_RDP_3
};

/// A check of a plan that is valid.
const VALID: Case = Case {
    words: &["check", "m", "0", "p"],
    files: &[("m", M), ("p", Text(LEAST))],
    out: Text("valid 3\n"),
    taken: [98, 0, 0, 0, 0],
    ..ON_RDP_3
};

/// The three calls of the eye of a file that is read: the call for it, its length and its read.
static MATRIX_READS: [Unread; 3] = [
    (&[(1, 0)], [0; 5]),
    (&[(1, 1)], [0; 5]),
    (&[(1, 2)], [0; 5]),
];

/// Those of the plan file come after the matrix was read.
static PLAN_READS: [Unread; 3] = [
    (&[(2, 0)], [55, 0, 0, 0, 0]),
    (&[(2, 1)], [55, 0, 0, 0, 0]),
    (&[(2, 2)], [55, 0, 0, 0, 0]),
];

/// `out` fails at its first put, its second or its fifth, which are by lines, after a front of them, or has too little room.
static OUT_CUTS: [Cut; 9] = [
    (500, &[], &[1], 0),
    (500, &[], &[2], 13),
    (500, &[], &[5], 41),
    (500, &[10], &[2], 10),
    (500, &[0], &[], 0),
    (500, &[13, 0], &[], 13),
    (0, &[], &[], 0),
    (20, &[], &[], 20),
    (44, &[], &[], 44),
];

/// So does the report, whose puts are by words and numbers.
static REPORT_CUTS: [Cut; 6] = [
    (500, &[], &[1], 0),
    (500, &[], &[2], 11),
    (500, &[], &[5], 22),
    (500, &[1, 1, 1], &[4], 3),
    (500, &[0], &[], 0),
    (22, &[], &[], 22),
];

/// `out` of `check`.
static VALID_CUTS: [Cut; 2] = [(500, &[], &[1], 0), (500, &[4], &[2], 4)];

/// Both sinks take their bytes in small parts, and have just the room for them.
const SLOW: Puts = Puts {
    takes: &[3, 9, 1, 1, 2],
    ..ROOMY
};

/// A byte at a time.
const BYTEWISE: Puts = Puts {
    takes: &[1; 80],
    ..ROOMY
};

/// Calls that do not come fail nothing, and sinks may take their bytes in small parts.
static HARMLESS: [Schedule; 5] = [
    Schedule {
        eyes: &[(1, 3), (2, 0)],
        ..SOUND
    },
    Schedule {
        out: SLOW,
        report: SLOW,
        ..SOUND
    },
    Schedule {
        out: BYTEWISE,
        report: BYTEWISE,
        ..SOUND
    },
    Schedule {
        out: Puts { room: 45, ..ROOMY },
        report: Puts { room: 23, ..ROOMY },
        ..SOUND
    },
    Schedule {
        out: Puts {
            fails: &[6],
            ..ROOMY
        },
        report: Puts {
            fails: &[6],
            ..ROOMY
        },
        ..SOUND
    },
];

/// The report fails in the line of a fault, and so would `out`, if it were called.
const LINE_CUT: Schedule = Schedule {
    out: Puts {
        fails: &[1],
        ..ROOMY
    },
    report: Puts {
        takes: &[7],
        fails: &[2],
        ..ROOMY
    },
    ..SOUND
};

/// A refusal whose line is cut. The status stays as it is.
const LINE: Case = Case {
    schedule: LINE_CUT,
    report: "status ",
    faults: [0, 0, 0, 1],
    ..ON_RDP_3
};

/// Such refusals: of the words, of each kind of text, of a device, of a loss, of a read and of a write.
static LINES: [Case; 8] = [
    Case {
        words: &["plan", "m"],
        status: 1,
        taken: [0; 5],
        ..LINE
    },
    Case {
        words: &["plan", "m", "0"],
        files: &[("m", Text("matrix 1 2 1 1\n1\n"))],
        status: 2,
        taken: [17, 0, 0, 0, 0],
        ..LINE
    },
    Case {
        words: &["plan", "m", "0"],
        files: &[("m", Text("matrix 1 4 2 129\n"))],
        status: 3,
        taken: [17, 0, 0, 0, 0],
        ..LINE
    },
    Case {
        words: &["plan", "m", "4"],
        status: 4,
        ..LINE
    },
    Case {
        words: &["plan", "m", "0,1,2"],
        status: 7,
        ..LINE
    },
    Case {
        words: &["check", "m", "0", "m"],
        status: 8,
        taken: [110, 0, 0, 0, 0],
        ..LINE
    },
    Case {
        words: &["plan", "M", "9"],
        status: 9,
        faults: [1, 0, 0, 1],
        taken: [0; 5],
        ..LINE
    },
    Case {
        words: &["make", "rdp", "3"],
        status: 10,
        faults: [0, 0, 1, 1],
        taken: [0; 5],
        ..LINE
    },
];

/// A file that is not there, and a report that is not called, since it has nothing to take.
static OTHERS: [Case; 3] = [
    Case {
        words: &["plan", "mm", "9"],
        status: 9,
        report: "status 9 read\n",
        faults: [1, 0, 0, 0],
        taken: [0; 5],
        ..ON_RDP_3
    },
    Case {
        words: &["check", "m", "0", "q"],
        status: 9,
        report: "status 9 read\n",
        faults: [1, 0, 0, 0],
        ..ON_RDP_3
    },
    Case {
        schedule: Schedule {
            report: Puts {
                fails: &[1],
                ..ROOMY
            },
            ..SOUND
        },
        ..VALID
    },
];

/// The check, as a case of its own.
static CHECK: Case = VALID;

#[test]
fn failing(rt: HostRuntime) -> Result<(), Fail> {
    check_unread(&rt, rt.alloc(), &SPENT, &MATRIX_READS)?;
    check_unread(&rt, rt.alloc(), &CHECK, &MATRIX_READS)?;
    check_unread(&rt, rt.alloc(), &CHECK, &PLAN_READS)?;
    check_unwritten(&rt, rt.alloc(), &SPENT, &OUT_CUTS)?;
    check_unwritten(&rt, rt.alloc(), &CHECK, &VALID_CUTS)?;
    check_unreported(&rt, rt.alloc(), &SPENT, &REPORT_CUTS)?;
    check_same(&rt, rt.alloc(), &SPENT, &HARMLESS)?;
    check_cases(&rt, rt.alloc(), &LINES)?;
    Ok(check_cases(&rt, rt.alloc(), &OTHERS)?)
}

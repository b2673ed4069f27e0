//! The command `rebuild`: the images that it writes, what it reports, how much it reads, and what fails.

use mr_fixture::RDP_3;
use mr_runs::Bytes::{Image, Raw, Text};
use mr_runs::{
    Bytes, Case, Cut, HEAD, LEAST, Puts, REBUILD, ROOMY, SOUND, Schedule, Trial, Unread, WHOLE,
    check_cases, check_same, check_trial, check_unread, check_unreported, check_unwritten,
    varied_image,
};
use std::test::Fail;

/// The matrix of row-diagonal parity for the prime 3.
const M: Bytes = Text(RDP_3);

/// A rebuild by the plain plan, since the budget is 11, one too little for the search.
const SPENT: Case = Case {
    words: &["rebuild", "m", "i", "0", "--budget=11"],
    report: "plan 1 spent\nset 2 3 4 5\n0 = 2 4\n1 = 3 5\nend\nspent cost 4 budget 11\nstripes 1\n",
    taken: [55, 32, 32, 0, 48],
    ..REBUILD
};

/// One device is lost. The workers change nothing, and a budget below the work of the search changes the plan alone.
static ONE_DEVICE: [Case; 9] = [
    REBUILD,
    Case {
        words: &["rebuild", "m", "i", "0", "--workers=1"],
        ..REBUILD
    },
    Case {
        words: &["rebuild", "--workers", "2", "m", "i", "0"],
        ..REBUILD
    },
    Case {
        words: &["rebuild", "m", "--workers=64", "i", "0"],
        ..REBUILD
    },
    Case {
        words: &["rebuild", "m", "i", "--budget=12", "--", "0"],
        ..REBUILD
    },
    SPENT,
    Case {
        words: &["rebuild", "m", "i", "0", "--workers=64", "--budget=11"],
        ..SPENT
    },
    Case {
        words: &["rebuild", "m", "i", "0", "--budget=0"],
        report: "plan 1 spent\nset 2 3 4 5\n0 = 2 4\n1 = 3 5\nend\nspent cost 4 budget 0\nstripes 1\n",
        ..SPENT
    },
    // The sums of the survivors are no codeword's where symbol 7 is another. It stays as it is.
    Case {
        files: &[
            ("m", M),
            ("i", Image(HEAD, b"\xff\xff\x04\x08\x05\x0a\x0b\x07")),
        ],
        out: Image(HEAD, b"\x01\x02\x04\x08\x05\x0a\x0b\x07"),
        ..REBUILD
    },
];

/// Other losses: the parity of the diagonals, two devices at once, and none. And survivors of no codeword that are read, or
/// not read.
static OTHERS: [Case; 5] = [
    Case {
        words: &["rebuild", "m", "i", "3"],
        files: &[
            ("m", M),
            ("i", Image(HEAD, b"\x01\x02\x04\x08\x05\x0a\xff\xff")),
        ],
        report: "plan 1 least\nset 0 1 2 3\n6 = 0 1 3\n7 = 1 2\nend\nleast cost 4 work 20\nstripes 1\n",
        taken: [55, 32, 32, 0, 48],
        ..REBUILD
    },
    Case {
        words: &["rebuild", "m", "i", "0,1"],
        files: &[
            ("m", M),
            ("i", Image(HEAD, b"\xff\xff\xff\xff\x05\x0a\x0b\x06")),
        ],
        report: "plan 1 least\nset 4 5 6 7\n0 = 5 6\n1 = 4 5 6 7\n2 = 4 5 6\n3 = 4 6 7\nend\nleast cost 4 work 4\nstripes 1\n",
        taken: [55, 32, 32, 0, 32],
        ..REBUILD
    },
    Case {
        words: &["rebuild", "m", "i", "none"],
        files: &[("m", M), ("i", Image(HEAD, WHOLE))],
        report: "plan 1 least\nset\nend\nleast cost 0 work 0\nstripes 1\n",
        taken: [55, 32, 0, 0, 64],
        ..REBUILD
    },
    Case {
        files: &[
            ("m", M),
            ("i", Image(HEAD, b"\xff\xff\x14\x08\x25\x0a\x0b\x06")),
        ],
        out: Image(HEAD, b"\x01\x02\x14\x08\x25\x0a\x0b\x06"),
        ..REBUILD
    },
    Case {
        files: &[
            ("m", M),
            ("i", Image(HEAD, b"\xff\xff\x04\x08\x05\x8a\x0b\x06")),
        ],
        out: Image(HEAD, b"\x81\x82\x04\x08\x05\x8a\x0b\x06"),
        ..REBUILD
    },
];

/// No stripe: the image is its head.
const NO_STRIPE: &[u8] = b"MRIMAGE1\x04\0\0\0\x02\0\0\0\x08\0\0\0\0\0\0\0\0\0\0\0\0\0\0\0";

/// The same, where a symbol has the most bytes.
const NO_LARGE_STRIPE: &[u8] = b"MRIMAGE1\x04\0\0\0\x02\0\0\0\0\0\x01\0\0\0\0\0\0\0\0\0\0\0\0\0";

/// No stripe, whatever the bytes of a symbol. A symbol that no data go into, which is rebuilt as zeros: nothing is read for
/// it. And two lost devices with the same symbol as the third.
static SMALL: [Case; 4] = [
    Case {
        files: &[("m", M), ("i", Raw(NO_STRIPE))],
        out: Raw(NO_STRIPE),
        report: "plan 1 least\nset 3 5 6\n0 = 5 6\n1 = 3 5\nend\nleast cost 3 work 12\nstripes 0\n",
        taken: [55, 32, 0, 0, 0],
        ..REBUILD
    },
    Case {
        files: &[("m", M), ("i", Raw(NO_LARGE_STRIPE))],
        out: Raw(NO_LARGE_STRIPE),
        report: "plan 1 least\nset 3 5 6\n0 = 5 6\n1 = 3 5\nend\nleast cost 3 work 12\nstripes 0\n",
        taken: [55, 32, 0, 0, 0],
        ..REBUILD
    },
    Case {
        words: &["rebuild", "m", "i", "1"],
        files: &[
            ("m", Text("matrix 1 2 1 1\n1\n0\n")),
            (
                "i",
                Raw(
                    b"MRIMAGE1\x02\0\0\0\x01\0\0\0\x08\0\0\0\x01\0\0\0\0\0\0\0\0\0\0\0survivorlost....",
                ),
            ),
        ],
        out: Raw(
            b"MRIMAGE1\x02\0\0\0\x01\0\0\0\x08\0\0\0\x01\0\0\0\0\0\0\0\0\0\0\0survivor\0\0\0\0\0\0\0\0",
        ),
        report: "plan 1 least\nset\n1 =\nend\nleast cost 0 work 1\nstripes 1\n",
        taken: [19, 32, 0, 0, 8],
        ..REBUILD
    },
    Case {
        words: &["rebuild", "m", "i", "0,1"],
        files: &[
            ("m", Text("matrix 1 3 1 2\n11\n11\n11\n")),
            (
                "i",
                Raw(
                    b"MRIMAGE1\x03\0\0\0\x01\0\0\0\x08\0\0\0\x01\0\0\0\0\0\0\0\0\0\0\0lost....lost....survivor",
                ),
            ),
        ],
        out: Raw(
            b"MRIMAGE1\x03\0\0\0\x01\0\0\0\x08\0\0\0\x01\0\0\0\0\0\0\0\0\0\0\0survivorsurvivorsurvivor",
        ),
        report: "plan 1 least\nset 2\n0 = 2\n1 = 2\nend\nleast cost 1 work 2\nstripes 1\n",
        taken: [24, 32, 8, 0, 8],
        ..REBUILD
    },
];

#[test]
fn rebuilds(rt: HostRuntime) -> Result<(), Fail> {
    check_cases(&rt, rt.alloc(), &ONE_DEVICE)?;
    check_cases(&rt, rt.alloc(), &OTHERS)?;
    Ok(check_cases(&rt, rt.alloc(), &SMALL)?)
}

/// The calls of the eyes of the matrix, the head, the mender, the replies and the survivors: the call for it, its length
/// where that is asked for, and its reads. The survivors stand side by side and are read at once.
static READS: [Unread; 13] = [
    (&[(1, 0)], [0; 5]),
    (&[(1, 1)], [0; 5]),
    (&[(1, 2)], [0; 5]),
    (&[(2, 0)], [55, 0, 0, 0, 0]),
    (&[(2, 1)], [55, 0, 0, 0, 0]),
    (&[(2, 2)], [55, 0, 0, 0, 0]),
    (&[(3, 0)], [55, 32, 0, 0, 0]),
    (&[(3, 1)], [55, 32, 0, 0, 0]),
    (&[(3, 2)], [55, 32, 8, 0, 0]),
    (&[(3, 3)], [55, 32, 16, 0, 0]),
    (&[(4, 0)], [55, 32, 0, 0, 0]),
    (&[(5, 0)], [55, 32, 0, 0, 0]),
    (&[(5, 1)], [55, 32, 24, 0, 0]),
];

/// `out` fails at its first put, after a front of the image, or has too little room.
static OUT_CUTS: [Cut; 6] = [
    (96, &[], &[1], 0),
    (96, &[10], &[2], 10),
    (96, &[10, 30, 1], &[4], 41),
    (96, &[32, 0], &[], 32),
    (0, &[], &[], 0),
    (95, &[], &[], 95),
];

/// So does the report.
static REPORT_CUTS: [Cut; 6] = [
    (500, &[], &[1], 0),
    (500, &[1], &[2], 1),
    (500, &[0], &[], 0),
    (0, &[], &[], 0),
    (23, &[], &[], 23),
    (73, &[], &[], 73),
];

/// Calls that do not come fail nothing, and both sinks may take their bytes in small parts, and have just the room for them.
static HARMLESS: [Schedule; 3] = [
    Schedule {
        eyes: &[(1, 3), (2, 3), (3, 4), (4, 1), (5, 2), (6, 0)],
        ..SOUND
    },
    Schedule {
        out: Puts {
            room: 96,
            takes: &[1; 96],
            ..ROOMY
        },
        report: Puts {
            room: LEAST.len(),
            takes: &[1; 96],
            ..ROOMY
        },
        ..SOUND
    },
    Schedule {
        out: Puts {
            takes: &[31, 2, 9, 1],
            ..ROOMY
        },
        report: Puts {
            takes: &[10],
            ..ROOMY
        },
        ..SOUND
    },
];

/// The report fails in the line of a refusal, which leaves the status as it is: for an image file of no bytes, for a read
/// that fails, and for a write that fails.
static LINES: [Case; 3] = [
    Case {
        files: &[("m", M), ("i", Text(""))],
        schedule: LINE_CUT,
        status: 5,
        out: Text(""),
        report: "status ",
        faults: [0, 0, 0, 1],
        taken: [55, 0, 0, 0, 0],
        ..REBUILD
    },
    Case {
        schedule: Schedule {
            eyes: &[(3, 3)],
            ..LINE_CUT
        },
        status: 9,
        out: Text(""),
        report: "status ",
        faults: [1, 0, 0, 1],
        taken: [55, 32, 16, 0, 0],
        ..REBUILD
    },
    Case {
        schedule: LINE_CUT,
        status: 10,
        out: Text(""),
        report: "status ",
        faults: [0, 0, 1, 1],
        ..REBUILD
    },
];

/// `out` takes nothing, and the report seven bytes.
const LINE_CUT: Schedule = Schedule {
    out: Puts {
        fails: &[1],
        ..ROOMY
    },
    report: Puts {
        takes: &[7],
        fails: &[2],
        ..ROOMY
    },
    ..SOUND
};

/// The rebuild, as a case of its own.
static FIRST: Case = REBUILD;

#[test]
fn failing(rt: HostRuntime) -> Result<(), Fail> {
    check_unread(&rt, rt.alloc(), &FIRST, &READS)?;
    check_unwritten(&rt, rt.alloc(), &FIRST, &OUT_CUTS)?;
    check_unreported(&rt, rt.alloc(), &FIRST, &REPORT_CUTS)?;
    check_same(&rt, rt.alloc(), &FIRST, &HARMLESS)?;
    Ok(check_cases(&rt, rt.alloc(), &LINES)?)
}

/// What a rebuild of three stripes without the second device with data reports.
const VARIED: &[u8] =
    b"plan 1 least\nset 1 5 7\n2 = 1 7\n3 = 1 5\nend\nleast cost 3 work 16\nstripes 3\n";

/// Three stripes of varied bytes with symbols of 16 bytes.
#[test]
fn varied(rt: HostRuntime) -> Result<(), Fail> {
    let whole = varied_image(rt.alloc(), None)?;
    let lost = varied_image(rt.alloc(), Some(1))?;
    let trial = Trial::on_rdp_3(rt.alloc())?
        .by(rt.alloc(), "rebuild m i 1")?
        .over(rt.alloc(), "i", &lost)?
        .ends(rt.alloc(), 0, &whole, VARIED)?
        .takes([55, 32, 144, 0, 288]);
    Ok(check_trial(&rt, rt.alloc(), trial)?)
}

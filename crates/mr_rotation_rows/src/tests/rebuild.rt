//! The rebuild of images of version 2: the plan of each rotation, and what is refused.

use crate::tests::convert::{M, SECOND, SECOND_HEAD};
use mr_runs::Bytes::{Image, Text};
use mr_runs::{BARE, Bytes, Case, ON_RDP_3, check_cases};
use std::test::Fail;

/// A matrix of three devices, of which the last has a column of its own.
const THREE: Bytes = Text("matrix 1 3 1 2\n10\n10\n01\n");

/// The image of version 2 of two stripes, whose device 0 is lost.
const LOST: Bytes = Image(
    SECOND_HEAD,
    b"\xff\xff\x04\x08\x05\x0a\x0b\x06\xff\xff\x10\x20\x40\x80\x50\xa0",
);

/// What is rebuilt, and what is refused.
static CASES: [Case; 4] = [
    // A plan for each rotation, and its line.
    Case {
        words: &["rebuild", "m", "v", "0"],
        files: &[("m", M), ("v", LOST)],
        out: SECOND,
        report: "rotation 0
plan 1 least
set 3 5 6
0 = 5 6
1 = 3 5
end
least cost 3 work 12
rotation 1
plan 1 least
set 2 3 4 5
0 = 2 3 5
1 = 3 4
end
least cost 4 work 20
stripes 2
",
        taken: [55, 32, 56, 0, 96],
        ..ON_RDP_3
    },
    // In stripe 1 the first device is the one with a column of its own.
    Case {
        words: &["rebuild", "m", "v", "0"],
        files: &[
            ("m", THREE),
            (
                "v",
                Image(
                    b"MRIMAGE2\x03\0\0\0\x01\0\0\0\x08\0\0\0\x02\0\0\0\0\0\0\0\0\0\0\0",
                    b"\xff\x01\x02\xff\x03\x03",
                ),
            ),
        ],
        status: 7,
        report: "status 7 undetermined rotation 1 symbol 0\n",
        taken: [24, 32, 0, 0, 0],
        ..BARE
    },
    Case {
        words: &["rebuild", "m", "v", "0"],
        files: &[
            ("m", THREE),
            (
                "v",
                Image(
                    b"MRIMAGE2\x03\0\0\0\x01\0\0\0\x08\0\0\0\x01\0\0\0\0\0\0\0\0\0\0\0",
                    b"\xff\x01\x02",
                ),
            ),
        ],
        out: Image(
            b"MRIMAGE2\x03\0\0\0\x01\0\0\0\x08\0\0\0\x01\0\0\0\0\0\0\0\0\0\0\0",
            b"\x01\x01\x02",
        ),
        report: "rotation 0\nplan 1 least\nset 1\n0 = 1\nend\nleast cost 1 work 1\nstripes 1\n",
        taken: [24, 32, 8, 0, 16],
        ..BARE
    },
    // One plan is not the plan of each rotation.
    Case {
        words: &["rebuild", "m", "v", "0", "--plan", "p"],
        files: &[
            ("m", M),
            ("v", LOST),
            (
                "p",
                Text("plan 1 least\nset 3 5 6\n0 = 5 6\n1 = 3 5\nend\n"),
            ),
        ],
        status: 5,
        report: "status 5 image planned\n",
        taken: [98, 32, 0, 0, 0],
        ..ON_RDP_3
    },
];

#[test]
fn rebuilds(rt: HostRuntime) -> Result<(), Fail> {
    Ok(check_cases(&rt, rt.alloc(), &CASES)?)
}

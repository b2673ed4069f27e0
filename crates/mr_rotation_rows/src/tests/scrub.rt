//! The command `scrub`: the stripes that it names, in images of both versions, what it refuses, and what fails.

use crate::tests::convert::{FIRST, M, READS, SECOND, SECOND_HEAD};
use mr_runs::Bytes::{Image, Text};
use mr_runs::{Case, Cut, HEAD, LOST, ON_RDP_3, WHOLE, check_cases, check_unread, check_unwritten};
use std::test::Fail;

/// The image of version 2 of two codewords.
const TWO: Case = Case {
    words: &["scrub", "m", "i"],
    files: &[("m", M), ("i", SECOND)],
    out: Text("stripes 2 bad 0\n"),
    taken: [55, 32, 0, 0, 128],
    ..ON_RDP_3
};

/// An image of one stripe.
const ONE: Case = Case {
    taken: [55, 32, 0, 0, 64],
    ..TWO
};

/// The stripes that are told, and what is refused.
static CASES: [Case; 8] = [
    Case {
        files: &[("m", M), ("i", Image(HEAD, WHOLE))],
        out: Text("stripes 1 bad 0\n"),
        ..ONE
    },
    // The symbols of device 0 are overwritten: the first check names them and the first row parity.
    Case {
        files: &[("m", M), ("i", Image(HEAD, LOST))],
        out: Text("stripe 0 check 0 2 4\nstripes 1 bad 1\n"),
        ..ONE
    },
    // Another last symbol: only the last check has it.
    Case {
        files: &[
            ("m", M),
            ("i", Image(HEAD, b"\x01\x02\x04\x08\x05\x0a\x0b\x07")),
        ],
        out: Text("stripe 0 check 1 2 7\nstripes 1 bad 1\n"),
        ..ONE
    },
    TWO,
    // The same bytes told to be of version 1.
    Case {
        files: &[("m", M), ("i", FIRST)],
        ..TWO
    },
    Case {
        files: &[
            ("m", M),
            (
                "i",
                Image(
                    SECOND_HEAD,
                    b"\x01\x02\x04\x08\x05\x0a\x0b\x07\xb0\x60\x10\x20\x40\x80\x50\xa1",
                ),
            ),
        ],
        out: Text("stripe 0 check 1 2 7\nstripe 1 check 0 2 7\nstripes 2 bad 2\n"),
        ..TWO
    },
    // The length is that of one stripe.
    Case {
        files: &[("m", M), ("i", Image(SECOND_HEAD, WHOLE))],
        out: Text(""),
        status: 5,
        report: "status 5 image length\n",
        taken: [55, 32, 0, 0, 0],
        ..TWO
    },
    Case {
        words: &["scrub", "m", "i", "0"],
        out: Text(""),
        status: 1,
        report: "status 1 usage\n",
        taken: [0; 5],
        ..TWO
    },
];

/// The image of two codewords, as a static: a constant would be written out where it is lent.
static TWO_STRIPES: Case = TWO;

/// Puts of `out` that fail.
static CUTS: [Cut; 2] = [(65_536, &[], &[1], 0), (10, &[], &[], 10)];

#[test]
fn scrubs(rt: HostRuntime) -> Result<(), Fail> {
    check_cases(&rt, rt.alloc(), &CASES)?;
    check_unread(&rt, rt.alloc(), &TWO_STRIPES, &READS)?;
    Ok(check_unwritten(&rt, rt.alloc(), &TWO_STRIPES, &CUTS)?)
}

//! The command `sectors`: what it mends and reports, and what it refuses, in the order of its steps.

use mr_fixture::RDP_3;
use mr_runs::Bytes::{self, Image, Text};
use mr_runs::{Case, HEAD, LOST, ON_RDP_3, WHOLE, check_cases};
use std::test::Fail;

/// The text of the matrix.
pub const M: Bytes = Text(RDP_3);

/// The head of an image of two stripes, of version 1.
const FIRST_HEAD: &[u8] = b"MRIMAGE1\x04\0\0\0\x02\0\0\0\x08\0\0\0\x02\0\0\0\0\0\0\0\0\0\0\0";

/// The same of version 2.
const SECOND_HEAD: &[u8] = b"MRIMAGE2\x04\0\0\0\x02\0\0\0\x08\0\0\0\x02\0\0\0\0\0\0\0\0\0\0\0";

/// The repair of an image of one stripe: device 0 is lost, and symbol 3 cannot be read. The set that is read is 2, 4, 5
/// and 7.
pub const ONE: Case = Case {
    words: &["sectors", "m", "i", "0", "b"],
    files: &[("m", M), ("i", Image(HEAD, LOST)), ("b", Text("0 3\n"))],
    out: Image(HEAD, WHOLE),
    report: "patterns 1\nmended 3\nreads 4\n",
    taken: [59, 32, 32, 0, 40],
    ..ON_RDP_3
};

/// The repair of two stripes, in each of which the same fails.
pub const TWO: Case = Case {
    files: &[
        ("m", M),
        (
            "i",
            Image(
                FIRST_HEAD,
                b"\xff\xff\x04\xff\x05\x0a\x0b\x06\xff\xff\x40\xff\x50\xa0\xb0\x60",
            ),
        ),
        ("b", Text("0 3\n1 3\n")),
    ],
    out: Image(
        FIRST_HEAD,
        b"\x01\x02\x04\x08\x05\x0a\x0b\x06\x10\x20\x40\x80\x50\xa0\xb0\x60",
    ),
    report: "patterns 1\nmended 6\nreads 8\n",
    taken: [63, 32, 64, 0, 80],
    ..ONE
};

/// A repair that is refused once the list is read, which has four bytes.
const REFUSED: Case = Case {
    out: Text(""),
    taken: [59, 32, 0, 0, 0],
    ..ONE
};

/// What is mended.
static MENDED: [Case; 5] = [
    ONE,
    TWO,
    // In version 2 the devices move on, so each stripe has a pattern of its own. A symbol that fails is not looked at.
    Case {
        files: &[
            ("m", M),
            (
                "i",
                Image(
                    SECOND_HEAD,
                    b"\xff\xff\x04\xff\x05\x0a\x0b\x06\xff\xff\x10\xff\x40\x80\x50\xa0",
                ),
            ),
            ("b", Text("0 3\n1 3\n")),
        ],
        out: Image(
            SECOND_HEAD,
            b"\x01\x02\x04\x08\x05\x0a\x0b\x06\xb0\x60\x10\x20\x40\x80\x50\xa0",
        ),
        report: "patterns 2\nmended 6\nreads 8\n",
        ..TWO
    },
    // No device is lost: symbol 3 alone is read from two others.
    Case {
        words: &["sectors", "m", "i", "none", "b", "--budget=12"],
        files: &[
            ("m", M),
            ("i", Image(HEAD, b"\x01\x02\x04\xff\x05\x0a\x0b\x06")),
            ("b", Text("0 3\n")),
        ],
        report: "patterns 1\nmended 1\nreads 2\n",
        taken: [59, 32, 16, 0, 56],
        ..ONE
    },
    // Nothing fails: the image is copied.
    Case {
        words: &["sectors", "m", "i", "none", "b"],
        files: &[("m", M), ("i", Image(HEAD, LOST)), ("b", Text(""))],
        out: Image(HEAD, LOST),
        report: "patterns 0\nmended 0\nreads 0\n",
        taken: [55, 32, 0, 0, 64],
        ..ONE
    },
];

/// What is refused.
static NOT_MENDED: [Case; 11] = [
    // A symbol of a lost device, and one that the image does not have.
    Case {
        files: &[("m", M), ("i", Image(HEAD, LOST)), ("b", Text("0 0\n"))],
        status: 12,
        report: "status 12 sectors line 1\n",
        ..REFUSED
    },
    Case {
        files: &[("m", M), ("i", Image(HEAD, LOST)), ("b", Text("0 8\n"))],
        status: 12,
        report: "status 12 sectors line 1\n",
        ..REFUSED
    },
    // The same symbol again.
    Case {
        files: &[
            ("m", M),
            ("i", Image(HEAD, LOST)),
            ("b", Text("0 3\n0 3\n")),
        ],
        status: 12,
        report: "status 12 sectors line 2\n",
        taken: [63, 32, 0, 0, 0],
        ..REFUSED
    },
    // A line without its line feed.
    Case {
        files: &[("m", M), ("i", Image(HEAD, LOST)), ("b", Text("0 3"))],
        status: 12,
        report: "status 12 sectors line 1\n",
        taken: [58, 32, 0, 0, 0],
        ..REFUSED
    },
    // Two devices and symbol 4 are too much.
    Case {
        words: &["sectors", "m", "i", "0,1", "b"],
        files: &[("m", M), ("i", Image(HEAD, LOST)), ("b", Text("0 4\n"))],
        status: 7,
        report: "status 7 undetermined stripe 0 symbol 1\n",
        ..REFUSED
    },
    // In the first stripe they are not: the line names the second.
    Case {
        words: &["sectors", "m", "i", "0,1", "b"],
        files: &[
            ("m", M),
            (
                "i",
                Image(
                    FIRST_HEAD,
                    b"\x01\x02\x04\x08\x05\x0a\x0b\x06\x10\x20\x40\x80\x50\xa0\xb0\x60",
                ),
            ),
            ("b", Text("1 4\n")),
        ],
        status: 7,
        report: "status 7 undetermined stripe 1 symbol 1\n",
        ..REFUSED
    },
    // The steps come in order: the lost devices before the image, and the image before the list.
    Case {
        words: &["sectors", "m", "i", "4", "b"],
        files: &[("m", M), ("i", Text("")), ("b", Text(""))],
        status: 4,
        report: "status 4 device 4\n",
        taken: [55, 0, 0, 0, 0],
        ..REFUSED
    },
    Case {
        files: &[("m", M), ("i", Text("")), ("b", Text("0 0\n"))],
        status: 5,
        report: "status 5 image head\n",
        taken: [55, 0, 0, 0, 0],
        ..REFUSED
    },
    // The list is not there.
    Case {
        files: &[("m", M), ("i", Image(HEAD, LOST))],
        status: 9,
        report: "status 9 read\n",
        faults: [1, 0, 0, 0],
        taken: [55, 32, 0, 0, 0],
        ..REFUSED
    },
    Case {
        words: &["sectors", "m", "i", "0"],
        status: 1,
        report: "status 1 usage\n",
        taken: [0; 5],
        ..REFUSED
    },
    Case {
        words: &["sectors", "m", "i", "0", "b", "--workers=1"],
        status: 1,
        report: "status 1 usage\n",
        taken: [0; 5],
        ..REFUSED
    },
];

#[test]
fn rows(rt: HostRuntime) -> Result<(), Fail> {
    check_cases(&rt, rt.alloc(), &MENDED)?;
    Ok(check_cases(&rt, rt.alloc(), &NOT_MENDED)?)
}

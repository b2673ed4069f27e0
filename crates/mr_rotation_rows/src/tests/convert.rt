//! The command `convert`: the images that it makes, what it refuses, and what fails.

use mr_fixture::RDP_3;
use mr_runs::Bytes::{Image, Raw, Text};
use mr_runs::{
    BARE, Bytes, Case, Cut, HEAD, ON_RDP_3, Unread, WHOLE, check_cases, check_unread,
    check_unwritten,
};
use std::test::Fail;

/// The matrix of row-diagonal parity for the prime 3.
pub const M: Bytes = Text(RDP_3);

/// The head of an image of version 1 of two stripes, with symbols of eight bytes.
pub const FIRST_HEAD: &[u8] = b"MRIMAGE1\x04\0\0\0\x02\0\0\0\x08\0\0\0\x02\0\0\0\0\0\0\0\0\0\0\0";

/// The same of version 2.
pub const SECOND_HEAD: &[u8] = b"MRIMAGE2\x04\0\0\0\x02\0\0\0\x08\0\0\0\x02\0\0\0\0\0\0\0\0\0\0\0";

/// An image of codewords, of version 1.
pub const FIRST: Bytes = Image(
    FIRST_HEAD,
    b"\x01\x02\x04\x08\x05\x0a\x0b\x06\x10\x20\x40\x80\x50\xa0\xb0\x60",
);

/// The same of version 2: in the second stripe the last device has moved to the front.
pub const SECOND: Bytes = Image(
    SECOND_HEAD,
    b"\x01\x02\x04\x08\x05\x0a\x0b\x06\xb0\x60\x10\x20\x40\x80\x50\xa0",
);

/// The image of two stripes.
const TWO: Case = Case {
    words: &["convert", "m", "i"],
    files: &[("m", M), ("i", FIRST)],
    out: SECOND,
    taken: [55, 32, 0, 0, 128],
    ..ON_RDP_3
};

/// An image that is refused, of which the head is read.
const REFUSED: Case = Case {
    words: &["convert", "m", "i"],
    status: 5,
    taken: [55, 32, 0, 0, 0],
    ..ON_RDP_3
};

/// The images that are made, and what is refused: step by step the first.
static CASES: [Case; 12] = [
    TWO,
    // The symbols are moved as they are, whether they are codewords or not.
    Case {
        files: &[
            ("m", M),
            (
                "i",
                Image(
                    FIRST_HEAD,
                    b"\x11\x12\x13\x14\x15\x16\x17\x18\x21\x22\x23\x24\x25\x26\x27\x28",
                ),
            ),
        ],
        out: Image(
            SECOND_HEAD,
            b"\x11\x12\x13\x14\x15\x16\x17\x18\x27\x28\x21\x22\x23\x24\x25\x26",
        ),
        ..TWO
    },
    // Six stripes of one device with each of four, in symbols of eight bytes: after four stripes the devices are at
    // their places again.
    Case {
        words: &["convert", "m", "i"],
        files: &[
            ("m", Text("matrix 1 4 1 1\n1\n1\n1\n1\n")),
            (
                "i",
                Image(
                    b"MRIMAGE1\x04\0\0\0\x01\0\0\0\x08\0\0\0\x06\0\0\0\0\0\0\0\0\0\0\0",
                    b"abcdefghijklmnopqrstuvwx",
                ),
            ),
        ],
        out: Image(
            b"MRIMAGE2\x04\0\0\0\x01\0\0\0\x08\0\0\0\x06\0\0\0\0\0\0\0\0\0\0\0",
            b"abcdhefgklijnopmqrstxuvw",
        ),
        taken: [23, 32, 0, 0, 192],
        ..BARE
    },
    // One stripe is as it was, and so is none.
    Case {
        files: &[("m", M), ("i", Image(HEAD, WHOLE))],
        out: Image(
            b"MRIMAGE2\x04\0\0\0\x02\0\0\0\x08\0\0\0\x01\0\0\0\0\0\0\0\0\0\0\0",
            WHOLE,
        ),
        taken: [55, 32, 0, 0, 64],
        ..TWO
    },
    Case {
        files: &[
            ("m", M),
            (
                "i",
                Raw(b"MRIMAGE1\x04\0\0\0\x02\0\0\0\x08\0\0\0\0\0\0\0\0\0\0\0\0\0\0\0"),
            ),
        ],
        out: Raw(b"MRIMAGE2\x04\0\0\0\x02\0\0\0\x08\0\0\0\0\0\0\0\0\0\0\0\0\0\0\0"),
        taken: [55, 32, 0, 0, 0],
        ..TWO
    },
    Case {
        files: &[("m", M), ("i", SECOND)],
        report: "status 5 image version\n",
        ..REFUSED
    },
    // Another mark, and another shape of version 2: the fields come before the version.
    Case {
        files: &[
            ("m", M),
            (
                "i",
                Image(
                    b"MRIMAGE3\x04\0\0\0\x02\0\0\0\x08\0\0\0\x01\0\0\0\0\0\0\0\0\0\0\0",
                    WHOLE,
                ),
            ),
        ],
        report: "status 5 image head\n",
        ..REFUSED
    },
    Case {
        files: &[
            ("m", M),
            (
                "i",
                Image(
                    b"MRIMAGE2\x05\0\0\0\x02\0\0\0\x08\0\0\0\x01\0\0\0\0\0\0\0\0\0\0\0",
                    WHOLE,
                ),
            ),
        ],
        report: "status 5 image shape\n",
        ..REFUSED
    },
    Case {
        files: &[("m", M), ("i", Image(SECOND_HEAD, WHOLE))],
        report: "status 5 image length\n",
        ..REFUSED
    },
    // The matrix comes before the image.
    Case {
        files: &[("m", Text("matrix 1 4 2 4")), ("i", SECOND)],
        status: 2,
        report: "status 2 matrix line 1 noend\n",
        taken: [14, 0, 0, 0, 0],
        ..REFUSED
    },
    // A word too many, and one too few.
    Case {
        words: &["convert", "m", "i", "0"],
        status: 1,
        report: "status 1 usage\n",
        taken: [0; 5],
        ..TWO_REFUSED
    },
    Case {
        words: &["convert", "m"],
        status: 1,
        report: "status 1 usage\n",
        taken: [0; 5],
        ..TWO_REFUSED
    },
];

/// The image of two stripes, of which nothing is written.
const TWO_REFUSED: Case = Case {
    out: Text(""),
    ..TWO
};

/// The image of two stripes, as a static: a constant would be written out where it is lent.
static TWO_STRIPES: Case = TWO;

/// Calls of the eyes of the matrix, of the head and of the symbols that fail, and the bytes that are taken before them.
pub static READS: [Unread; 6] = [
    (&[(1, 0)], [0; 5]),
    (&[(2, 0)], [55, 0, 0, 0, 0]),
    (&[(2, 1)], [55, 0, 0, 0, 0]),
    (&[(2, 2)], [55, 0, 0, 0, 0]),
    (&[(3, 0)], [55, 32, 0, 0, 0]),
    (&[(3, 1)], [55, 32, 0, 0, 0]),
];

/// Puts of `out` that fail.
static CUTS: [Cut; 2] = [(65_536, &[], &[1], 0), (100, &[], &[], 100)];

#[test]
fn images(rt: HostRuntime) -> Result<(), Fail> {
    check_cases(&rt, rt.alloc(), &CASES)?;
    check_unread(&rt, rt.alloc(), &TWO_STRIPES, &READS)?;
    Ok(check_unwritten(&rt, rt.alloc(), &TWO_STRIPES, &CUTS)?)
}

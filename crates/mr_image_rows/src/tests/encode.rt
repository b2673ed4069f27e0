//! The command `encode`: the images that it makes, what it refuses, and what fails.

use mr_fixture::RDP_3;
use mr_runs::Bytes::{Image, Raw, Text};
use mr_runs::{
    Bytes, Case, Cut, HEAD, ON_RDP_3, Puts, ROOMY, SOUND, Schedule, Trial, Unread, WHOLE,
    check_cases, check_same, check_trial, check_unread, check_unwritten, varied_data, varied_image,
};
use std::test::Fail;

/// The matrix of row-diagonal parity for the prime 3.
const M: Bytes = Text(RDP_3);

/// One stripe of symbols of eight bytes.
const ONE: Case = Case {
    words: &["encode", "m", "d", "1", "8"],
    files: &[("m", M), ("d", Image(b"", b"\x01\x02\x04\x08"))],
    out: Image(HEAD, WHOLE),
    taken: [55, 0, 0, 0, 32],
    ..ON_RDP_3
};

/// Two stripes of the same.
const TWO: Case = Case {
    words: &["encode", "m", "d", "2", "8"],
    files: &[
        ("m", M),
        ("d", Image(b"", b"\x01\x02\x04\x08\x10\x20\x40\x80")),
    ],
    out: Image(
        b"MRIMAGE1\x04\0\0\0\x02\0\0\0\x08\0\0\0\x02\0\0\0\0\0\0\0\0\0\0\0",
        b"\x01\x02\x04\x08\x05\x0a\x0b\x06\x10\x20\x40\x80\x50\xa0\xb0\x60",
    ),
    taken: [55, 0, 0, 0, 64],
    ..ON_RDP_3
};

/// No stripe: the image is its head, whatever the bytes of a symbol.
const NONE: Case = Case {
    words: &["encode", "m", "d", "0", "8"],
    files: &[("m", M), ("d", Text(""))],
    out: Raw(b"MRIMAGE1\x04\0\0\0\x02\0\0\0\x08\0\0\0\0\0\0\0\0\0\0\0\0\0\0\0"),
    ..ON_RDP_3
};

/// Images, a data file that is not there, and a matrix that is none, which is refused before the sizes are looked at.
static IMAGES: [Case; 6] = [
    ONE,
    TWO,
    NONE,
    Case {
        words: &["encode", "m", "d", "0", "65536"],
        out: Raw(b"MRIMAGE1\x04\0\0\0\x02\0\0\0\0\0\x01\0\0\0\0\0\0\0\0\0\0\0\0\0"),
        ..NONE
    },
    Case {
        words: &["encode", "m", "q", "1", "8"],
        status: 9,
        report: "status 9 read\n",
        faults: [1, 0, 0, 0],
        ..ON_RDP_3
    },
    Case {
        words: &["encode", "m", "q", "1", "12"],
        files: &[("m", Text("matrix 1 1 1 1\n"))],
        status: 2,
        report: "status 2 matrix line 2 missing\n",
        taken: [15, 0, 0, 0, 0],
        ..ON_RDP_3
    },
];

/// The words and the fault of sizes that are refused: the bytes of a symbol that are none or no multiple of 8, then too many
/// of them, and then too many of all symbols, before the data file, which is not there, is asked for. And data that are not
/// of the length of the stripes' symbols, of which none are read.
static SIZES: [(&str, u8, &str); 19] = [
    ("encode m q 1 12", 5, "status 5 image bytes\n"),
    ("encode m q 1 0", 5, "status 5 image bytes\n"),
    ("encode m q 0 0", 5, "status 5 image bytes\n"),
    ("encode m q 1 7", 5, "status 5 image bytes\n"),
    ("encode m q 999999999 65537", 5, "status 5 image bytes\n"),
    (
        "encode m q 1 65544",
        3,
        "status 3 large symbolbytes 65544\n",
    ),
    (
        "encode m q 0 65544",
        3,
        "status 3 large symbolbytes 65544\n",
    ),
    (
        "encode m q 999999999 65544",
        3,
        "status 3 large symbolbytes 65544\n",
    ),
    (
        "encode m q 1 999999992",
        3,
        "status 3 large symbolbytes 999999992\n",
    ),
    (
        "encode m q 513 65536",
        3,
        "status 3 large imagebytes 268959744\n",
    ),
    (
        "encode m q 4194305 8",
        3,
        "status 3 large imagebytes 268435520\n",
    ),
    (
        "encode m q 999999999 65536",
        3,
        "status 3 large imagebytes 524287999475712\n",
    ),
    ("encode m d31 1 8", 5, "status 5 image length\n"),
    ("encode m d33 1 8", 5, "status 5 image length\n"),
    ("encode m d31 0 8", 5, "status 5 image length\n"),
    ("encode m d33 2 8", 5, "status 5 image length\n"),
    ("encode m d0 1 8", 5, "status 5 image length\n"),
    ("encode m m 1 8", 5, "status 5 image length\n"),
    ("encode -- m d33 1 8", 5, "status 5 image length\n"),
];

/// The calls of both eyes: the call for it, its length, and its reads.
static READS: [Unread; 7] = [
    (&[(1, 0)], [0; 5]),
    (&[(1, 1)], [0; 5]),
    (&[(1, 2)], [0; 5]),
    (&[(2, 0)], [55, 0, 0, 0, 0]),
    (&[(2, 1)], [55, 0, 0, 0, 0]),
    (&[(2, 2)], [55, 0, 0, 0, 0]),
    (&[(2, 3)], [55, 0, 0, 0, 32]),
];

/// `out` fails at its first put, after a front of the image, or has too little room.
static CUTS: [Cut; 7] = [
    (160, &[], &[1], 0),
    (160, &[10], &[2], 10),
    (160, &[10, 30, 1], &[4], 41),
    (160, &[0], &[], 0),
    (160, &[32, 0], &[], 32),
    (0, &[], &[], 0),
    (159, &[], &[], 159),
];

/// Calls that do not come fail nothing, as that of the report, and `out` may take the image in small parts.
static HARMLESS: [Schedule; 3] = [
    Schedule {
        eyes: &[(1, 3), (2, 4), (3, 0)],
        ..SOUND
    },
    Schedule {
        out: Puts {
            room: 160,
            takes: &[1; 160],
            ..ROOMY
        },
        report: Puts {
            fails: &[1],
            ..ROOMY
        },
        ..SOUND
    },
    Schedule {
        out: Puts {
            room: 160,
            takes: &[31, 2, 9, 1],
            ..ROOMY
        },
        ..SOUND
    },
];

/// The two stripes, as a case of their own.
static STRIPES: Case = TWO;

#[test]
fn images(rt: HostRuntime) -> Result<(), Fail> {
    check_cases(&rt, rt.alloc(), &IMAGES)?;
    check_unread(&rt, rt.alloc(), &STRIPES, &READS)?;
    check_unwritten(&rt, rt.alloc(), &STRIPES, &CUTS)?;
    Ok(check_same(&rt, rt.alloc(), &STRIPES, &HARMLESS)?)
}

/// A data file of each length.
static SIZED: Case = Case {
    files: &[
        ("m", M),
        ("d31", Raw(&[7; 31])),
        ("d33", Raw(&[7; 33])),
        ("d0", Text("")),
    ],
    ..ON_RDP_3
};

#[test]
fn sizes(rt: HostRuntime) -> Result<(), Fail> {
    for (line, status, report) in &SIZES {
        let trial = Trial::of(rt.alloc(), &SIZED)?
            .by(rt.alloc(), line)?
            .ends(rt.alloc(), *status, b"", report.as_bytes())?;
        check_trial(&rt, rt.alloc(), trial)?;
    }
    Ok(())
}

/// Three stripes of varied data, with symbols of 16 bytes.
#[test]
fn varied(rt: HostRuntime) -> Result<(), Fail> {
    let data = varied_data(rt.alloc())?;
    let image = varied_image(rt.alloc(), None)?;
    let trial = Trial::on_rdp_3(rt.alloc())?
        .by(rt.alloc(), "encode m d 3 16")?
        .over(rt.alloc(), "d", &data)?
        .ends(rt.alloc(), 0, &image, b"")?
        .takes([55, 0, 0, 0, 192]);
    Ok(check_trial(&rt, rt.alloc(), trial)?)
}

//! Lines of scripts that are refused, and what is refused before a script is read.

use mr_fixture::RDP_3;
use mr_runs::Bytes::{Image, Text};
use mr_runs::{AT_ONCE, Case, Gives, HEAD, LOST, REBUILD, SOUND, Schedule, Trial, check_trial};
use std::alloc::Global;
use std::test::Fail;
use std::thread::Threads;

/// Scripts, and the number of the first line that is not of its form, for an image of one stripe of eight symbols.
static REFUSED: [(&str, u32); 44] = [
    // Numbers of a stripe and of a symbol that the image does not have.
    ("1 0\n", 1),
    ("0 8\n", 1),
    ("0 0\n0 8\n", 2),
    ("0 0\n0 7\n1 7\n0 0\n", 3),
    ("0 10\n", 1),
    ("10 0\n", 1),
    ("0 255\n", 1),
    ("0 256\n", 1),
    ("0 264\n", 1),
    ("4294967295 0\n", 1),
    ("4294967296 0\n", 1),
    ("0 4294967296\n", 1),
    ("18446744073709551616 0\n", 1),
    ("0 18446744073709551616\n", 1),
    // The last line has no end.
    ("0", 1),
    ("0 ", 1),
    ("0 0", 1),
    ("0 0\n0 0", 2),
    ("0 0\n0", 2),
    ("0 0\n0 0\n0 ", 3),
    // Lines of nothing.
    ("\n", 1),
    ("\n\n", 1),
    ("0 0\n\n0 1\n", 2),
    ("0 0\n0 1\n\n", 3),
    // Spaces that are missing, of another kind, or too many.
    ("00\n", 1),
    ("0  0\n", 1),
    (" 0 0\n", 1),
    ("0 0 \n", 1),
    ("0\t0\n", 1),
    (" \n", 1),
    ("0 \n", 1),
    (" 0\n", 1),
    // Numbers with a zero or a sign before them, with a letter, or too many.
    ("00 0\n", 1),
    ("0 00\n", 1),
    ("0 01\n", 1),
    ("0\n", 1),
    ("0 0 0\n", 1),
    ("-1 0\n", 1),
    ("-0 0\n", 1),
    ("0 +1\n", 1),
    ("0 x\n", 1),
    ("0x0 0\n", 1),
    ("0 0\r\n", 1),
    ("0 0\n0 0\r\n", 2),
];

/// Asserts that the script is refused at this line. Nothing is written, and the script was read to its end.
fn check_refused<T: Threads + Sync>(
    rt: &T,
    alloc: Global,
    script: &[u8],
    line: u32,
) -> Result<(), Fail> {
    let report = format!(in alloc; "status 6 script line {line}\n")?;
    let trial = Trial::rebuild(alloc)?
        .asks(alloc, script)?
        .ends(alloc, 6, b"", report.as_bytes())?
        .takes([55, 32, 0, 0, 0]);
    Ok(check_trial(rt, alloc, trial)?)
}

#[test]
fn refused(rt: HostRuntime) -> Result<(), Fail> {
    for (text, line) in &REFUSED {
        check_refused(&rt, rt.alloc(), text.as_bytes(), *line)?;
    }
    Ok(())
}

/// Each front of a script of three lines that does not end with a line: its last line is named.
#[test]
fn fronts(rt: HostRuntime) -> Result<(), Fail> {
    let text = "0 0\n0 3\n0 0\n".as_bytes();
    let mut line = 1;
    for count in 0..text.len() {
        if count % 4 != 0 {
            check_refused(&rt, rt.alloc(), &text[..count], line)?;
        }
        if text[count] == b'\n' && line < 9 {
            line += 1;
        }
    }
    Ok(())
}

/// A script that is refused at its first line, and whose first call fails.
static BAD: Case = Case {
    files: &[
        ("m", Text(RDP_3)),
        ("n", Text("matrix 1 4 2 4\n1000\n")),
        ("i", Image(HEAD, LOST)),
        // The image without its last symbol.
        ("s", Image(HEAD, b"\xff\xff\x04\x08\x05\x0a\x0b")),
        // A plan, one without its last line, and one by which symbol 0 is the XOR of other symbols than its own.
        (
            "p",
            Text("plan 1 least\nset 2 4 7\n0 = 2 4\n1 = 2 7\nend\n"),
        ),
        ("e", Text("plan 1 least\nset 2 4 7\n0 = 2 4\n1 = 2 7\n")),
        (
            "u",
            Text("plan 1 least\nset 2 4 7\n0 = 2 7\n1 = 2 4\nend\n"),
        ),
    ],
    script: Text("1 0\n0 8\n\n"),
    schedule: Schedule {
        script: Gives {
            fails: &[1],
            ..AT_ONCE
        },
        ..SOUND
    },
    out: Text(""),
    left: 9,
    ..REBUILD
};

/// The words, the calls of eyes that fail, the status, the line, and the bytes of texts and of heads that are read: what comes
/// before the script, so that none of its calls is made. The commands that ask for no script make none.
static BEFORE: [(&str, &[(u64, u64)], u8, &str, u64, u64); 23] = [
    ("rebuild m i", &[], 1, "status 1 usage\n", 0, 0),
    (
        "rebuild m i 0 --workers=0",
        &[],
        1,
        "status 1 usage\n",
        0,
        0,
    ),
    (
        "rebuild n i 0",
        &[],
        2,
        "status 2 matrix line 3 missing\n",
        20,
        0,
    ),
    ("rebuild m i 0,4", &[], 4, "status 4 device 4\n", 55, 0),
    (
        "rebuild m i 0,1,2",
        &[],
        7,
        "status 7 undetermined symbol 0\n",
        55,
        0,
    ),
    (
        "rebuild m i 0 --plan=e",
        &[],
        8,
        "status 8 plan line 5\n",
        94,
        0,
    ),
    (
        "rebuild m i 0 --plan=u",
        &[],
        8,
        "status 8 plan symbol 0 sum\n",
        98,
        0,
    ),
    ("rebuild m s 0", &[], 5, "status 5 image length\n", 55, 32),
    ("rebuild m m 0", &[], 5, "status 5 image head\n", 55, 32),
    (
        "rebuild m s 0 --plan=p",
        &[],
        5,
        "status 5 image length\n",
        98,
        32,
    ),
    (
        "rebuild m i 0 --plan=p",
        &[(1, 0)],
        9,
        "status 9 read\n",
        0,
        0,
    ),
    (
        "rebuild m i 0 --plan=p",
        &[(1, 1)],
        9,
        "status 9 read\n",
        0,
        0,
    ),
    (
        "rebuild m i 0 --plan=p",
        &[(1, 2)],
        9,
        "status 9 read\n",
        0,
        0,
    ),
    (
        "rebuild m i 0 --plan=p",
        &[(2, 0)],
        9,
        "status 9 read\n",
        55,
        0,
    ),
    (
        "rebuild m i 0 --plan=p",
        &[(2, 1)],
        9,
        "status 9 read\n",
        55,
        0,
    ),
    (
        "rebuild m i 0 --plan=p",
        &[(2, 2)],
        9,
        "status 9 read\n",
        55,
        0,
    ),
    (
        "rebuild m i 0 --plan=p",
        &[(3, 0)],
        9,
        "status 9 read\n",
        98,
        0,
    ),
    (
        "rebuild m i 0 --plan=p",
        &[(3, 1)],
        9,
        "status 9 read\n",
        98,
        0,
    ),
    (
        "rebuild m i 0 --plan=p",
        &[(3, 2)],
        9,
        "status 9 read\n",
        98,
        0,
    ),
    ("plan m 4", &[], 4, "status 4 device 4\n", 55, 0),
    ("check m 0 e", &[], 8, "status 8 plan line 5\n", 94, 0),
    ("make rdp 4", &[], 1, "status 1 usage\n", 0, 0),
    ("encode m q 0 8", &[], 9, "status 9 read\n", 55, 0),
];

/// The calls that fail come behind the script, of which the first call fails before.
static BEHIND: [&[(u64, u64)]; 5] = [&[(4, 0)], &[(4, 1)], &[(5, 0)], &[(6, 0)], &[(6, 1)]];

#[test]
fn order(rt: HostRuntime) -> Result<(), Fail> {
    for (line, eyes, status, report, text, head) in &BEFORE {
        let trial = Trial::of(rt.alloc(), &BAD)?
            .by(rt.alloc(), line)?
            .failing(eyes, [u64::from(*status == 9), 0, 0, 0])
            .ends(rt.alloc(), *status, b"", report.as_bytes())?
            .takes([*text, *head, 0, 0, 0]);
        check_trial(&rt, rt.alloc(), trial)?;
    }
    for eyes in &BEHIND {
        let trial = Trial::of(rt.alloc(), &BAD)?
            .by(rt.alloc(), "rebuild m i 0 --plan=p")?
            .failing(eyes, [0, 1, 0, 0])
            .ends(rt.alloc(), 9, b"", b"status 9 read\n")?
            .takes([98, 32, 0, 0, 0]);
        check_trial(&rt, rt.alloc(), trial)?;
    }
    Ok(())
}

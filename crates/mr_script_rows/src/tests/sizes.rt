//! Scripts of the most bytes and of more, and replies of the most bytes and of more.

use mr_runs::{Puts, ROOMY, SOUND, Schedule, Trial, check_trial};
use std::alloc::Global;
use std::test::Fail;

/// A text, this many times, and then another.
fn repeated(alloc: Global, text: &str, times: u32, end: &str) -> Result<Vec<u8>, Fail> {
    let mut bytes = Vec::new(alloc);
    for _ in 0..times {
        bytes.extend_from_slice(text.as_bytes())?;
    }
    bytes.extend_from_slice(end.as_bytes())?;
    Ok(bytes)
}

/// Lines that are right and that are not, how often they stand in the script, the most bytes that a call of it gives, the
/// calls that fail, and how many bytes of it are left: it is read up to the first byte that is too many, also where a call
/// gives one byte and the next one fails.
static LONG: [(&str, u32, usize, &[u64], usize); 4] = [
    ("0 0\n", 262_145, 65_536, &[], 3),
    ("\n", 1_048_577, 65_536, &[], 0),
    ("9", 1_048_677, 65_536, &[], 100),
    ("0", 1_048_579, 1, &[1_048_578], 2),
];

#[test]
fn script_bytes(rt: HostRuntime) -> Result<(), Fail> {
    for (text, times, most, fails, left) in &LONG {
        let script = repeated(rt.alloc(), text, *times, "")?;
        let mut trial = Trial::rebuild(rt.alloc())?
            .asks(rt.alloc(), &script)?
            .gives(*most, fails, [0; 4])
            .ends(rt.alloc(), 3, b"", b"status 3 large scriptbytes 1048577\n")?
            .takes([55, 32, 0, 0, 0]);
        trial.left = *left;
        check_trial(&rt, rt.alloc(), trial)?;
    }
    Ok(())
}

/// The report has room for all replies.
static ROOM_FOR_ALL: Schedule = Schedule {
    report: Puts {
        room: 8_000_000,
        ..ROOMY
    },
    ..SOUND
};

/// A script of the most bytes is answered line by line.
#[test]
fn most_script_bytes(rt: HostRuntime) -> Result<(), Fail> {
    let mut trial = Trial::rebuild(rt.alloc())?.under(ROOM_FOR_ALL, [0; 4]);
    trial.script = repeated(rt.alloc(), "0 1\n", 262_144, "")?;
    let replies = repeated(rt.alloc(), "reply 0 1 0202020202020202\n", 262_144, "")?;
    trial.report.extend_from_slice(&replies)?;
    Ok(check_trial(&rt, rt.alloc(), trial)?)
}

/// The head of an image of one stripe of eight symbols, of the most bytes.
const LARGE_HEAD: &[u8] = b"MRIMAGE1\x04\0\0\0\x02\0\0\0\0\0\x01\0\x01\0\0\0\0\0\0\0\0\0\0\0";

/// The ends of scripts of 1025 lines, whose replies are too many, since 1024 are the most, and what is refused: a line that
/// is none is named before that.
static ENDS: [(&str, u8, &str); 3] = [
    ("", 3, "status 3 large replybytes 67174400\n"),
    ("0 8\n", 6, "status 6 script line 1026\n"),
    ("0 0", 6, "status 6 script line 1026\n"),
];

#[test]
fn reply_bytes(rt: HostRuntime) -> Result<(), Fail> {
    let mut image = Vec::from_slice(rt.alloc(), LARGE_HEAD)?;
    image.extend_from_slice(&vec![in rt.alloc(); 0; 524_288]?)?;
    for (end, status, report) in &ENDS {
        let script = repeated(rt.alloc(), "0 2\n", 1025, end)?;
        let trial = Trial::on_rdp_3(rt.alloc())?
            .by(rt.alloc(), "rebuild m i 0")?
            .over(rt.alloc(), "i", &image)?
            .asks(rt.alloc(), &script)?
            .ends(rt.alloc(), *status, b"", report.as_bytes())?
            .takes([55, 32, 0, 0, 0]);
        check_trial(&rt, rt.alloc(), trial)?;
    }
    Ok(())
}

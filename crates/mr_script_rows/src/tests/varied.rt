//! The replies of an image of three stripes of varied bytes, with symbols of sixteen bytes.

use mr_runs::{Trial, check_trial, varied_byte, varied_image};
use std::alloc::Global;
use std::test::Fail;

/// What a rebuild reports before the replies.
const LEAST: &str =
    "plan 1 least\nset 3 5 6\n0 = 5 6\n1 = 3 5\nend\nleast cost 3 work 12\nstripes 3\n";

/// A half of a byte as a lower-case hexadecimal digit.
fn digit(half: u8) -> char {
    match half {
        0..10 => (b'0' + half) as char,
        10..16 => (b'a' + (half - 10)) as char,
        _none => '?',
    }
}

/// The line of the reply of a symbol of a stripe, by a loop over its bytes.
fn reply_line(alloc: Global, stripe: u8, symbol: u8) -> Result<String, Fail> {
    let mut line = format!(in alloc; "reply {stripe} {symbol} ")?;
    for at in 0..16 {
        let byte = varied_byte(stripe, symbol, at);
        line.push(digit(byte / 16))?;
        line.push(digit(byte % 16))?;
    }
    line.push('\n')?;
    Ok(line)
}

/// The stripes and symbols that are read, in the order of the script, be it mixed, and the bytes taken for them: those of the
/// survivors.
static READS: [(&[(u8, u8)], u64); 5] = [
    (
        &[(2, 1), (0, 0), (1, 7), (2, 0), (0, 5), (1, 1), (0, 1)],
        32,
    ),
    (&[(1, 0), (0, 0), (2, 0), (1, 0)], 0),
    (&[(2, 7), (1, 6), (0, 5), (2, 4), (1, 3), (0, 2)], 96),
    (&[(0, 3), (1, 3), (2, 3), (1, 3), (0, 3)], 80),
    (
        &[
            (0, 0),
            (1, 0),
            (2, 0),
            (0, 1),
            (1, 1),
            (2, 1),
            (0, 2),
            (1, 2),
            (2, 2),
            (0, 3),
            (1, 3),
            (2, 3),
            (0, 4),
            (1, 4),
            (2, 4),
            (0, 5),
            (1, 5),
            (2, 5),
            (0, 6),
            (1, 6),
            (2, 6),
            (0, 7),
            (1, 7),
            (2, 7),
        ],
        288,
    ),
];

/// What a rebuild with these reads reports, and their script.
fn texts_of(alloc: Global, asks: &[(u8, u8)]) -> Result<(String, String), Fail> {
    let mut report = String::from_str(alloc, LEAST)?;
    let mut script = String::new(alloc);
    for (stripe, symbol) in asks {
        report.push_str(&reply_line(alloc, *stripe, *symbol)?)?;
        script.push_str(&format!(in alloc; "{stripe} {symbol}\n")?)?;
    }
    Ok((report, script))
}

/// Each reply is that of its stripe and its symbol.
#[test]
fn replies(rt: HostRuntime) -> Result<(), Fail> {
    let image = varied_image(rt.alloc(), Some(0))?;
    let whole = varied_image(rt.alloc(), None)?;
    for (asks, live) in &READS {
        let (report, script) = texts_of(rt.alloc(), asks)?;
        let trial = Trial::on_rdp_3(rt.alloc())?
            .by(rt.alloc(), "rebuild m i 0")?
            .over(rt.alloc(), "i", &image)?
            .asks(rt.alloc(), script.as_bytes())?
            .ends(rt.alloc(), 0, &whole, report.as_bytes())?
            .takes([55, 32, 144, *live, 288]);
        check_trial(&rt, rt.alloc(), trial)?;
    }
    Ok(())
}

/// Scripts of which a line names a stripe or a symbol that the image does not have: the first such is said.
static REFUSED: [(&str, &str); 3] = [
    ("3 0\n", "status 6 script line 1\n"),
    ("0 0\n2 7\n3 0\n", "status 6 script line 3\n"),
    ("2 0\n0 8\n", "status 6 script line 2\n"),
];

#[test]
fn refused(rt: HostRuntime) -> Result<(), Fail> {
    let image = varied_image(rt.alloc(), Some(0))?;
    for (script, report) in &REFUSED {
        let trial = Trial::on_rdp_3(rt.alloc())?
            .by(rt.alloc(), "rebuild m i 0")?
            .over(rt.alloc(), "i", &image)?
            .asks(rt.alloc(), script.as_bytes())?
            .ends(rt.alloc(), 6, b"", report.as_bytes())?
            .takes([55, 32, 0, 0, 0]);
        check_trial(&rt, rt.alloc(), trial)?;
    }
    Ok(())
}

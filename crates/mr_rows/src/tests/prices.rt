//! Matrices of which each device has a price: the cost of a set is the sum of the prices of its members' devices.

use crate::tests::rows::{LEAST, PLAIN, Row, check_rows};
use mr_runs::Bytes::{Image, Text};
use mr_runs::{Bytes, Case, HEAD, LOST, ON_RDP_3, REBUILD, Trial, check_cases, check_trial};
use std::test::Fail;

/// Row-diagonal parity for the prime 3, where a symbol of device 1 costs five times as much as another, in 69 bytes.
const TEXT: &str =
    "matrix 2 4 2 4\nprice 1 5 1 1\n1000\n0100\n0010\n0001\n1010\n0101\n1101\n0110\n";

/// The bytes of that text.
const P: Bytes = Text(TEXT);

/// The least plan for that matrix with device 0 lost: it reads no symbol of device 1.
const WITHOUT_1: &str = "plan 1 least\nset 4 5 6 7\n0 = 5 6\n1 = 4 5 6 7\nend\n";

/// Plans, whose cost and work go by prices. A budget below the work gives the plain plan, whatever it costs. A price of the
/// lost device changes nothing.
static PLANS: [Row; 6] = [
    (P, "plan m 0", 0, WITHOUT_1, "least cost 4 work 8\n"),
    (
        P,
        "plan m 0 --budget 8",
        0,
        WITHOUT_1,
        "least cost 4 work 8\n",
    ),
    (
        P,
        "plan m 0 --budget 7",
        0,
        PLAIN,
        "spent cost 12 budget 7\n",
    ),
    (
        P,
        "plan m none",
        0,
        "plan 1 least\nset\nend\n",
        "least cost 0 work 0\n",
    ),
    (
        Text("matrix 2 4 2 4\nprice 2 1 1 1\n1000\n0100\n0010\n0001\n1010\n0101\n1101\n0110\n"),
        "plan m 0",
        0,
        LEAST,
        "least cost 3 work 12\n",
    ),
    (
        Text("matrix 2 4 2 4\nprice 1000 1 1 1\n1000\n0100\n0010\n0001\n1010\n0101\n1101\n0110\n"),
        "plan m 0",
        0,
        LEAST,
        "least cost 3 work 12\n",
    ),
];

/// Lines of prices that are none: all are 1, they are not one for each device, or one is not from 1 to 1,000 or not spelled
/// as a number. And what comes before and behind the line.
static REFUSALS: [Row; 18] = [
    (
        Text("matrix 2 2 1 1\nprice 1 1\n1\n1\n"),
        "plan m 0",
        2,
        "",
        "status 2 matrix line 2 price\n",
    ),
    (
        Text("matrix 2 2 1 1\nprice 2\n1\n1\n"),
        "plan m 0",
        2,
        "",
        "status 2 matrix line 2 price\n",
    ),
    (
        Text("matrix 2 2 1 1\nprice 2 1 1\n1\n1\n"),
        "plan m 0",
        2,
        "",
        "status 2 matrix line 2 price\n",
    ),
    (
        Text("matrix 2 2 1 1\nprice 2 0\n1\n1\n"),
        "plan m 0",
        2,
        "",
        "status 2 matrix line 2 price\n",
    ),
    (
        Text("matrix 2 2 1 1\nprice 2 1001\n1\n1\n"),
        "plan m 0",
        2,
        "",
        "status 2 matrix line 2 price\n",
    ),
    (
        Text("matrix 2 2 1 1\nprice 2 01\n1\n1\n"),
        "plan m 0",
        2,
        "",
        "status 2 matrix line 2 price\n",
    ),
    (
        Text("matrix 2 2 1 1\nprice 2  1\n1\n1\n"),
        "plan m 0",
        2,
        "",
        "status 2 matrix line 2 price\n",
    ),
    (
        Text("matrix 2 2 1 1\nprice 2 1 \n1\n1\n"),
        "plan m 0",
        2,
        "",
        "status 2 matrix line 2 price\n",
    ),
    (
        Text("matrix 2 2 1 1\nprices 2 1\n1\n1\n"),
        "plan m 0",
        2,
        "",
        "status 2 matrix line 2 price\n",
    ),
    (
        Text("matrix 2 2 1 1\n1\n1\n"),
        "plan m 0",
        2,
        "",
        "status 2 matrix line 2 price\n",
    ),
    (
        Text("matrix 2 4 2 4\nprice 1 1 1 1\n1000\n0100\n0010\n0001\n1010\n0101\n1101\n0110\n"),
        "plan m 0",
        2,
        "",
        "status 2 matrix line 2 price\n",
    ),
    (
        Text("matrix 2 4 2 4\nprice 1 5 1\n1000\n0100\n0010\n0001\n1010\n0101\n1101\n0110\n"),
        "plan m 0",
        2,
        "",
        "status 2 matrix line 2 price\n",
    ),
    (
        Text("matrix 2 4 2 4\nprice 1 0 1 1\n1000\n0100\n0010\n0001\n1010\n0101\n1101\n0110\n"),
        "plan m 0",
        2,
        "",
        "status 2 matrix line 2 price\n",
    ),
    (
        Text("matrix 1 2 1 1\nprice 2 1\n1\n1\n"),
        "plan m 0",
        2,
        "",
        "status 2 matrix line 2 row\n",
    ),
    (
        Text("matrix 2 2 1 129\nprice 0\n"),
        "plan m 0",
        3,
        "",
        "status 3 large columns 129\n",
    ),
    (
        Text("matrix 2 129 1 1\n"),
        "plan m 0",
        3,
        "",
        "status 3 large symbols 129\n",
    ),
    (
        Text("matrix 2 2 1 1\nprice 2 1\n1\n2\n"),
        "plan m 0",
        2,
        "",
        "status 2 matrix line 4 row\n",
    ),
    (
        Text("matrix 2 2 1 1\nprice 2 1\n1\n1\n1\n"),
        "plan m 0",
        2,
        "",
        "status 2 matrix line 5 extra\n",
    ),
];

/// The bytes to mend are those of the members, be their prices what they may. A plan that is handed in, and one that is
/// checked, has the cost of its set: symbol 3 is of device 1.
static REBUILDS: [Case; 3] = [
    Case {
        files: &[("m", P), ("i", Image(HEAD, LOST))],
        report: "plan 1 least\nset 4 5 6 7\n0 = 5 6\n1 = 4 5 6 7\nend\nleast cost 4 work 8\nstripes 1\n",
        taken: [69, 32, 32, 0, 48],
        ..REBUILD
    },
    Case {
        words: &["rebuild", "m", "i", "0", "--plan=p"],
        files: &[("m", P), ("i", Image(HEAD, LOST)), ("p", Text(LEAST))],
        report: "plan 1 given\nset 3 5 6\n0 = 5 6\n1 = 3 5\nend\ngiven cost 7\nstripes 1\n",
        taken: [112, 32, 24, 0, 48],
        ..REBUILD
    },
    Case {
        words: &["check", "m", "0", "p"],
        files: &[("m", P), ("p", Text(LEAST))],
        out: Text("valid 7\n"),
        taken: [112, 0, 0, 0, 0],
        ..ON_RDP_3
    },
];

#[test]
fn prices(rt: HostRuntime) -> Result<(), Fail> {
    check_rows(&rt, rt.alloc(), &PLANS)?;
    check_rows(&rt, rt.alloc(), &REFUSALS)?;
    Ok(check_cases(&rt, rt.alloc(), &REBUILDS)?)
}

/// Each proper prefix of the text is refused at the line that is missing or has no line feed.
#[test]
fn prefixes(rt: HostRuntime) -> Result<(), Fail> {
    let text = TEXT.as_bytes();
    let (mut line, mut is_missing) = (1, true);
    for count in 0..text.len() {
        let fault = if is_missing { "missing" } else { "noend" };
        let report = format!(in rt.alloc(); "status 2 matrix line {line} {fault}\n")?;
        let trial = Trial::bare(rt.alloc())?
            .by(rt.alloc(), "plan m 0")?
            .over(rt.alloc(), "m", &text[..count])?
            .ends(rt.alloc(), 2, b"", report.as_bytes())?
            .takes([count as u64, 0, 0, 0, 0]);
        check_trial(&rt, rt.alloc(), trial)?;
        is_missing = text[count] == b'\n';
        if is_missing && line < 19 {
            line += 1;
        }
    }
    assert_eq!(&rt; line, 11, "the lines of the text");
    Ok(())
}

//! Matrix texts, and the place at which each of the wrong ones is refused.

use mr_fixture::RDP_3;
use mr_runs::Bytes::{Raw, Text};
use mr_runs::{Bytes, Trial, check_trial};
use std::alloc::Global;
use std::test::Fail;
use std::thread::Threads;

/// Wrong first lines.
const HEADS: &str = "matrix 1 04 2 4
matrix 1 4 02 4
matrix 1 4 2 04
matrix 1 0 2 4
matrix 1 4 0 4
matrix 1 4 2 0
matrix 1 4 2 4 5
 matrix 1 4 2 4
matrix 1 4 2 4 
matrix 1 4 2 4\r
matrix  1 4 2 4
matrix 1 4  2 4
matrix 1 4\t2 4
matrix 3 4 2 4
matrix 01 4 2 4
Matrix 1 4 2 4
matrix 1 4 2
matrix 1 +4 2 4
matrix 1 -4 2 4
matrix 1 4.0 2 4
matrix 1 4 2 1000000000
matrix 1 4294967300 2 4
";

/// Texts, the status and what is refused: the first fault, at its line, and numbers above their limits before a row is
/// looked at.
static FAULTS: [(Bytes, u8, &str); 38] = [
    (Text(""), 2, "matrix line 1 missing"),
    (Text("matrix 1 4 2 4"), 2, "matrix line 1 noend"),
    (Text("what"), 2, "matrix line 1 noend"),
    (Text("matrix 1 2 1 2\n"), 2, "matrix line 2 missing"),
    (Text("matrix 1 2 1 2\n10"), 2, "matrix line 2 noend"),
    (Text("matrix 1 2 1 2\nxyz"), 2, "matrix line 2 noend"),
    (Text("matrix 1 2 1 2\n10\n"), 2, "matrix line 3 missing"),
    (Text("matrix 1 2 1 2\n10\n0"), 2, "matrix line 3 noend"),
    (Text("matrix 1 2 1 2\n10\n01"), 2, "matrix line 3 noend"),
    (Text("matrix 1 2 1 2\n10\n01\n\n"), 2, "matrix line 4 extra"),
    (Text("matrix 1 2 1 2\n10\n01\n0"), 2, "matrix line 4 extra"),
    (
        Text("matrix 1 2 1 2\n10\n01\n01\n"),
        2,
        "matrix line 4 extra",
    ),
    (Text("matrix 1 2 1 2\n\n01\n"), 2, "matrix line 2 row"),
    (Text("matrix 1 2 1 2\n1\n01\n"), 2, "matrix line 2 row"),
    (Text("matrix 1 2 1 2\n101\n01\n"), 2, "matrix line 2 row"),
    (Text("matrix 1 2 1 2\n10\r\n01\n"), 2, "matrix line 2 row"),
    (Text("matrix 1 2 1 2\n10\n02\n"), 2, "matrix line 3 row"),
    (Text("matrix 1 2 1 2\n10\n0/\n"), 2, "matrix line 3 row"),
    (Text("matrix 1 2 1 2\n10\n 1\n"), 2, "matrix line 3 row"),
    // The first of two faults.
    (Text("matrix 1 2 1 2\n1x\n01\n01\n"), 2, "matrix line 2 row"),
    (Text("matrix 1 2 1 02\n1x\n01\n"), 2, "matrix line 1 head"),
    // The matrix of row-diagonal parity for 3 with a bad row, without its last line feed or its last line, and with a line
    // or a byte more. And the matrix itself, of which the device is refused.
    (
        Text("matrix 1 4 2 4\n1000\n0200\n0010\n0001\n1010\n0101\n1101\n0110\n"),
        2,
        "matrix line 3 row",
    ),
    (
        Text("matrix 1 4 2 4\n1000\n0100\n0010\n0001\n1010\n0101\n1101\n0110"),
        2,
        "matrix line 9 noend",
    ),
    (
        Text("matrix 1 4 2 4\n1000\n0100\n0010\n0001\n1010\n0101\n1101\n"),
        2,
        "matrix line 9 missing",
    ),
    (
        Text("matrix 1 4 2 4\n1000\n0100\n0010\n0001\n1010\n0101\n1101\n0110\n0110\n"),
        2,
        "matrix line 10 extra",
    ),
    (
        Text("matrix 1 4 2 4\n1000\n0100\n0010\n0001\n1010\n0101\n1101\n0110\n\0"),
        2,
        "matrix line 10 extra",
    ),
    (Text(RDP_3), 4, "device 9"),
    // More symbols or columns than 128.
    (Text("matrix 1 129 1 1\n"), 3, "large symbols 129"),
    (Text("matrix 1 1 129 1\n1\n"), 3, "large symbols 129"),
    (Text("matrix 1 43 3 1\nx\n"), 3, "large symbols 129"),
    (Text("matrix 1 4 2 129\n"), 3, "large columns 129"),
    (
        Text("matrix 1 4 2 999999999\n"),
        3,
        "large columns 999999999",
    ),
    (Text("matrix 1 129 1 129\n"), 3, "large symbols 129"),
    (
        Text("matrix 1 999999999 999999999 1\n"),
        3,
        "large symbols 999999998000000001",
    ),
    // No text at all.
    (Raw(b"\xff\xfe"), 2, "matrix line 1 noend"),
    (Raw(b"\xff\n"), 2, "matrix line 1 head"),
    (Raw(b"\n1000\n"), 2, "matrix line 1 head"),
    (Raw(b"matrix 1 1 1 2\n\xb0\xb1\n"), 2, "matrix line 2 row"),
];

/// Asserts what is refused of the bytes of a matrix file. Device 9 is none, so that a matrix is refused before it.
fn check_fault<T: Threads + Sync>(
    rt: &T,
    alloc: Global,
    bytes: &[u8],
    status: u8,
    fault: &str,
) -> Result<(), Fail> {
    let report = format!(in alloc; "status {status} {fault}\n")?;
    let trial = Trial::bare(alloc)?
        .by(alloc, "plan m 9")?
        .over(alloc, "m", bytes)?
        .ends(alloc, status, b"", report.as_bytes())?
        .takes([bytes.len() as u64, 0, 0, 0, 0]);
    Ok(check_trial(rt, alloc, trial)?)
}

#[test]
fn faults(rt: HostRuntime) -> Result<(), Fail> {
    for (text, status, fault) in &FAULTS {
        let bytes = text.listed(rt.alloc())?;
        check_fault(&rt, rt.alloc(), &bytes, *status, fault)?;
    }
    for head in HEADS.split_inclusive('\n') {
        check_fault(&rt, rt.alloc(), head.as_bytes(), 2, "matrix line 1 head")?;
    }
    Ok(())
}

/// A lost device of the largest matrix, with the budget, the plan, and its line.
static LARGEST: [(&str, &str, &str); 3] = [
    (
        "plan m 0",
        "plan 1 spent\nset 1\n0 = 1\nend\n",
        "spent cost 1 budget 4194304\n",
    ),
    (
        "plan m 0 --budget 33554432",
        "plan 1 spent\nset 1\n0 = 1\nend\n",
        "spent cost 1 budget 33554432\n",
    ),
    (
        "plan m 127",
        "plan 1 spent\nset 0\n127 = 0\nend\n",
        "spent cost 1 budget 4194304\n",
    ),
];

/// The largest matrix: 128 equal rows. The sets of sum zero are too many for any budget.
#[test]
fn largest(rt: HostRuntime) -> Result<(), Fail> {
    let mut matrix = String::from_str(rt.alloc(), "matrix 1 128 1 1\n")?;
    for _ in 0..128 {
        matrix.push_str("1\n")?;
    }
    for (line, out, report) in &LARGEST {
        let trial = Trial::bare(rt.alloc())?
            .by(rt.alloc(), line)?
            .over(rt.alloc(), "m", matrix.as_bytes())?
            .ends(rt.alloc(), 0, out.as_bytes(), report.as_bytes())?
            .takes([273, 0, 0, 0, 0]);
        check_trial(&rt, rt.alloc(), trial)?;
    }
    Ok(())
}

//! The command `make`, and plans for the matrices that it makes.

use crate::tests::rows::{Row, check_rows};
use mr_fixture::{RDP_3, RDP_5, shown};
use mr_io::OpenGate;
use mr_runs::{Bytes, Given, Trial, check_trial, run_by};
use std::alloc::Global;
use std::process::Abort;
use std::test::Fail;
use std::thread::Threads;

/// No file is read.
const NONE: Bytes = Bytes::Text("");

/// The matrix of EVENODD for the prime 3.
const EVENODD_3: &str =
    "matrix 1 5 2 6\n100000\n010000\n001000\n000100\n000010\n000001\n101010\n010101\n100111\n011110\n";

/// Matrices that are made, whole.
static WHOLE: [Row; 4] = [
    (NONE, "make rdp 3", 0, RDP_3, ""),
    (NONE, "make -- rdp 3", 0, RDP_3, ""),
    (NONE, "make evenodd 3", 0, EVENODD_3, ""),
    (NONE, "make rdp 5", 0, RDP_5, ""),
];

/// The words of a maker, the first line of its matrix, a plan for it, what that begins with, and its line. Another program
/// found them from the definitions.
type Made = (
    &'static str,
    &'static str,
    &'static str,
    &'static str,
    &'static str,
);

static MADE: [Made; 8] = [
    (
        "make rdp 3",
        "matrix 1 4 2 4\n",
        "plan m 0",
        "plan 1 least\nset 3 5 6\n0 = 5 6\n1 = 3 5\nend\n",
        "least cost 3 work 12\n",
    ),
    (
        "make rdp 5",
        "matrix 1 6 4 16\n",
        "plan m 5",
        "plan 1 least\nset 0 1 2 3 4 5 6 7 8 9 10 11 12 13 14 15\n20 =",
        "least cost 16 work 9824\n",
    ),
    (
        "make rdp 7",
        "matrix 1 8 6 36\n",
        "plan m 0",
        "plan 1 least\nset 6 7 9 10 11 12 15 16 17 21 22 23 27 28 29 32 33 34 35 37 38 39 40 41 42 43 44\n0 =",
        "least cost 27 work 94208\n",
    ),
    (
        "make rdp 11",
        "matrix 1 12 10 100\n",
        "plan m none",
        "plan 1 least\nset\nend\n",
        "least cost 0 work 0\n",
    ),
    (
        "make evenodd 3",
        "matrix 1 5 2 6\n",
        "plan m 0",
        "plan 1 least\nset 3 4 5 7 8\n0 = 3 4 5 8\n1 = 3 5 7\nend\n",
        "least cost 5 work 20\n",
    ),
    (
        "make evenodd 3",
        "matrix 1 5 2 6\n",
        "plan m 4",
        "plan 1 least\nset 0 1 2 3 4 5\n8 = 0 3 4 5\n9 = 1 2 3 4\nend\n",
        "least cost 6 work 20\n",
    ),
    (
        "make evenodd 5",
        "matrix 1 7 4 20\n",
        "plan m 0",
        "plan 1 least\nset 4 6 7 10 11 13 14 15 16 17 18 19 22 23 24 25\n0 =",
        "least cost 16 work 1840\n",
    ),
    (
        "make evenodd 7",
        "matrix 1 9 6 42\n",
        "plan m 0",
        "plan 1 least\nset 6 7 9 10 11 12 15 16 17 21 22 23 26 27 28 29 31 32 33 34 35 36 37 38 39 40 41 45 46 47 48 49 50\n0 =",
        "least cost 33 work 201664\n",
    ),
];

/// What the words of a line write and report over this matrix, where their status is 0.
fn answer_of<T: Abort + Threads + Sync>(
    rt: &T,
    alloc: Global,
    matrix: &[u8],
    line: &str,
) -> Result<(Vec<u8>, Vec<u8>), Fail> {
    let trial = Trial::bare(alloc)?
        .by(alloc, line)?
        .over(alloc, "m", matrix)?;
    let words = trial.words;
    let given = Given {
        files: trial.files,
        script: trial.script,
        schedule: trial.schedule,
    };
    let ran = run_by(rt, alloc, &words, given, &OpenGate)?;
    assert_eq!(rt; ran.status, 0, "the status of {line}");
    Ok((ran.out, ran.report))
}

/// The matrices that are printed are read back.
#[test]
fn makers(rt: HostRuntime) -> Result<(), Fail> {
    check_rows(&rt, rt.alloc(), &WHOLE)?;
    for (maker, first, line, head, report) in &MADE {
        let (matrix, _) = answer_of(&rt, rt.alloc(), b"", maker)?;
        assert!(&rt;
            matrix.starts_with(first.as_bytes()),
            "{maker} wrote {:?}",
            shown(&matrix)
        );
        let (out, line_of) = answer_of(&rt, rt.alloc(), &matrix, line)?;
        assert!(&rt;
            out.starts_with(head.as_bytes()),
            "{maker}, {line}: {:?}",
            shown(&out)
        );
        assert!(&rt;
            line_of.as_slice() == report.as_bytes(),
            "{maker}, {line}: {:?}",
            shown(&line_of)
        );
    }
    Ok(())
}

/// The least plan for row-diagonal parity for the prime 11 with device 0 lost. Another program found it from the definitions.
const LEAST_11: &str = "plan 1 least
set 10 11 12 13 15 16 17 18 19 20 21 22 25 26 27 28 29 30 31 35 36 37 38 39 40 45 46 47 48 49 55 56 57 58 59 \
65 66 67 68 69 74 75 76 77 78 79 83 84 85 86 87 88 89 92 93 94 95 96 97 98 99 101 102 103 104 105 106 107 108 \
109 110 111 112 113 114
0 = 29 38 47 56 65 74 83 92 101 110
1 = 10 39 48 57 66 75 84 93 102 111
2 = 11 20 49 58 67 76 85 94 103 112
3 = 12 21 30 59 68 77 86 95 104 113
4 = 13 22 31 40 69 78 87 96 105 114
5 = 15 25 35 45 55 65 75 85 95 105
6 = 16 26 36 46 56 66 76 86 96 106
7 = 17 27 37 47 57 67 77 87 97 107
8 = 18 28 38 48 58 68 78 88 98 108
9 = 19 29 39 49 59 69 79 89 99 109
end
";

/// The plan of a larger search than that of `plan` is taken: it is valid, and reads 75 symbols.
#[test]
fn larger_plan(rt: HostRuntime) -> Result<(), Fail> {
    let (matrix, _) = answer_of(&rt, rt.alloc(), b"", "make rdp 11")?;
    let bytes = (matrix.len() + LEAST_11.len()) as u64;
    let trial = Trial::bare(rt.alloc())?
        .by(rt.alloc(), "check m 0 p")?
        .over(rt.alloc(), "m", &matrix)?
        .over(rt.alloc(), "p", LEAST_11.as_bytes())?
        .ends(rt.alloc(), 0, b"valid 75\n", b"")?
        .takes([bytes, 0, 0, 0, 0]);
    check_trial(&rt, rt.alloc(), trial)?;
    Ok(())
}

/// Makers, and the devices of their matrices.
static PAIRS: [(&str, u32); 5] = [
    ("make rdp 3", 4),
    ("make rdp 5", 6),
    ("make rdp 7", 8),
    ("make evenodd 3", 5),
    ("make evenodd 5", 7),
];

/// Each loss of two devices of a maker's matrix is determined.
#[test]
fn two_devices(rt: HostRuntime) -> Result<(), Fail> {
    for (maker, devices) in &PAIRS {
        let devices = *devices;
        let (matrix, _) = answer_of(&rt, rt.alloc(), b"", maker)?;
        for pair in 0..devices * devices {
            let (first, second) = (pair / devices, pair % devices);
            if first < second {
                let line = format!(in rt.alloc(); "plan m {first},{second} --budget 0")?;
                let _answer = answer_of(&rt, rt.alloc(), &matrix, &line)?;
            }
        }
    }
    Ok(())
}

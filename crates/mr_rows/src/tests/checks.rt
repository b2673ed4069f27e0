//! The command `check`: which plans are valid, which are refused, and in which order.

use crate::tests::rows::LEAST;
use mr_runs::Bytes::{Raw, Text};
use mr_runs::{Bytes, Trial, check_trial};
use std::alloc::Global;
use std::process::Abort;
use std::test::Fail;
use std::thread::Threads;

/// The lost devices, the text of a plan, the status, what is written and reported, and the bytes of texts that are read.
type Check = (
    &'static str,
    &'static str,
    u8,
    &'static str,
    &'static str,
    u64,
);

/// Plans that are valid, whatever their kind says, and those of each reason why they are not. The lost devices and symbols
/// are refused before the plan file is opened, and its text before the plan is looked at.
static CHECKS: [Check; 22] = [
    ("0", LEAST, 0, "valid 3\n", "", 98),
    (
        "0",
        "plan 1 given\nset 2 4 7\n0 = 2 4\n1 = 2 7\nend\n",
        0,
        "valid 3\n",
        "",
        98,
    ),
    (
        "0",
        "plan 1 least\nset 2 3 4 5\n0 = 2 4\n1 = 3 5\nend\n",
        0,
        "valid 4\n",
        "",
        100,
    ),
    ("none", "plan 1 spent\nset\nend\n", 0, "valid 0\n", "", 76),
    (
        "0",
        "plan 1 least\nset 1 2 4\n0 = 2 4\n1 = 1\nend\n",
        8,
        "",
        "status 8 plan symbol 1 notsurvivor\n",
        96,
    ),
    (
        "0",
        "plan 1 least\nset 3 5 6\n0 = 5 6\nend\n",
        8,
        "",
        "status 8 plan symbol 1 missing\n",
        90,
    ),
    (
        "0",
        "plan 1 least\nset 3 5 6\n0 = 5 6\n1 = 3 5\n2 = 3\nend\n",
        8,
        "",
        "status 8 plan symbol 2 stray\n",
        104,
    ),
    (
        "0",
        "plan 1 least\nset 3 5 6\n0 = 2 4\n1 = 3 5\nend\n",
        8,
        "",
        "status 8 plan symbol 0 outside\n",
        98,
    ),
    (
        "0",
        "plan 1 least\nset 2 4\n0 = 2 4\n1 = 2 4\nend\n",
        8,
        "",
        "status 8 plan symbol 1 sum\n",
        96,
    ),
    (
        "0",
        "plan 1 least\nset 2 3 4 5 6\n0 = 2 4\n1 = 3 5\nend\n",
        8,
        "",
        "status 8 plan symbol 6 spare\n",
        102,
    ),
    (
        "0",
        "plan 1 least\nset 3 5 6 8 127\n0 = 5 6\n1 = 3 5\nend\n",
        8,
        "",
        "status 8 plan symbol 8 notsurvivor\n",
        104,
    ),
    (
        "0",
        "plan 1 least\nset 3 5 6\n1 = 3 5\nend\n",
        8,
        "",
        "status 8 plan symbol 0 missing\n",
        90,
    ),
    (
        "0",
        "plan 1 least\nset 3 5\n0 =\n1 = 3 5\nend\n",
        8,
        "",
        "status 8 plan symbol 0 sum\n",
        92,
    ),
    // The first of several reasons.
    (
        "0",
        "plan 1 least\nset 0 6\n2 = 3\nend\n",
        8,
        "",
        "status 8 plan symbol 0 notsurvivor\n",
        86,
    ),
    (
        "0",
        "plan 1 least\nset 6\n0 = 3\nend\n",
        8,
        "",
        "status 8 plan symbol 1 missing\n",
        84,
    ),
    (
        "0",
        "plan 1 least\nset 3 5 6 7\n0 = 3\n1 = 2\nend\n",
        8,
        "",
        "status 8 plan symbol 0 sum\n",
        96,
    ),
    (
        "0",
        "plan 1 least\nset 3 5 6 7\n0 = 5 6\n1 = 2\nend\n",
        8,
        "",
        "status 8 plan symbol 1 outside\n",
        98,
    ),
    (
        "0,1",
        "plan 1 given\nset 4 5 6 7\n0 = 5 6\n1 = 4 5 6 7\n2 = 4 5 6\n3 = 4 6 7\nend\n",
        0,
        "valid 4\n",
        "",
        124,
    ),
    ("0,1,4", "bad", 4, "", "status 4 device 4\n", 55),
    (
        "0,1,2",
        "bad",
        7,
        "",
        "status 7 undetermined symbol 0\n",
        55,
    ),
    ("0", "bad", 8, "", "status 8 plan line 1\n", 58),
    (
        "0",
        "plan 1 least\nset 0\nend",
        8,
        "",
        "status 8 plan line 3\n",
        77,
    ),
];

/// Asserts what `check` answers.
fn check_check<T: Threads + Sync>(rt: &T, alloc: Global, check: &Check) -> Result<(), Fail> {
    let (lost, plan, status, out, report, read) = check;
    let line = format!(in alloc; "check m {lost} p")?;
    let trial = Trial::on_rdp_3(alloc)?
        .by(alloc, &line)?
        .over(alloc, "p", plan.as_bytes())?
        .ends(alloc, *status, out.as_bytes(), report.as_bytes())?
        .takes([*read, 0, 0, 0, 0]);
    Ok(check_trial(rt, alloc, trial)?)
}

#[test]
fn checks(rt: HostRuntime) -> Result<(), Fail> {
    for check in &CHECKS {
        check_check(&rt, rt.alloc(), check)?;
    }
    Ok(())
}

/// Texts that are no plan's, and the first bad line of each.
static BAD_LINES: [(Bytes, u32); 37] = [
    (Text("plan 1 best\nset\nend\n"), 1),
    (Text("plan 1 Least\nset\nend\n"), 1),
    (Text("plan 1 least \nset\nend\n"), 1),
    (Text("plan 1  least\nset\nend\n"), 1),
    (Text("plan 2 least\nset\nend\n"), 1),
    (Text("\nplan 1 least\nset\nend\n"), 1),
    (Text("plan 1 least\nset 1 1\nend\n"), 2),
    (Text("plan 1 least\nset 2 1\nend\n"), 2),
    (Text("plan 1 least\nset 01\nend\n"), 2),
    (Text("plan 1 least\nset 128\nend\n"), 2),
    (Text("plan 1 least\nset  1\nend\n"), 2),
    (Text("plan 1 least\nset 1 \nend\n"), 2),
    (Text("plan 1 least\nset 1\r\nend\n"), 2),
    (Text("plan 1 least\nset,1\nend\n"), 2),
    (Text("plan 1 least\nSet 1\nend\n"), 2),
    (Text("plan 1 least\nend\n"), 2),
    (Text("plan 1 least\nset 1\n0 = 1 1\nend\n"), 3),
    (Text("plan 1 least\nset 1\n0 = 3 1\nend\n"), 3),
    (Text("plan 1 least\nset 1\n0 = 128\nend\n"), 3),
    (Text("plan 1 least\nset 1\n0 =1\nend\n"), 3),
    (Text("plan 1 least\nset 1\n0= 1\nend\n"), 3),
    (Text("plan 1 least\nset 1\n0  = 1\nend\n"), 3),
    (Text("plan 1 least\nset 1\n0 = 1 \nend\n"), 3),
    (Text("plan 1 least\nset 1\n00 = 1\nend\n"), 3),
    (Text("plan 1 least\nset 1\n128 = 1\nend\n"), 3),
    (Text("plan 1 least\nset 1\n 0 = 1\nend\n"), 3),
    (Text("plan 1 least\nset 1\n\nend\n"), 3),
    (Text("plan 1 least\nset 1\nend \n"), 3),
    (Text("plan 1 least\nset 1\n4 = 1\n4 = 1\nend\n"), 4),
    (Text("plan 1 least\nset 1\n4 = 1\n3 = 1\nend\n"), 4),
    (Text("plan 1 least\nset 1\n4 = 1\nset 1\nend\n"), 4),
    (Text("plan 1 least\nset 1\nend\n\n"), 4),
    (Text("plan 1 least\nset 1\nend\nx"), 4),
    (Text("plan 1 least\nset 1\n4 = 1\nend\nend\n"), 5),
    // The first of two bad lines.
    (Text("plan 1 least\nset 2 1\n0 = 2 1\nend\n"), 2),
    (Raw(b"\xff"), 1),
    (Raw(b"plan 1 least\nset \xff\nend\n"), 2),
];

/// Asserts that the bytes of a plan file are refused at a line.
fn assert_line<T: Abort + Threads + Sync>(
    rt: &T,
    alloc: Global,
    plan: &[u8],
    line: u32,
) -> Result<(), Fail> {
    let report = format!(in alloc; "status 8 plan line {line}\n")?;
    assert!(rt; plan.len() < 100);
    let trial = Trial::on_rdp_3(alloc)?
        .by(alloc, "check m 0 p")?
        .over(alloc, "p", plan)?
        .ends(alloc, 8, b"", report.as_bytes())?
        .takes([55 + plan.len() as u64, 0, 0, 0, 0]);
    Ok(check_trial(rt, alloc, trial)?)
}

#[test]
fn bad_lines(rt: HostRuntime) -> Result<(), Fail> {
    for (plan, line) in &BAD_LINES {
        let bytes = plan.listed(rt.alloc())?;
        assert_line(&rt, rt.alloc(), &bytes, *line)?;
    }
    Ok(())
}

/// Each proper prefix of a plan text is refused at the line that is missing or has no line feed.
#[test]
fn prefixes(rt: HostRuntime) -> Result<(), Fail> {
    let text = LEAST.as_bytes();
    let mut line = 1;
    for count in 0..text.len() {
        assert_line(&rt, rt.alloc(), &text[..count], line)?;
        if text[count] == b'\n' && line < 9 {
            line += 1;
        }
    }
    assert_eq!(&rt; line, 6, "the lines of the text");
    Ok(())
}

//! A script that is not read, an eye for replies that fails, and a report that does not take the replies.

use mr_runs::Bytes::Text;
use mr_runs::{
    Case, Cut, REBUILD, Trial, Unread, check_case, check_trial, check_unread, check_unreported,
};
use std::test::Fail;

/// Four reads, the second and the fourth of survivors.
const SCRIPT: &str = "0 0\n0 3\n0 0\n0 6\n";

/// A rebuild with these reads. The report has 182 bytes.
static ASKED: Case = Case {
    script: Text(SCRIPT),
    report: "plan 1 least
set 3 5 6
0 = 5 6
1 = 3 5
end
least cost 3 work 12
stripes 1
reply 0 0 0101010101010101
reply 0 3 0808080808080808
reply 0 0 0101010101010101
reply 0 6 0b0b0b0b0b0b0b0b
",
    taken: [55, 32, 24, 16, 48],
    ..REBUILD
};

/// Scripts, the most bytes that a call gives, the call that fails, and what is not yet given then: also the call that would
/// say that the script has ended, and also where what came before is no line.
static SCRIPTS: [(&str, usize, &[u64], usize); 10] = [
    (SCRIPT, 64, &[1], 16),
    (SCRIPT, 64, &[2], 0),
    (SCRIPT, 4, &[1], 16),
    (SCRIPT, 4, &[3], 8),
    (SCRIPT, 4, &[5], 0),
    (SCRIPT, 1, &[2], 15),
    (SCRIPT, 1, &[17], 0),
    ("", 64, &[1], 0),
    ("1 0\n\n", 2, &[3], 1),
    ("1 0\n\n", 8, &[2], 0),
];

#[test]
fn scripts(rt: HostRuntime) -> Result<(), Fail> {
    for (script, most, fails, left) in &SCRIPTS {
        let mut trial = Trial::rebuild(rt.alloc())?
            .asks(rt.alloc(), script.as_bytes())?
            .gives(*most, fails, [0, 1, 0, 0])
            .ends(rt.alloc(), 9, b"", b"status 9 read\n")?
            .takes([55, 32, 0, 0, 0]);
        trial.left = *left;
        check_trial(&rt, rt.alloc(), trial)?;
    }
    Ok(())
}

/// The most bytes that a call of the script gives: it is read as one that gives all at once.
static SLOW: [usize; 6] = [1, 2, 3, 5, 16, 17];

#[test]
fn slow_scripts(rt: HostRuntime) -> Result<(), Fail> {
    for most in &SLOW {
        let trial = Trial::of(rt.alloc(), &ASKED)?.gives(*most, &[], [0; 4]);
        check_trial(&rt, rt.alloc(), trial)?;
    }
    Ok(())
}

/// The eye for the replies is the fourth, and that of the survivors the fifth, which reads last. The call for one fails,
/// before anything is mended, or a read of it: what was read before is counted.
static READS: [Unread; 5] = [
    (&[(4, 0)], [55, 32, 0, 0, 0]),
    (&[(4, 1)], [55, 32, 24, 0, 0]),
    (&[(4, 2)], [55, 32, 24, 8, 0]),
    (&[(5, 0)], [55, 32, 0, 0, 0]),
    (&[(5, 1)], [55, 32, 24, 16, 0]),
];

/// The report has no room for all replies: it ends within one or between two of them.
static CUTS: [Cut; 6] = [
    (75, &[], &[], 75),
    (100, &[], &[], 100),
    (101, &[], &[], 101),
    (128, &[], &[], 128),
    (154, &[], &[], 154),
    (181, &[], &[], 181),
];

#[test]
fn replies(rt: HostRuntime) -> Result<(), Fail> {
    check_case(&rt, rt.alloc(), &ASKED)?;
    check_unread(&rt, rt.alloc(), &ASKED, &READS)?;
    Ok(check_unreported(&rt, rt.alloc(), &ASKED, &CUTS)?)
}

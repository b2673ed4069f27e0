//! Rebuilds by a plan that is handed in.

use mr_fixture::RDP_3;
use mr_runs::Bytes::{Image, Text};
use mr_runs::{
    Bytes, Case, HEAD, LOST, REBUILD, Trial, Unread, WHOLE, check_cases, check_trial, check_unread,
    image_of,
};
use std::test::Fail;

/// The matrix of row-diagonal parity for the prime 3.
const M: Bytes = Text(RDP_3);

/// The image whose device 0 is lost.
const I: Bytes = Image(HEAD, LOST);

/// The lines of valid plans behind the first, their cost, and the bytes of texts and to mend that are taken: the cheapest,
/// another of its cost, one that reads more, and those whose symbols a cheaper one has too.
static VALID: [(&str, u32, u64, u64); 5] = [
    ("set 2 4 7\n0 = 2 4\n1 = 2 7\nend\n", 3, 98, 24),
    ("set 3 5 6\n0 = 5 6\n1 = 3 5\nend\n", 3, 98, 24),
    ("set 2 3 4 5\n0 = 2 4\n1 = 3 5\nend\n", 4, 100, 32),
    ("set 2 3 4 5 7\n0 = 3 4 5 7\n1 = 2 7\nend\n", 5, 106, 40),
    (
        "set 2 3 4 5 6 7\n0 = 2 3 6 7\n1 = 4 5 6 7\nend\n",
        6,
        112,
        48,
    ),
];

/// The report gives each plan as handed in, and each rebuilds the same image.
#[test]
fn valid(rt: HostRuntime) -> Result<(), Fail> {
    let image = image_of(rt.alloc(), HEAD, WHOLE)?;
    for (lines, cost, text, mend) in &VALID {
        let plan = format!(in rt.alloc(); "plan 1 least\n{lines}")?;
        let report = format!(in rt.alloc(); "plan 1 given\n{lines}given cost {cost}\nstripes 1\n")?;
        let trial = Trial::rebuild(rt.alloc())?
            .by(rt.alloc(), "rebuild m i 0 --plan p")?
            .over(rt.alloc(), "p", plan.as_bytes())?
            .ends(rt.alloc(), 0, &image, report.as_bytes())?
            .takes([*text, 32, *mend, 0, 48]);
        check_trial(&rt, rt.alloc(), trial)?;
    }
    Ok(())
}

/// Texts of plans that are refused, and what is said of them: they are none, or not valid for the loss.
static REFUSED: [(&str, &str); 14] = [
    ("", "status 8 plan line 1\n"),
    (
        "plan 1 best\nset 2 4 7\n0 = 2 4\n1 = 2 7\nend\n",
        "status 8 plan line 1\n",
    ),
    (
        "plan 1 least\nset 2 7 4\n0 = 2 4\n1 = 2 7\nend\n",
        "status 8 plan line 2\n",
    ),
    (
        "plan 1 least\nset 2 4 7\n1 = 2 7\n0 = 2 4\nend\n",
        "status 8 plan line 4\n",
    ),
    (
        "plan 1 least\nset 2 4 7\n0 = 2 4\n1 = 2 7\n",
        "status 8 plan line 5\n",
    ),
    (
        "plan 1 least\nset 2 4 7\n0 = 2 4\n1 = 2 7\nend",
        "status 8 plan line 5\n",
    ),
    (
        "plan 1 least\nset 2 4 7\n0 = 2 4\n1 = 2 7\nend\n\n",
        "status 8 plan line 6\n",
    ),
    (
        "plan 1 least\nset 1 2 4\n0 = 2 4\n1 = 1\nend\n",
        "status 8 plan symbol 1 notsurvivor\n",
    ),
    (
        "plan 1 least\nset 2 4 8\n0 = 2 4\n1 = 2 8\nend\n",
        "status 8 plan symbol 8 notsurvivor\n",
    ),
    (
        "plan 1 least\nset 2 4\n0 = 2 4\nend\n",
        "status 8 plan symbol 1 missing\n",
    ),
    (
        "plan 1 least\nset 2 4 7\n0 = 2 4\n1 = 2 7\n3 = 2\nend\n",
        "status 8 plan symbol 3 stray\n",
    ),
    (
        "plan 1 least\nset 2 4\n0 = 2 4\n1 = 2 7\nend\n",
        "status 8 plan symbol 1 outside\n",
    ),
    (
        "plan 1 least\nset 2 4\n0 = 2 4\n1 = 2 4\nend\n",
        "status 8 plan symbol 1 sum\n",
    ),
    (
        "plan 1 least\nset 2 3 4 7\n0 = 2 4\n1 = 2 7\nend\n",
        "status 8 plan symbol 3 spare\n",
    ),
];

/// The image, which is not there, is not asked for.
#[test]
fn refused(rt: HostRuntime) -> Result<(), Fail> {
    for (plan, report) in &REFUSED {
        assert!(&rt; plan.len() < 100);
        let trial = Trial::on_rdp_3(rt.alloc())?
            .by(rt.alloc(), "rebuild m q 0 --plan=p")?
            .over(rt.alloc(), "p", plan.as_bytes())?
            .ends(rt.alloc(), 8, b"", report.as_bytes())?
            .takes([55 + plan.len() as u64, 0, 0, 0, 0]);
        check_trial(&rt, rt.alloc(), trial)?;
    }
    Ok(())
}

/// A plan that is handed in, in 43 bytes.
const PLAN: &str = "plan 1 least\nset 2 4 7\n0 = 2 4\n1 = 2 7\nend\n";

/// A rebuild by it.
const GIVEN: Case = Case {
    words: &["rebuild", "m", "i", "0", "--workers=1", "--plan=p"],
    files: &[("m", M), ("i", I), ("p", Text(PLAN))],
    report: "plan 1 given\nset 2 4 7\n0 = 2 4\n1 = 2 7\nend\ngiven cost 3\nstripes 1\n",
    taken: [98, 32, 24, 0, 48],
    ..REBUILD
};

/// A plan is handed in whatever kind it names, and no set is searched: neither the budget nor the workers change anything.
/// The places may stand anywhere. Where nothing is lost, the plan reads nothing.
static KINDS: [Case; 6] = [
    GIVEN,
    Case {
        words: &["rebuild", "m", "i", "--budget=0", "--plan", "p", "--", "0"],
        ..GIVEN
    },
    Case {
        words: &["rebuild", "--plan=p", "--workers=64", "--", "m", "i", "0"],
        ..GIVEN
    },
    Case {
        files: &[
            ("m", M),
            ("i", I),
            (
                "p",
                Text("plan 1 given\nset 2 4 7\n0 = 2 4\n1 = 2 7\nend\n"),
            ),
        ],
        ..GIVEN
    },
    Case {
        words: &["rebuild", "m", "i", "0", "--plan=p", "--budget=11"],
        files: &[
            ("m", M),
            ("i", I),
            (
                "p",
                Text("plan 1 spent\nset 2 4 7\n0 = 2 4\n1 = 2 7\nend\n"),
            ),
        ],
        ..GIVEN
    },
    Case {
        words: &["rebuild", "m", "i", "none", "--plan", "p"],
        files: &[("m", M), ("i", I), ("p", Text("plan 1 least\nset\nend\n"))],
        out: I,
        report: "plan 1 given\nset\nend\ngiven cost 0\nstripes 1\n",
        taken: [76, 32, 0, 0, 64],
        ..GIVEN
    },
];

/// The calls of the eyes of the plan file, the head, the mender, the replies and the survivors.
static READS: [Unread; 10] = [
    (&[(2, 0)], [55, 0, 0, 0, 0]),
    (&[(2, 1)], [55, 0, 0, 0, 0]),
    (&[(2, 2)], [55, 0, 0, 0, 0]),
    (&[(3, 0)], [98, 0, 0, 0, 0]),
    (&[(3, 1)], [98, 0, 0, 0, 0]),
    (&[(3, 2)], [98, 0, 0, 0, 0]),
    (&[(4, 1)], [98, 32, 0, 0, 0]),
    (&[(4, 3)], [98, 32, 16, 0, 0]),
    (&[(5, 0)], [98, 32, 0, 0, 0]),
    (&[(6, 1)], [98, 32, 24, 0, 0]),
];

/// The rebuild, as a case of its own.
static BY_PLAN: Case = GIVEN;

#[test]
fn given(rt: HostRuntime) -> Result<(), Fail> {
    check_cases(&rt, rt.alloc(), &KINDS)?;
    Ok(check_unread(&rt, rt.alloc(), &BY_PLAN, &READS)?)
}

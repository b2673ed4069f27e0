//! What the words of `table` are answered, whatever the number of workers.

use crate::tests::values::run_words;
use mr_fixture::{RDP_3, shown};
use mr_table::Jobs;
use std::test::Fail;

/// Words, the text of the matrix file `m`, and the status, the answer and the report.
struct Case {
    words: &'static str,
    matrix: &'static str,
    status: u8,
    out: &'static str,
    report: &'static str,
}

/// The table of row-diagonal parity of the prime 3, worked out by listing all sets.
const RDP_3_TABLE: &str = "loss 0 least cost 3 work 12
loss 1 least cost 3 work 16
loss 2 least cost 3 work 16
loss 3 least cost 4 work 20
loss 0,1 least cost 4 work 4
loss 0,2 least cost 4 work 4
loss 0,3 least cost 4 work 4
loss 1,2 least cost 4 work 4
loss 1,3 least cost 4 work 4
loss 2,3 least cost 4 work 4
";

/// Two devices with the same row, and a third that stands alone.
const TWINS_TABLE: &str = "loss 0 least cost 1 work 1
loss 1 least cost 1 work 1
loss 2 undetermined symbol 2
loss 0,1 undetermined symbol 0
loss 0,2 undetermined symbol 2
loss 1,2 undetermined symbol 2
";

static CASES: [Case; 12] = [
    Case {
        words: "table m --workers 1",
        matrix: RDP_3,
        status: 0,
        out: RDP_3_TABLE,
        report: "",
    },
    Case {
        words: "table m --workers 2",
        matrix: RDP_3,
        status: 0,
        out: RDP_3_TABLE,
        report: "",
    },
    Case {
        words: "table --workers=64 m --budget 524288",
        matrix: RDP_3,
        status: 0,
        out: RDP_3_TABLE,
        report: "",
    },
    Case {
        words: "table m --workers 1",
        matrix: "matrix 1 3 1 2\n10\n10\n01\n",
        status: 0,
        out: TWINS_TABLE,
        report: "",
    },
    Case {
        words: "table m --workers 2",
        matrix: "matrix 1 3 1 2\n10\n10\n01\n",
        status: 0,
        out: TWINS_TABLE,
        report: "",
    },
    Case {
        words: "table m --workers 64",
        matrix: "matrix 1 3 1 2\n10\n10\n01\n",
        status: 0,
        out: TWINS_TABLE,
        report: "",
    },
    Case {
        words: "table m --workers 1",
        matrix: "matrix 1 1 1 1\n1\n",
        status: 0,
        out: "loss 0 undetermined symbol 0\n",
        report: "",
    },
    Case {
        words: "table m --workers 2",
        matrix: "matrix 1 1 1 1\n1\n",
        status: 0,
        out: "loss 0 undetermined symbol 0\n",
        report: "",
    },
    Case {
        words: "table m --workers 64",
        matrix: "matrix 1 1 1 1\n1\n",
        status: 0,
        out: "loss 0 undetermined symbol 0\n",
        report: "",
    },
    Case {
        words: "table m --budget 524289",
        matrix: RDP_3,
        status: 1,
        out: "",
        report: "status 1 usage\n",
    },
    Case {
        words: "plan m 0",
        matrix: RDP_3,
        status: 1,
        out: "",
        report: "status 1 usage\n",
    },
    Case {
        words: "table m --budget 0",
        matrix: "matrix 1 2 1 1\n1\n1\n",
        status: 0,
        out: "loss 0 spent cost 1 budget 0\nloss 1 spent cost 1 budget 0\nloss 0,1 undetermined symbol 0\n",
        report: "",
    },
];

#[test]
fn words_are_answered(rt: HostRuntime) -> Result<(), Fail> {
    for case in &CASES {
        let (status, out, report) = run_words(&rt, rt.alloc(), case.words, case.matrix)?;
        assert_eq!(rt; status, case.status);
        assert_eq!(rt; shown(&out), case.out);
        assert_eq!(rt; shown(&report), case.report);
    }
    Ok(())
}

#[test]
fn two_passes_take_two_jobs(rt: HostRuntime) -> Result<(), Fail> {
    let (jobs, mut first) = Jobs::new(&rt, rt.alloc(), 2)?;
    let mut second = jobs.split(&rt, &mut first)?;
    assert_eq!(rt; jobs.take(&rt, &mut first), Some(0));
    assert_eq!(rt; jobs.take(&rt, &mut second), Some(1));
    assert_eq!(rt; jobs.take(&rt, &mut first), None);
    jobs.join(&rt, &mut first, second);
    assert_eq!(rt; jobs.take(&rt, &mut first), None);
    Ok(())
}

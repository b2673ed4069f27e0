//! Reads that may be served while an image is mended, with one worker, with two and with as many as there may be.

use mr_io::OpenGate;
use mr_runs::Bytes::Text;
use mr_runs::{Case, Given, LEAST, REBUILD, Trial, run_by};
use std::test::Fail;

/// Three reads, of which the first and the last are of one lost symbol, and the replies.
pub(crate) const THREE: Case = Case {
    script: Text("0 0\n0 3\n0 0\n"),
    report: "plan 1 least
set 3 5 6
0 = 5 6
1 = 3 5
end
least cost 3 work 12
stripes 1
reply 0 0 0101010101010101
reply 0 3 0808080808080808
reply 0 0 0101010101010101
",
    ..REBUILD
};

/// Reads of survivors alone.
const SURVIVORS: Case = Case {
    script: Text("0 7\n0 3\n"),
    report: "plan 1 least
set 3 5 6
0 = 5 6
1 = 3 5
end
least cost 3 work 12
stripes 1
reply 0 7 0606060606060606
reply 0 3 0808080808080808
",
    ..REBUILD
};

/// Cases with the least bytes that are read for the replies, and the most: the symbol 0 alone is read from the symbols 2
/// and 4.
static READS: [(Case, u64, u64); 8] = [
    (
        Case {
            words: &["rebuild", "m", "i", "0", "--live", "--workers=1"],
            ..THREE
        },
        8,
        40,
    ),
    (
        Case {
            words: &["rebuild", "--live", "m", "i", "0", "--workers=2"],
            ..THREE
        },
        8,
        40,
    ),
    (
        Case {
            words: &["rebuild", "m", "i", "--workers=64", "0", "--live"],
            ..THREE
        },
        8,
        40,
    ),
    (
        Case {
            words: &["rebuild", "m", "i", "0", "--workers=64"],
            ..THREE
        },
        8,
        8,
    ),
    (
        Case {
            words: &["rebuild", "m", "i", "0", "--live", "--workers=1"],
            ..SURVIVORS
        },
        16,
        16,
    ),
    (
        Case {
            words: &["rebuild", "m", "i", "0", "--live", "--workers=64"],
            ..SURVIVORS
        },
        16,
        16,
    ),
    (
        Case {
            words: &["rebuild", "m", "i", "0", "--live"],
            ..REBUILD
        },
        0,
        0,
    ),
    (
        Case {
            words: &["rebuild", "m", "i", "0", "--live", "--workers=64"],
            report: LEAST,
            ..REBUILD
        },
        0,
        0,
    ),
];

#[test]
fn reads_beside_the_menders(rt: HostRuntime) -> Result<(), Fail> {
    for (case, least, most) in &READS {
        let trial = Trial::of(rt.alloc(), case)?;
        let words = trial.words;
        let given = Given {
            files: trial.files,
            script: trial.script,
            schedule: trial.schedule,
        };
        let ran = run_by(&rt, rt.alloc(), &words, given, &OpenGate)?;
        assert_eq!(rt; ran.status, 0);
        assert!(rt; ran.out == trial.out && ran.report == trial.report);
        assert_eq!(rt; ran.faults, [0; 4]);
        let [text, head, mend, live, copy] = ran.taken;
        assert_eq!(rt; [text, head, mend, copy], [55, 32, 24, 48]);
        assert!(rt; *least <= live && live <= *most);
    }
    Ok(())
}

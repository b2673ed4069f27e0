//! Files of the most bytes, which are read, and of more, which are not.

use mr_runs::{Trial, check_trial};
use std::test::Fail;

/// Words, the length of the file `x`, the status and the line, and the bytes of texts that are read.
static LONG: [(&str, usize, u8, &str, u64); 7] = [
    (
        "plan x 9",
        65_536,
        2,
        "status 2 matrix line 1 noend\n",
        65_536,
    ),
    (
        "plan x 9",
        65_537,
        3,
        "status 3 large matrixbytes 65537\n",
        0,
    ),
    (
        "plan x 9",
        70_000,
        3,
        "status 3 large matrixbytes 70000\n",
        0,
    ),
    ("check m 0 x", 65_536, 8, "status 8 plan line 1\n", 65_591),
    (
        "check m 0 x",
        65_537,
        3,
        "status 3 large planbytes 65537\n",
        55,
    ),
    (
        "rebuild m i 0 --plan x",
        65_536,
        8,
        "status 8 plan line 1\n",
        65_591,
    ),
    (
        "rebuild m i 0 --plan x",
        65_537,
        3,
        "status 3 large planbytes 65537\n",
        55,
    ),
];

#[test]
fn long_files(rt: HostRuntime) -> Result<(), Fail> {
    for (line, length, status, report, read) in &LONG {
        let text = vec![in rt.alloc(); b'1'; *length]?;
        let trial = Trial::on_rdp_3(rt.alloc())?
            .by(rt.alloc(), line)?
            .over(rt.alloc(), "x", &text)?
            .ends(rt.alloc(), *status, b"", report.as_bytes())?
            .takes([*read, 0, 0, 0, 0]);
        check_trial(&rt, rt.alloc(), trial)?;
    }
    Ok(())
}

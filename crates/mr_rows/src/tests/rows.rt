//! Rows of tables over one file, the matrix, and the plans that several tables name.

use mr_fixture::RDP_3;
use mr_runs::{Bytes, Trial, check_trial};
use std::alloc::Global;
use std::test::Fail;
use std::thread::Threads;

/// The bytes of the file `m`, which is read whole, the words with a space between each two, the status, what `out` takes,
/// and what the report takes.
pub type Row = (Bytes, &'static str, u8, &'static str, &'static str);

/// The matrix of row-diagonal parity for the prime 3.
pub const M: Bytes = Bytes::Text(RDP_3);

/// The least plan for that matrix with device 0 lost, in 43 bytes.
pub const LEAST: &str = "plan 1 least\nset 3 5 6\n0 = 5 6\n1 = 3 5\nend\n";

/// The plain plan of the same.
pub const PLAIN: &str = "plan 1 spent\nset 2 3 4 5\n0 = 2 4\n1 = 3 5\nend\n";

/// Asserts what each row says.
pub fn check_rows<T: Threads + Sync>(rt: &T, alloc: Global, rows: &[Row]) -> Result<(), Fail> {
    for (matrix, line, status, out, report) in rows {
        let bytes = matrix.listed(alloc)?;
        let trial = Trial::bare(alloc)?
            .by(alloc, line)?
            .over(alloc, "m", &bytes)?
            .ends(alloc, *status, out.as_bytes(), report.as_bytes())?
            .takes([bytes.len() as u64, 0, 0, 0, 0]);
        check_trial(rt, alloc, trial)?;
    }
    Ok(())
}

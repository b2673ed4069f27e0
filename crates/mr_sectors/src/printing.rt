//! The lines of a report, put to a sink.

ghost use Rattle.mr_io.specs.Counts.{HasCause};
ghost use Rattle.mr_io.specs.Taking.{Puts};
ghost use Rattle.mr_sectors.specs.Repairs.{repaired_output};

use crate::repairing::Repaired;
use itoa::Buffer;
use mr_io::{Failed, Sink, put_pieces};

/// Puts the three lines of the report: `patterns` and how many there were, `mended` and how many symbols failed, and
/// `reads` and how many were read for them.
///
/// After `Failed` the sink took a front of the lines that is not all. It takes no memory.
pub fn print_repair<K: Sink>(report: &mut K, repaired: &Repaired) -> Result<(), Failed>
    ensures puts { Puts (K.held report.old) (K.held report.new) result
        (repaired_output repaired.now).report }
    ensures cause { HasCause (K.faults report.old) (K.faults report.new) result }
{
    let (mut first, mut second, mut third) = (Buffer::new(), Buffer::new(), Buffer::new());
    let patterns = first.format(repaired.counts.patterns).as_bytes();
    let mended = second.format(repaired.counts.mended).as_bytes();
    let reads = third.format(repaired.reads).as_bytes();
    put_pieces(
        report,
        &[
            b"patterns ",
            patterns,
            b"\nmended ",
            mended,
            b"\nreads ",
            reads,
            b"\n",
        ],
    )
}

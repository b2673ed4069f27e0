//! The line of the report.

ghost use Rattle.std.specs.Prelude.{◌≡◌};
ghost use Rattle.mr_io.specs.Counts.{HasCause};
ghost use Rattle.mr_io.specs.Taking.{Puts};
ghost use Rattle.mr_gather_run.specs.Tasks.{gather_line, read_bytes, task_in};

use itoa::Buffer;
use mr_gather::Gathering;
use mr_io::{Failed, Sink, put_pieces};

/// Puts the line of what was gathered, as `stripes 8 read 65536`. Takes no memory.
pub(crate) fn put_line<R: Sink>(task: &Gathering, report: &mut R) -> Result<(), Failed>
    ensures puts { Puts (R.held report.old) (R.held report.new) result
        (gather_line (task_in task.now)) }
    ensures cause { HasCause (R.faults report.old) (R.faults report.new) result }
{
    let mut stripes = Buffer::new();
    let mut read = Buffer::new();
    put_pieces(
        report,
        &[
            b"stripes ",
            stripes.format(task.head.stripes()).as_bytes(),
            b" read ",
            read.format(read_bytes(task)).as_bytes(),
            b"\n",
        ],
    )
}

/// The bytes that are read of all devices together.
fn read_bytes(task: &Gathering) -> u64
    ensures { result ≡ read_bytes (task_in task.now) }
{
    let symbol = u64::from(task.set.count()) * u64::from(task.head.bytes());
    u64::from(task.head.stripes()) * symbol
}

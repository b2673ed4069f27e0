//! The lines of the report.

ghost use Rattle.std.specs.Prelude.{◌≡◌, ◌≤◌};
ghost use Rattle.mr_io.specs.Counts.{HasCause, Rose};
ghost use Rattle.mr_io.specs.Taking.{Puts};
ghost use Rattle.mr_steps.specs.Faults.{fault_status};
ghost use Rattle.mr_steps.specs.Sinks.{HasLine};
ghost use Rattle.mr_scatter_run.specs.Tasks.{end_text, scatter_line, stripes_line, task_in, written_bytes};

use crate::end::End;
use crate::task::Ready;
use itoa::Buffer;
use mr_io::{Failed, Sink, put_pieces};
use mr_steps::refuse;

/// Puts the line of what was scattered, as `stripes 8 written 65536`. Takes no memory.
pub(crate) fn put_line<R: Sink>(ready: &Ready, report: &mut R) -> Result<(), Failed>
    ensures puts { Puts (R.held report.old) (R.held report.new) result
        (scatter_line (task_in ready.now)) }
    ensures cause { HasCause (R.faults report.old) (R.faults report.new) result }
{
    let mut stripes = Buffer::new();
    let mut written = Buffer::new();
    put_pieces(
        report,
        &[
            b"stripes ",
            stripes.format(ready.head.stripes()).as_bytes(),
            b" written ",
            written.format(written_bytes(ready)).as_bytes(),
            b"\n",
        ],
    )
}

/// The bytes that are written to all devices together.
fn written_bytes(ready: &Ready) -> u128
    ensures { result ≡ written_bytes (task_in ready.now) }
{
    let part = u128::from(ready.head.w()) * u128::from(ready.head.bytes());
    u128::from(ready.head.stripes()) * (part * ready.lost.len() as u128)
}

/// Writes the lines of a run that ended without its answer, and gives the status. Where they cannot be written the
/// status stays.
pub(crate) fn report_end<R: Sink>(end: End, report: &mut R) -> u8
    ensures status { result ≡ fault_status end.fault }
    ensures line { HasLine (R.held report.old) (R.held report.new)
        (Rose (R.faults report.old) (R.faults report.new)) (end_text end.stripes end.fault) }
    ensures later { R.faults report.old ≤ R.faults report.new }
{
    match end.stripes {
        Some(stripes) => match put_stripes(stripes, report) {
            Ok(()) => refuse(end.fault, report),
            Err(_) => end.fault.status(),
        },
        None => refuse(end.fault, report),
    }
}

/// Puts the line of so many stripes. Takes no memory.
fn put_stripes<R: Sink>(stripes: u32, report: &mut R) -> Result<(), Failed>
    ensures puts { Puts (R.held report.old) (R.held report.new) result (stripes_line stripes) }
    ensures cause { HasCause (R.faults report.old) (R.faults report.new) result }
{
    let mut digits = Buffer::new();
    put_pieces(
        report,
        &[b"stripes ", digits.format(stripes).as_bytes(), b"\n"],
    )
}

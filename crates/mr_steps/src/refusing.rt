//! The end of a run that is refused.

ghost use Rattle.std.specs.Prelude.{◌≡◌, ◌≤◌};
ghost use Rattle.mr_io.specs.Counts.{Rose};
ghost use Rattle.mr_steps.specs.Faults.{fault_line, fault_status};
ghost use Rattle.mr_steps.specs.Sinks.{HasLine};

use crate::fault::Fault;
use mr_io::Sink;

/// Writes the fault's line, and gives its status. Where the line cannot be written the status
/// stays.
pub fn refuse<R: Sink>(fault: Fault, report: &mut R) -> u8
    ensures status { result ≡ fault_status fault }
    ensures line { HasLine (R.held report.old) (R.held report.new)
        (Rose (R.faults report.old) (R.faults report.new)) (fault_line fault) }
    ensures later { R.faults report.old ≤ R.faults report.new }
{
    let _ = fault.print(report);
    fault.status()
}

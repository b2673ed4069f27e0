//! The end of a rebuild: what was made is written.

ghost use Rattle.std.specs.Prelude.{◌≡◌, ◌≤◌, ◌⊎◌, Ok, OnErr, OnOk, length};
ghost use Rattle.mr_image.specs.Rotated.{rotations};
ghost use Rattle.mr_io.specs.Counts.{Rose};
ghost use Rattle.mr_io.specs.Taking.{Takes};
ghost use Rattle.mr_ready.specs.Written.{AreBuffers, output_of};
ghost use Rattle.mr_steps.specs.Sinks.{IsReported, Reports, TakesFront};

use crate::buffers::Buffers;
use crate::orders::Order;
use crate::printing::print_report;
use mr_io::{Failed, Sink, put_all};
use mr_steps::{Fault, refuse};

/// Writes the image to `out`, and then the report. Where `out` fails the line of a failed write goes to `report` in
/// place of its own text. Takes no memory.
pub(crate) fn write_rebuilt<O: Sink, R: Sink>(
    order: &Order,
    buffers: &mut Buffers,
    out: &mut O,
    report: &mut R,
) -> Result<(), Failed>
    requires lines { length order.now.lines.items ≡ rotations order.now.head }
    requires buffers { AreBuffers order.now.head order.now.asks.items buffers.old }
    ensures written { OnOk result
        (Takes (O.held out.old) (O.held out.new) (output_of order.now buffers.old).out
        × Takes (R.held report.old) (R.held report.new) (output_of order.now buffers.old).report) }
    ensures cut { OnErr result
        (TakesFront (O.held out.old) (O.held out.new) (output_of order.now buffers.old).out) }
    ensures reported { OnErr result
        (Reports 10 (Ok (output_of order.now buffers.old)) (O.held out.old) (O.held out.new)
        (R.held report.old) (R.held report.new)
        (Rose (R.faults report.old) (R.faults report.new))) }
    ensures line { OnErr result (IsReported 10 (R.held report.old) (R.held report.new)
        (Rose (R.faults report.old) (R.faults report.new))) }
    ensures cause { OnErr result (Rose (O.faults out.old) (O.faults out.new)
        ⊎ Rose (R.faults report.old) (R.faults report.new)) }
    ensures out_later { O.faults out.old ≤ O.faults out.new }
    ensures report_later { R.faults report.old ≤ R.faults report.new }
    ensures out_quiet { OnOk result (O.faults out.new ≡ O.faults out.old) }
    ensures report_quiet { OnOk result (R.faults report.new ≡ R.faults report.old) }
{
    match put_all(out, &buffers.image) {
        Ok(()) => match print_report(order, &buffers.replies, &mut buffers.line, report) {
            Ok(()) => Ok(()),
            Err(_) => Err(Failed),
        },
        Err(_) => {
            let _status = refuse(Fault::WriteFault, report);
            Err(Failed)
        }
    }
}

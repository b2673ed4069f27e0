//! A rebuild that is ready, carried to its end.

ghost use Rattle.std.specs.Prelude.{◌≡◌, ◌≤◌, ◌⊎◌, All, Any, IfSome, IsErrOf, OnOk, map};
ghost use Rattle.mr_io.specs.Counts.{Rose};
ghost use Rattle.mr_io.specs.Growth.{TakesWithin, taken_by};
ghost use Rattle.mr_ready.specs.Carrying.{CanCarry, image_told};
ghost use Rattle.mr_ready.specs.Duties.{duties_of};
ghost use Rattle.mr_ready.specs.Orders.{parts_of_order};
ghost use Rattle.mr_ready.specs.Reads.{least_reads, most_reads};
ghost use Rattle.mr_steps.specs.Sinks.{IsReported};
ghost use Rattle.mr_ready.specs.Writing.{WritesAll, WritesFront};

use crate::faults::CarryFault;
use crate::mending::{Mended, mend_image};
use crate::ready::Ready;
use crate::writing::write_rebuilt;
use mr_io::{Eye, Gate, Sink};
use mr_kern::XorKernel;
use std::thread::Threads;

/// The eyes, and whether the rebuild was carried to its end.
pub struct Carried<E> {
    /// The eyes, in the order in which they were asked for.
    pub eyes: Vec<E>,
    /// Why the rebuild was not carried to its end, if it was not.
    pub result: Result<(), CarryFault>,
}

/// Mends the image, serves the reads, copies the survivors, and writes the mended image to `out` and the plans, the
/// stripes and the replies to `report`. It takes no memory.
///
/// `Read` comes only where an eye failed, and then nothing was written. `Write` comes only where `out` or `report`
/// failed; where `out` did, the line of that fault went to `report`.
pub fn carry<T: Threads + Sync, E: Eye + Send, O: Sink, R: Sink, G: Gate + Sync>(
    rt: &T,
    ready: Ready<E>,
    out: &mut O,
    report: &mut R,
    gate: &G,
    kernel: &XorKernel,
) -> Carried<E>
    requires { CanCarry E.sight E.faults ready }
    ensures duties { map (λ eye. (E.sight eye).duty) result.eyes.items
        ≡ duties_of ready.order.workers ready.order.live }
    ensures took { OnOk result.result (TakesWithin (taken_by (map E.sight result.eyes.items))
        (least_reads (parts_of_order ready.order)) (most_reads (parts_of_order ready.order))) }
    ensures written { OnOk result.result (IfSome (image_told E.sight ready) (λ bytes.
        WritesAll (parts_of_order ready.order) bytes (O.held out.old) (O.held out.new)
        (R.held report.old) (R.held report.new))) }
    ensures cut { IsErrOf result.result CarryFault.Write → IfSome (image_told E.sight ready) (λ bytes.
        WritesFront (parts_of_order ready.order) bytes (O.held out.old) (O.held out.new)
        (R.held report.old) (R.held report.new)
        (Rose (R.faults report.old) (R.faults report.new))) }
    ensures reported { IsErrOf result.result CarryFault.Write
        → IsReported 10 (R.held report.old) (R.held report.new)
        (Rose (R.faults report.old) (R.faults report.new)) }
    ensures unwritten { IsErrOf result.result CarryFault.Read
        → (out.new ≡ out.old) × (report.new ≡ report.old) }
    ensures read_cause { IsErrOf result.result CarryFault.Read
        → Any (λ eye. Rose 0 (E.faults eye)) result.eyes.items }
    ensures write_cause { IsErrOf result.result CarryFault.Write
        → Rose (O.faults out.old) (O.faults out.new)
        ⊎ Rose (R.faults report.old) (R.faults report.new) }
    ensures eyes_quiet { OnOk result.result (All (λ eye. E.faults eye ≡ 0) result.eyes.items) }
    ensures eyes_kept { IsErrOf result.result CarryFault.Write
        → All (λ eye. E.faults eye ≡ 0) result.eyes.items }
    ensures out_later { O.faults out.old ≤ O.faults out.new }
    ensures report_later { R.faults report.old ≤ R.faults report.new }
    ensures out_quiet { OnOk result.result (O.faults out.new ≡ O.faults out.old) }
    ensures report_quiet { OnOk result.result (R.faults report.new ≡ R.faults report.old) }
{
    let Mended { order, eyes, made } = mend_image(rt, ready, gate, kernel);
    match made {
        Ok(mut made) => match write_rebuilt(&order, &mut made, out, report) {
            Ok(()) => Carried {
                eyes,
                result: Ok(()),
            },
            Err(_) => Carried {
                eyes,
                result: Err(CarryFault::Write),
            },
        },
        Err(_) => Carried {
            eyes,
            result: Err(CarryFault::Read),
        },
    }
}

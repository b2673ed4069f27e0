//! The last step of a rebuild: it is carried to its end, and its eyes are given back.

ghost use Rattle.std.specs.Prelude.{◌≡◌, ◌≤◌, ◌⊎◌, IfSome, option_map};
ghost use Rattle.mr_io.specs.Counts.{Rose};
ghost use Rattle.mr_io.specs.Growth.{GrewWithin};
ghost use Rattle.mr_io.specs.Telling.{told_returning};
ghost use Rattle.mr_ready.specs.Carrying.{CanCarry, image_told};
ghost use Rattle.mr_ready.specs.Orders.{parts_of_order};
ghost use Rattle.mr_ready.specs.Reads.{least_reads, most_reads};
ghost use Rattle.mr_ready.specs.Writing.{WritesAll, WritesFront};
ghost use Rattle.mr_steps.specs.Faults.{fault_line};
ghost use Rattle.mr_steps.specs.Sinks.{HasLine, IsReported};
ghost use Rattle.mr_top.specs.Outcomes.{eyes_held};

use crate::lent::Tools;
use mr_io::{Files, Gate, Sink, retire_all};
use mr_ready::{Carried, CarryFault, Ready, carry};
use mr_steps::{Fault, refuse};
use std::thread::Threads;

/// Carries a rebuild to its end, and gives all its eyes back. Takes no memory.
pub(crate) fn carry_out<T: Threads + Sync, F: Files, O: Sink, R: Sink, G: Gate + Sync>(
    tools: Tools<'_, T, G>,
    files: &mut F,
    ready: Ready<F::E>,
    out: &mut O,
    report: &mut R,
) -> u8
    requires carried { CanCarry F.E.sight F.E.faults ready }
    requires lent { IfSome (F.told files.old) (λ told. eyes_held ready ≤ told.lent) }
    ensures status { (result ≡ 0) ⊎ ((result ≡ 9) ⊎ (result ≡ 10)) }
    ensures told { F.told files.new ≡ option_map (told_returning (eyes_held ready)) (F.told files.old) }
    ensures totals { result ≡ 0 → GrewWithin (F.totals files.old) (F.totals files.new)
        (least_reads (parts_of_order ready.order)) (most_reads (parts_of_order ready.order)) }
    ensures written { result ≡ 0 → IfSome (image_told F.E.sight ready)
        (λ bytes. WritesAll (parts_of_order ready.order) bytes (O.held out.old) (O.held out.new)
        (R.held report.old) (R.held report.new)) }
    ensures cut { result ≡ 10 → IfSome (image_told F.E.sight ready)
        (λ bytes. WritesFront (parts_of_order ready.order) bytes (O.held out.old)
        (O.held out.new) (R.held report.old) (R.held report.new)
        (Rose (R.faults report.old) (R.faults report.new))) }
    ensures untouched { result ≡ 9 → out.new ≡ out.old }
    ensures line { result ≡ 9 → HasLine (R.held report.old) (R.held report.new)
        (Rose (R.faults report.old) (R.faults report.new)) (fault_line Fault.ReadFault) }
    ensures reported { result ≡ 10 → IsReported 10 (R.held report.old) (R.held report.new)
        (Rose (R.faults report.old) (R.faults report.new)) }
    ensures read { result ≡ 9 → Rose (F.faults files.old) (F.faults files.new) }
    ensures write { result ≡ 10
        → Rose (O.faults out.old) (O.faults out.new) ⊎ Rose (R.faults report.old)
        (R.faults report.new) }
    ensures later { F.faults files.old ≤ F.faults files.new }
    ensures out_later { O.faults out.old ≤ O.faults out.new }
    ensures report_later { R.faults report.old ≤ R.faults report.new }
    ensures quiet { result ≡ 0 → F.faults files.new ≡ F.faults files.old }
    ensures out_quiet { result ≡ 0 → O.faults out.new ≡ O.faults out.old }
    ensures report_quiet { result ≡ 0 → R.faults report.new ≡ R.faults report.old }
{
    let Carried { eyes, result } = carry(tools.rt, ready, out, report, tools.gate, tools.kernel);
    retire_all(files, eyes);
    match result {
        Ok(()) => 0,
        Err(CarryFault::Write) => 10,
        Err(CarryFault::Read) => refuse(Fault::ReadFault, report),
    }
}

//! The command.

ghost use Rattle.std.specs.Prelude.{◌≡◌, ◌≢◌, ◌≤◌, ◌⊎◌, IfOk, IfSome, OnErr};
ghost use Rattle.std.specs.Option.{ForSome};
ghost use Rattle.mr_io.specs.Counts.{Rose};
ghost use Rattle.mr_io.specs.Taking.{Takes};
ghost use Rattle.mr_steps.specs.Refusals.{Gave};
ghost use Rattle.mr_steps.specs.Sinks.{IsReported, TakesFront};
ghost use Rattle.mr_steps.specs.Steps.{Grows, IsPastWords, Reads};
ghost use Rattle.mr_gather_run.specs.Answers.{Answers, HasFront};
ghost use Rattle.mr_gather_run.specs.Slots.{HasCauses, IsUntouched};
ghost use Rattle.mr_array_words.specs.Gather.{gather_asked};
ghost use Rattle.mr_gather_run.specs.Tasks.{gather_answer, gather_line, gathered_file, task_in};

use crate::gathering::gather_devices;
use crate::line::put_line;
use crate::task::read_task;
use mr_array_words::GatherWords;
use mr_gather::Gathering;
use mr_io::{Files, Sink};
use mr_steps::{Fault, refuse};
use std::alloc::Global;

/// Answers the words of `gather`: the image file of some stripes goes to `out`, and its line, or that of the refusal, to
/// `report`. The result is the exit status, 0 or that of the fault.
///
/// The matrix, the plan where one is named, and the lengths of all device files are looked at before a byte is written.
/// After a failed read of a device (9) or a failed write (10) a front of the image may be written. Want of memory (11) comes
/// before that.
pub fn gather_image<F: Files, O: Sink, R: Sink>(
    alloc: Global,
    words: &GatherWords,
    files: &mut F,
    out: &mut O,
    report: &mut R,
) -> u8
    // The status, and what the sinks took, is what the words ask for.
    ensures answers { IfSome (F.told files.old)
        (λ told. Answers (gather_asked words.now) told (F.told files.new)
        (Rose (R.faults report.old) (R.faults report.new))
        (Rose (F.faults files.old) (F.faults files.new)
        ⊎ (Rose (O.faults out.old) (O.faults out.new) ⊎ Rose (R.faults report.old)
        (R.faults report.new)))
        (record {
          status = result;
          out_old = O.held out.old;
          out_new = O.held out.new;
          report_old = R.held report.old;
          report_new = R.held report.new;
          totals_old = F.totals files.old;
          totals_new = F.totals files.new;
        })) }
    ensures line { result ≢ 0 → IsReported result (R.held report.old) (R.held report.new)
        (Rose (R.faults report.old) (R.faults report.new)) }

    // Words that were read are not refused as such.
    ensures past_words { result ≢ 1 }

    // After a refusal that is no failed read and no failed write `out` is as it was.
    ensures untouched { result ≢ 0 → result ≢ 9 → result ≢ 10 → out.new ≡ out.old }

    // A failed read and a failed write have their causes.
    ensures read { result ≡ 9 → Rose (F.faults files.old) (F.faults files.new) }
    ensures written { result ≡ 10
        → Rose (O.faults out.old) (O.faults out.new) ⊎ Rose (R.faults report.old)
        (R.faults report.new) }
    ensures later { (F.faults files.old ≤ F.faults files.new)
        × (O.faults out.old ≤ O.faults out.new) × (R.faults report.old ≤ R.faults report.new) }

    // A run that answers 0 met no fault: each count is as it was.
    ensures quiet { result ≡ 0
        → (F.faults files.new ≡ F.faults files.old) × (O.faults out.new ≡ O.faults out.old)
        × (R.faults report.new ≡ R.faults report.old) }
{
    match gather(alloc, words, files, out) {
        Ok(task) => match put_line(&task, report) {
            Ok(()) => 0,
            Err(_) => Fault::WriteFault.status(),
        },
        Err(fault) => refuse(fault, report),
    }
}

/// Puts the image file that the words name.
fn gather<F: Files, O: Sink>(
    alloc: Global,
    words: &GatherWords,
    files: &mut F,
    out: &mut O,
) -> Result<Gathering, Fault>
    ensures reads { Reads task_in (F.told files.old) (F.told files.new) result
        (λ contents. gather_answer contents (gather_asked words.now)) }
    ensures totals { Grows (F.told files.old) (F.totals files.old) (F.totals files.new) result
        (λ contents. gather_answer contents (gather_asked words.now)) }
    ensures put { IfOk result (λ task. ForSome (F.told files.old) (λ told.
        Takes (O.held out.old) (O.held out.new)
        (gathered_file told.contents words.now.devices.items (task_in task)))) }
    ensures cut { OnErr result ((out.new ≡ out.old) ⊎ ForSome (F.told files.old) (λ told.
        Gave (gather_answer told.contents (gather_asked words.now)).result (λ task.
        TakesFront (O.held out.old) (O.held out.new)
        (gathered_file told.contents words.now.devices.items task)))) }
    ensures untouched { IsUntouched result out.old out.new }
    ensures cause { HasCauses (F.faults files.old) (F.faults files.new) (O.faults out.old)
        (O.faults out.new) result }
    ensures past_words { IsPastWords result }
{
    let task = read_task(alloc, files, words)?;
    gather_devices(alloc, files, &words.devices, &task, out)?;
    Ok(task)
}

//! The top call.

ghost use Rattle.std.specs.Prelude.{◌≡◌, ◌≢◌, ◌≤◌, ◌⊎◌, None, Ok, IfSome, drop, map, string_bytes};
ghost use Rattle.mr_io.specs.Counts.{Rose};
ghost use Rattle.mr_io.specs.Taking.{Takes};
ghost use Rattle.mr_least.specs.Answer.{output_of};
ghost use Rattle.mr_least.specs.Answers.{Answers};
ghost use Rattle.mr_least_words.specs.Words.{least_of};
ghost use Rattle.mr_steps.specs.Sinks.{IsReported, Reports, TakesFront};

use crate::answering::{Tools, answer};
use crate::watch::Watch;
use mr_choices::ChosenPlan;
use mr_io::{Files, Sink};
use mr_steps::{Fault, refuse};
use std::alloc::Global;
use std::thread::Threads;

/// Answers the words of the command line, of which the first is the program's name and is not looked
/// at: the plan goes to `out`, and its line, or the line of the refusal, to `report`. The result is the
/// exit status, 0 or that of the fault.
///
/// Everything is read and searched before the first byte is written. After a refusal other than a
/// failed write nothing was written to `out`. Want of memory (11) may come at any step, and ends the
/// run there. The gate changes nothing of the answer.
pub fn run<T: Threads + Sync, F: Files, O: Sink, R: Sink, G: Watch + Sync>(
    rt: &T,
    alloc: Global,
    words: &[String],
    files: &mut F,
    out: &mut O,
    report: &mut R,
    gate: &G,
) -> u8
    // The status, and what the sinks took, is what the words ask for.
    ensures answers { IfSome (F.told files.old)
        (λ told. Answers (map string_bytes words.now) told (F.told files.new)
        (Rose (R.faults report.old) (R.faults report.new))
        (Rose (F.faults files.old) (F.faults files.new)
        ⊎ (Rose (O.faults out.old) (O.faults out.new) ⊎ Rose (R.faults report.old)
        (R.faults report.new)))
        (record {
          status = result;
          out_old = O.held out.old;
          out_new = O.held out.new;
          report_old = R.held report.old;
          report_new = R.held report.new;
          totals_old = F.totals files.old;
          totals_new = F.totals files.new;
        })) }
    ensures line { result ≢ 0 → IsReported result (R.held report.old) (R.held report.new)
        (Rose (R.faults report.old) (R.faults report.new)) }

    // Words that are not read, and no others, are refused as such.
    ensures usage { result ≡ 1 → least_of (drop 1 (map string_bytes words.now)) ≡ None }
    ensures not_read { least_of (drop 1 (map string_bytes words.now)) ≡ None
        → (result ≡ 1) ⊎ (result ≡ 11) }

    // After a refusal `out` is as it was.
    ensures untouched { result ≢ 0 → result ≢ 10 → out.new ≡ out.old }

    // A failed read and a failed write have their causes.
    ensures read { result ≡ 9 → Rose (F.faults files.old) (F.faults files.new) }
    ensures written { result ≡ 10
        → Rose (O.faults out.old) (O.faults out.new) ⊎ Rose (R.faults report.old)
        (R.faults report.new) }
    ensures later { (F.faults files.old ≤ F.faults files.new)
        × (O.faults out.old ≤ O.faults out.new) × (R.faults report.old ≤ R.faults report.new) }

    // A run that answers 0 met no fault: each count is as it was.
    ensures quiet { result ≡ 0
        → (F.faults files.new ≡ F.faults files.old) × (O.faults out.new ≡ O.faults out.old)
        × (R.faults report.new ≡ R.faults report.old) }
{
    let tools = Tools { rt, alloc, gate };
    match answer(&tools, words, files) {
        Ok(chosen) => write_plan(&chosen, out, report),
        Err(fault) => refuse(fault, report),
    }
}

/// Writes a plan to `out` and its line to `report`.
fn write_plan<O: Sink, R: Sink>(chosen: &ChosenPlan, out: &mut O, report: &mut R) -> u8
    ensures status { (result ≡ 0) ⊎ (result ≡ 10) }
    ensures written { result ≡ 0
        → Takes (O.held out.old) (O.held out.new) (output_of chosen.now).out
        × Takes (R.held report.old) (R.held report.new) (output_of chosen.now).report }
    ensures cut { result ≡ 10
        → TakesFront (O.held out.old) (O.held out.new) (output_of chosen.now).out }
    ensures reported { result ≡ 10
        → Reports 10 (Ok (output_of chosen.now)) (O.held out.old) (O.held out.new)
        (R.held report.old) (R.held report.new) (Rose (R.faults report.old) (R.faults report.new)) }
    ensures cause { result ≡ 10
        → Rose (O.faults out.old) (O.faults out.new) ⊎ Rose (R.faults report.old)
        (R.faults report.new) }
    ensures out_later { O.faults out.old ≤ O.faults out.new }
    ensures report_later { R.faults report.old ≤ R.faults report.new }
    ensures out_quiet { result ≡ 0 → O.faults out.new ≡ O.faults out.old }
    ensures report_quiet { result ≡ 0 → R.faults report.new ≡ R.faults report.old }
{
    match chosen.plan.print(out) {
        Ok(()) => match chosen.line.print(report) {
            Ok(()) => 0,
            Err(_) => 10,
        },
        Err(_) => refuse(Fault::WriteFault, report),
    }
}

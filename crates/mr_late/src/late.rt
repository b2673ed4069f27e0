//! The top call of the commands that may wait.

ghost use Rattle.std.specs.Prelude.{◌≡◌, ◌≢◌, ◌≤◌, ◌⊎◌, map, string_bytes, Err, None, IfOk, IfSome};
ghost use Rattle.mr_io.specs.Counts.{Rose};
ghost use Rattle.mr_io.specs.Taking.{Takes};
ghost use Rattle.mr_steps.specs.Faults.{fault_line};
ghost use Rattle.mr_steps.specs.Sinks.{HasLine, IsReported, TakesFront};
ghost use Rattle.mr_steps.specs.Steps.{HasReadCause, Reads};
ghost use Rattle.mr_late.specs.Answers.{Answers};
ghost use Rattle.mr_late.specs.Tables.{CanPrint, answer_to, output_of};
ghost use Rattle.mr_late.specs.Words.{late_words_of};

use crate::printing::print_rows;
use crate::tabled::{Tabled, make_table};
use crate::words::read_late_words;
use mr_io::{Files, Gate, Sink, Source};
use mr_kern::XorKernel;
use mr_steps::{Fault, refuse};
use std::alloc::Global;
use std::sync::Wait;
use std::thread::Threads;

/// Answers the words of the command line, where the command is one that may wait: `table`. What it
/// gives goes to `out`, and the line of a refusal to `report`. The result is the exit status, 0 or
/// that of the fault. All other words are refused as no usage.
///
/// The promise holds where the call returns. Everything is read before the first byte is written.
/// After a refusal other than a failed write nothing was written to `out`. Want of memory (11) may
/// come at any step, and ends the run there. No command of these uses the script or the kernel yet.
pub fn run_waiting<T: Threads + Wait + Sync, F: Files, S: Source, O: Sink, R: Sink, G: Gate + Sync>(
    rt: &T,
    alloc: Global,
    words: &[String],
    files: &mut F,
    _script: &mut S,
    out: &mut O,
    report: &mut R,
    gate: &G,
    _kernel: &XorKernel,
) -> u8
    // The status, and what the sinks took, is what the words ask for.
    ensures answers { IfSome (F.told files.old)
        (λ told. Answers (map string_bytes words.now) told (F.told files.new)
        (Rose (R.faults report.old) (R.faults report.new))
        (Rose (F.faults files.old) (F.faults files.new) ⊎ (Rose (O.faults out.old)
        (O.faults out.new) ⊎ Rose (R.faults report.old) (R.faults report.new)))
        (record {
          status = result;
          out_old = O.held out.old;
          out_new = O.held out.new;
          report_old = R.held report.old;
          report_new = R.held report.new;
        })) }
    ensures line { result ≢ 0 → IsReported result (R.held report.old) (R.held report.new)
        (Rose (R.faults report.old) (R.faults report.new)) }

    // Words that are not read, and no others, are refused as such.
    ensures usage { result ≡ 1 → late_words_of (map string_bytes words.now) ≡ None }
    ensures not_read { late_words_of (map string_bytes words.now) ≡ None
        → (result ≡ 1) ⊎ (result ≡ 11) }

    // After a refusal `out` is as it was.
    ensures untouched { result ≢ 0 → result ≢ 10 → out.new ≡ out.old }

    // A failed read and a failed write have their causes.
    ensures read { result ≡ 9 → Rose (F.faults files.old) (F.faults files.new) }
    ensures written { result ≡ 10
        → Rose (O.faults out.old) (O.faults out.new) ⊎ Rose (R.faults report.old)
        (R.faults report.new) }
    ensures later { (F.faults files.old ≤ F.faults files.new)
        × (O.faults out.old ≤ O.faults out.new) × (R.faults report.old ≤ R.faults report.new) }

    // A run that answers 0 met no fault: each count is as it was.
    ensures quiet { result ≡ 0
        → (F.faults files.new ≡ F.faults files.old) × (O.faults out.new ≡ O.faults out.old)
        × (report.new ≡ report.old) }
    ensures script { _script.new ≡ _script.old }
{
    match answer_words(rt, alloc, words, files, gate) {
        Ok(tabled) => write_table(&tabled, out, report),
        Err(fault) => refuse(fault, report),
    }
}

/// The answer to the words.
fn answer_words<T: Threads + Wait + Sync, F: Files, G: Gate + Sync>(
    rt: &T,
    alloc: Global,
    words: &[String],
    files: &mut F,
    gate: &G,
) -> Result<Tabled, Fault>
    ensures reads { Reads output_of (F.told files.old) (F.told files.new) result
        (λ contents. answer_to (late_words_of (map string_bytes words.now)) contents) }
    ensures ready { IfOk result CanPrint }
    ensures cause { HasReadCause (F.faults files.old) (F.faults files.new) result }
    ensures usage { result ≡ Err Fault.Usage → late_words_of (map string_bytes words.now) ≡ None }
    ensures not_read { late_words_of (map string_bytes words.now) ≡ None
        → (result ≡ Err Fault.Usage) ⊎ (result ≡ Err Fault.Memory) }
{
    let asked = read_late_words(alloc, words)?;
    make_table(rt, alloc, files, gate, &asked)
}

/// Writes a table. Where it cannot be written, the report has the line of that fault.
fn write_table<O: Sink, R: Sink>(table: &Tabled, out: &mut O, report: &mut R) -> u8
    requires { CanPrint table.now }
    ensures status { (result ≡ 0) ⊎ (result ≡ 10) }
    ensures written { result ≡ 0
        → Takes (O.held out.old) (O.held out.new) (output_of table.now).out }
    ensures quiet { result ≡ 0 → (O.faults out.new ≡ O.faults out.old) × (report.new ≡ report.old) }
    ensures cut { result ≡ 10
        → TakesFront (O.held out.old) (O.held out.new) (output_of table.now).out }
    ensures line { result ≡ 10 → HasLine (R.held report.old) (R.held report.new)
        (Rose (R.faults report.old) (R.faults report.new)) (fault_line Fault.WriteFault) }
    ensures cause { result ≡ 10 → Rose (O.faults out.old) (O.faults out.new) }
    ensures later { (O.faults out.old ≤ O.faults out.new)
        × (R.faults report.old ≤ R.faults report.new) }
{
    match print_rows(table, &table.rows, out) {
        Ok(()) => 0,
        Err(_) => refuse(Fault::WriteFault, report),
    }
}

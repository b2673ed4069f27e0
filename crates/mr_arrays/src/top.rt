//! The top call.

ghost use Rattle.std.specs.Prelude.{◌≡◌, ◌≢◌, ◌≤◌, ◌⊎◌, [], None, Some, IfSome, drop, map, string_bytes};
ghost use Rattle.std.specs.Option.{ForSome};
ghost use Rattle.mr_array_words.specs.Gather.{GatherAsked};
ghost use Rattle.mr_array_words.specs.Scatter.{ScatterAsked};
ghost use Rattle.mr_array_words.specs.Words.{array_words_of, to_gather, to_scatter};
ghost use Rattle.mr_gather_run.specs.Answers.{Answers as GatherAnswers};
ghost use Rattle.mr_io.specs.Counts.{Rose};
ghost use Rattle.mr_scatter_run.specs.Answers.{Answers as ScatterAnswers};
ghost use Rattle.mr_steps.specs.Faults.{fault_line};
ghost use Rattle.mr_steps.specs.Sinks.{HasLine};

use mr_array_words::{ArrayWords, read_array_words};
use mr_devices::Devices;
use mr_gather_run::gather_image;
use mr_io::{Files, Sink, Source};
use mr_scatter_run::{Lent, scatter_image};
use mr_steps::{Fault, refuse};
use std::alloc::Global;

/// Answers the words of the command line, of which the first is the program's name and is not looked at. `gather` puts an
/// image of some stripes of an array to `out`, from the device files that there are; `scatter` writes the symbols of the
/// lost devices to their files, from an image that the source gives. The line of what was done, or the lines of the
/// refusal, go to `report`. The result is the exit status, 0 or that of the fault.
///
/// Want of memory (11) may come before the first byte is written, and ends the run there.
pub fn run<F: Files, S: Source, D: Devices, O: Sink, R: Sink>(
    alloc: Global,
    words: &[String],
    lent: &mut Lent<'_, '_, '_, F, S, D>,
    out: &mut O,
    report: &mut R,
) -> u8
    requires none_open { IfSome (D.told lent.old.devices.now) (λ shelf. shelf.opened ≡ []) }
    ensures same_files { lent.new.files.ghost_name ≡ lent.old.files.ghost_name }
    ensures same_source { lent.new.source.ghost_name ≡ lent.old.source.ghost_name }
    ensures same_devices { lent.new.devices.ghost_name ≡ lent.old.devices.ghost_name }

    // What `gather` gives is what its words ask for, and it leaves the source and the devices as they were.
    ensures gathers { (asked : GatherAsked)
        → array_words_of (drop 1 (map string_bytes words.now)) ≡ Some (to_gather asked)
        → IfSome (F.told lent.old.files.now) (λ told. GatherAnswers asked told
        (F.told lent.new.files.now) (Rose (R.faults report.old) (R.faults report.new))
        (Rose (F.faults lent.old.files.now) (F.faults lent.new.files.now)
        ⊎ (Rose (O.faults out.old) (O.faults out.new) ⊎ Rose (R.faults report.old)
        (R.faults report.new)))
        (record {
          status = result;
          out_old = O.held out.old;
          out_new = O.held out.new;
          report_old = R.held report.old;
          report_new = R.held report.new;
          totals_old = F.totals lent.old.files.now;
          totals_new = F.totals lent.new.files.now;
        })) }
    ensures gathers_alone { (asked : GatherAsked)
        → array_words_of (drop 1 (map string_bytes words.now)) ≡ Some (to_gather asked)
        → (lent.new.source.now ≡ lent.old.source.now)
        × (lent.new.devices.now ≡ lent.old.devices.now) }

    // What `scatter` gives is what its words ask for, and it writes nothing to `out`.
    ensures scatters { (asked : ScatterAsked)
        → array_words_of (drop 1 (map string_bytes words.now)) ≡ Some (to_scatter asked)
        → ForSome (F.told lent.old.files.now) (λ told. ForSome (S.left lent.old.source.now) (λ left.
        ForSome (D.told lent.old.devices.now) (λ shelf. ScatterAnswers told.contents left asked shelf
        (Rose (R.faults report.old) (R.faults report.new))
        ((Rose (F.faults lent.old.files.now) (F.faults lent.new.files.now)
        ⊎ Rose (S.faults lent.old.source.now) (S.faults lent.new.source.now))
        ⊎ (Rose (D.faults lent.old.devices.now) (D.faults lent.new.devices.now)
        ⊎ Rose (R.faults report.old) (R.faults report.new)))
        (record {
          status = result;
          report_old = R.held report.old;
          report_new = R.held report.new;
          devices_new = D.told lent.new.devices.now;
        })))) }
    ensures scatters_alone { (asked : ScatterAsked)
        → array_words_of (drop 1 (map string_bytes words.now)) ≡ Some (to_scatter asked)
        → out.new ≡ out.old }

    // Words that are not read, and no others, are refused as such, and the report has the line of it.
    ensures usage { result ≡ 1
        → (array_words_of (drop 1 (map string_bytes words.now)) ≡ None)
        × HasLine (R.held report.old) (R.held report.new)
        (Rose (R.faults report.old) (R.faults report.new)) (fault_line Fault.Usage) }
    ensures not_read { array_words_of (drop 1 (map string_bytes words.now)) ≡ None
        → ((result ≡ 1) ⊎ (result ≡ 11)) × (out.new ≡ out.old)
        × (lent.new.source.now ≡ lent.old.source.now)
        × (lent.new.devices.now ≡ lent.old.devices.now) }

    // A failed read and a failed write have their causes.
    ensures read { result ≡ 9 → Rose (F.faults lent.old.files.now) (F.faults lent.new.files.now)
        ⊎ Rose (S.faults lent.old.source.now) (S.faults lent.new.source.now) }
    ensures written { result ≡ 10
        → Rose (O.faults out.old) (O.faults out.new)
        ⊎ (Rose (D.faults lent.old.devices.now) (D.faults lent.new.devices.now)
        ⊎ Rose (R.faults report.old) (R.faults report.new)) }

    // A run that answers 0 met no fault: each count is as it was.
    ensures quiet { result ≡ 0 → (F.faults lent.new.files.now ≡ F.faults lent.old.files.now)
        × (S.faults lent.new.source.now ≡ S.faults lent.old.source.now)
        × (D.faults lent.new.devices.now ≡ D.faults lent.old.devices.now)
        × (O.faults out.new ≡ O.faults out.old) × (R.faults report.new ≡ R.faults report.old) }
{
    match read_array_words(alloc, words) {
        Ok(ArrayWords::Gather(words)) => gather_image(alloc, &words, lent.files, out, report),
        Ok(ArrayWords::Scatter(words)) => scatter_image(alloc, &words, lent, report),
        Err(error) => refuse(Fault::from(error), report),
    }
}

//! The command.

ghost use Rattle.std.specs.Prelude.{◌≡◌, ◌≢◌, ◌≤◌, ◌⊎◌, [], Err, IfErr, IfOk, IfSome, OnOk, length};
ghost use Rattle.std.specs.Option.{ForSome};
ghost use Rattle.mr_array_words.specs.Scatter.{scatter_asked};
ghost use Rattle.mr_io.specs.Counts.{Rose};
ghost use Rattle.mr_io.specs.Growth.{grown};
ghost use Rattle.mr_io.specs.Telling.{AsksFront};
ghost use Rattle.mr_steps.specs.Steps.{Grows, IsUnread};
ghost use Rattle.mr_steps.specs.TextFiles.{matrix_file};
ghost use Rattle.mr_scatter_run.specs.Answers.{Answers, IsReported};
ghost use Rattle.mr_scatter_run.specs.Ends.{HasEndCauses, Scatters};
ghost use Rattle.mr_scatter_run.specs.Tasks.{numbers_in, task_in};

use crate::end::End;
use crate::lent::Lent;
use crate::lines::{put_line, report_end};
use crate::scattering::scatter_ready;
use crate::task::{Ready, read_task};
use mr_array_words::ScatterWords;
use mr_devices::Devices;
use mr_io::{Files, Sink, Source};
use mr_steps::Fault;
use std::alloc::Global;

/// Answers the words of `scatter`: of the image that the source gives, the symbols of the lost devices go to their places
/// in the device files, and the line, or those of the refusal, to `report`. The result is the exit status, 0 or that of
/// the fault.
///
/// The matrix and the head of the image are read, and all memory but that of the devices is taken, before a device is
/// opened. A fault behind that leaves what was written, and the report counts the stripes of which all parts were.
pub fn scatter_image<F: Files, S: Source, D: Devices, R: Sink>(
    alloc: Global,
    words: &ScatterWords,
    lent: &mut Lent<'_, '_, '_, F, S, D>,
    report: &mut R,
) -> u8
    requires none_open { IfSome (D.told lent.old.devices.now) (λ shelf. shelf.opened ≡ []) }
    requires names { length words.now.devices.items ≡ length (numbers_in words.now.lost) }
    ensures same_files { lent.new.files.ghost_name ≡ lent.old.files.ghost_name }
    ensures same_source { lent.new.source.ghost_name ≡ lent.old.source.ghost_name }
    ensures same_devices { lent.new.devices.ghost_name ≡ lent.old.devices.ghost_name }

    // The status, what the report took, and what the device files hold, is what the words ask for.
    ensures answers { ForSome (F.told lent.old.files.now) (λ told.
        ForSome (S.left lent.old.source.now) (λ left. ForSome (D.told lent.old.devices.now) (λ shelf.
        Answers told.contents left (scatter_asked words.now) shelf
        (Rose (R.faults report.old) (R.faults report.new))
        ((Rose (F.faults lent.old.files.now) (F.faults lent.new.files.now)
        ⊎ Rose (S.faults lent.old.source.now) (S.faults lent.new.source.now))
        ⊎ (Rose (D.faults lent.old.devices.now) (D.faults lent.new.devices.now)
        ⊎ Rose (R.faults report.old) (R.faults report.new)))
        (record {
          status = result;
          report_old = R.held report.old;
          report_new = R.held report.new;
          devices_new = D.told lent.new.devices.now;
        })))) }
    ensures line { result ≢ 0 → IsReported result (R.held report.old) (R.held report.new)
        (Rose (R.faults report.old) (R.faults report.new)) }

    // Words that were read are not refused as such.
    ensures past_words { result ≢ 1 }

    // The eyes asked for are a front of the matrix file's, and each was given back.
    ensures asked { ForSome (F.told lent.old.files.now) (λ told. AsksFront told (F.told lent.new.files.now)
        (matrix_file told.contents words.now.matrix).eyes) }

    // On 0 the bytes of the matrix file were taken, and never any other.
    ensures totals { result ≡ 0 → ForSome (F.told lent.old.files.now) (λ told.
        F.totals lent.new.files.now ≡ grown (F.totals lent.old.files.now)
        (matrix_file told.contents words.now.matrix).taken) }
    ensures unread { IsUnread (F.totals lent.old.files.now) (F.totals lent.new.files.now) }

    // A failed read and a failed write have their causes.
    ensures read { result ≡ 9 → Rose (F.faults lent.old.files.now) (F.faults lent.new.files.now)
        ⊎ Rose (S.faults lent.old.source.now) (S.faults lent.new.source.now) }
    ensures written { result ≡ 10
        → Rose (D.faults lent.old.devices.now) (D.faults lent.new.devices.now)
        ⊎ Rose (R.faults report.old) (R.faults report.new) }
    ensures later { (F.faults lent.old.files.now ≤ F.faults lent.new.files.now)
        × (S.faults lent.old.source.now ≤ S.faults lent.new.source.now)
        × (D.faults lent.old.devices.now ≤ D.faults lent.new.devices.now)
        × (R.faults report.old ≤ R.faults report.new) }

    // A run that answers 0 met no fault: each count is as it was.
    ensures quiet { result ≡ 0 → (F.faults lent.new.files.now ≡ F.faults lent.old.files.now)
        × (S.faults lent.new.source.now ≡ S.faults lent.old.source.now)
        × (D.faults lent.new.devices.now ≡ D.faults lent.old.devices.now)
        × (R.faults report.new ≡ R.faults report.old) }
{
    match scatter_words(alloc, words, lent) {
        Ok(ready) => match put_line(&ready, report) {
            Ok(()) => 0,
            Err(_) => Fault::WriteFault.status(),
        },
        Err(end) => report_end(end, report),
    }
}

/// Scatters what the words name.
fn scatter_words<F: Files, S: Source, D: Devices>(
    alloc: Global,
    words: &ScatterWords,
    lent: &mut Lent<'_, '_, '_, F, S, D>,
) -> Result<Ready, End>
    requires none_open { IfSome (D.told lent.old.devices.now) (λ shelf. shelf.opened ≡ []) }
    requires names { length words.now.devices.items ≡ length (numbers_in words.now.lost) }
    ensures same_files { lent.new.files.ghost_name ≡ lent.old.files.ghost_name }
    ensures same_source { lent.new.source.ghost_name ≡ lent.old.source.ghost_name }
    ensures same_devices { lent.new.devices.ghost_name ≡ lent.old.devices.ghost_name }
    ensures scatters { ForSome (F.told lent.old.files.now) (λ told.
        ForSome (S.left lent.old.source.now) (λ left. ForSome (D.told lent.old.devices.now) (λ shelf.
        Scatters task_in told.contents left (scatter_asked words.now) shelf
        (D.told lent.new.devices.now) result))) }
    ensures asks { ForSome (F.told lent.old.files.now) (λ told. AsksFront told (F.told lent.new.files.now)
        (matrix_file told.contents words.now.matrix).eyes) }
    ensures totals { OnOk result (ForSome (F.told lent.old.files.now) (λ told.
        F.totals lent.new.files.now ≡ grown (F.totals lent.old.files.now)
        (matrix_file told.contents words.now.matrix).taken)) }
    ensures unread { IsUnread (F.totals lent.old.files.now) (F.totals lent.new.files.now) }
    ensures causes { HasEndCauses (Rose (F.faults lent.old.files.now) (F.faults lent.new.files.now)
        ⊎ Rose (S.faults lent.old.source.now) (S.faults lent.new.source.now))
        (Rose (D.faults lent.old.devices.now) (D.faults lent.new.devices.now)) result }
    ensures later { (F.faults lent.old.files.now ≤ F.faults lent.new.files.now)
        × (S.faults lent.old.source.now ≤ S.faults lent.new.source.now)
        × (D.faults lent.old.devices.now ≤ D.faults lent.new.devices.now) }
    ensures quiet { OnOk result ((F.faults lent.new.files.now ≡ F.faults lent.old.files.now)
        × (S.faults lent.new.source.now ≡ S.faults lent.old.source.now)
        × (D.faults lent.new.devices.now ≡ D.faults lent.old.devices.now)) }
{
    match read_task(alloc, words, lent.files, lent.source) {
        Ok(mut ready) => {
            match scatter_ready(&words.devices, &mut ready, lent.source, lent.devices) {
                Ok(()) => Ok(ready),
                Err(end) => Err(end),
            }
        }
        Err(fault) => Err(End {
            stripes: None,
            fault,
        }),
    }
}

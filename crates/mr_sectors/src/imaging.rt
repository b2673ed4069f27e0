//! The repair of an image file.

ghost use Rattle.std.specs.Prelude.{◌≡◌, length};
ghost use Rattle.std.specs.Option.{ForSome};
ghost use Rattle.mr_image.specs.Heads.{file_bytes};
ghost use Rattle.mr_patch.specs.Damages.{IsDamage, IsDetermined, parts_of};
ghost use Rattle.mr_steps.specs.Steps.{Grows, HasReadCause, IsPastWords, Reads};
ghost use Rattle.mr_sectors.specs.Repairs.{IsReady, budget_in, repaired_output};
ghost use Rattle.mr_sectors.specs.Steps.{repair_answer};

use crate::repairing::{Repair, Repaired};
use mr_io::{Duty, Files, Gate, Text};
use mr_patch::Patching;
use mr_steps::Fault;

/// The bytes of the patched image file, and what the report says of it, by two eyes on the image file: one that mends and
/// one that copies. Both are given back on each way out.
///
/// It answers `ReadFault` where an eye was not lent or a read failed, and `Memory` where there is none for an eye or for a
/// plan.
pub fn repaired_image<F: Files, G: Gate>(
    files: &mut F,
    image: &Text,
    repair: Repair,
    patching: &Patching<'_, G>,
) -> Result<Repaired, Fault>
    requires damage { IsDamage (parts_of patching.now.damage) }
    requires determined { IsDetermined (parts_of patching.now.damage) }
    requires ready { IsReady (parts_of patching.now.damage) repair }
    requires file { ForSome (F.told files.old) (λ told. length (told.contents image.now)
        ≡ file_bytes patching.now.damage.head.now) }
    ensures reads { Reads repaired_output (F.told files.old) (F.told files.new) result
        (λ contents. repair_answer contents image.now (parts_of patching.now.damage)
        (budget_in repair)) }
    ensures totals { Grows (F.told files.old) (F.totals files.old) (F.totals files.new) result
        (λ contents. repair_answer contents image.now (parts_of patching.now.damage)
        (budget_in repair)) }
    ensures cause { HasReadCause (F.faults files.old) (F.faults files.new) result }
    ensures past_words { IsPastWords result }
{
    let name = image.as_str();
    let mut mend_eye = files.eye(name, Duty::Mend)?;
    match files.eye(name, Duty::Copy) {
        Ok(eye) => {
            let mut copy_eye = eye;
            let repaired = repair.carry(&mut mend_eye, &mut copy_eye, patching);
            files.retire(copy_eye);
            files.retire(mend_eye);
            match repaired {
                Ok(repaired) => Ok(repaired),
                Err(error) => Err(Fault::from(error)),
            }
        }
        Err(error) => {
            files.retire(mend_eye);
            Err(Fault::from(error))
        }
    }
}

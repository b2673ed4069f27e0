//! The command `sectors`.

ghost use Rattle.std.specs.Prelude.{◌≡◌};
ghost use Rattle.mr_patch.specs.Damages.{IsDamage, parts_of};
ghost use Rattle.mr_steps.specs.Steps.{Grows, HasReadCause, IsPastWords, Reads};
ghost use Rattle.mr_top.specs.ImagesRead.{HasFile};
ghost use Rattle.mr_top.specs.Replies.{output_of};
ghost use Rattle.mr_top.specs.SectorsSteps.{determined_answer, sectors_answer};

use crate::damage_read::read_damage;
use crate::lent::Lent;
use crate::reply::Reply;
use mr_io::{Files, Gate, Source, Text};
use mr_patch::{Damage, Patching};
use mr_sectors::{Repair, repaired_image};
use mr_steps::Fault;
use mr_survey::{UndeterminedIn, survey};
use mr_words::SectorsWords;

/// The image file in which the symbols of the lost devices and those of a list are mended, each stripe by the
/// plan of its own pattern. The image may be of either version.
///
/// Whether each stripe is determined is seen before anything of the image behind its head is read.
pub(crate) fn sectors<T, F: Files, S: Source, G: Gate>(
    lent: &mut Lent<'_, '_, '_, T, F, S, G>,
    words: &SectorsWords,
) -> Result<Reply, Fault>
    ensures same_files { lent.new.files.ghost_name ≡ lent.old.files.ghost_name }
    ensures same_script { lent.new.script.ghost_name ≡ lent.old.script.ghost_name }
    ensures kept { lent.new.script.now ≡ lent.old.script.now }
    ensures reads { Reads output_of (F.told lent.old.files.now) (F.told lent.new.files.now) result
        (λ contents. sectors_answer contents words.now) }
    ensures totals { Grows (F.told lent.old.files.now) (F.totals lent.old.files.now)
        (F.totals lent.new.files.now) result (λ contents. sectors_answer contents words.now) }
    ensures cause { HasReadCause (F.faults lent.old.files.now)
        (F.faults lent.new.files.now) result }
    ensures past_words { IsPastWords result }
{
    let read = read_damage(lent.tools.alloc, lent.files, words)?;
    let kernel = *lent.tools.kernel;
    let damage = Damage {
        matrix: &read.matrix,
        head: &read.head,
        lost: read.lost,
        sectors: &read.sectors,
    };
    let patching = Patching {
        damage,
        alloc: lent.tools.alloc,
        kernel: &kernel,
        gate: lent.tools.gate,
    };
    repaired(lent.files, &words.image, words.budget, &patching)
}

/// The repaired image file, where what can be read of each stripe determines the rest.
fn repaired<F: Files, G: Gate>(
    files: &mut F,
    image: &Text,
    budget: u32,
    patching: &Patching<'_, G>,
) -> Result<Reply, Fault>
    requires damage { IsDamage (parts_of patching.now.damage) }
    requires file { HasFile (F.told files.old) image.now patching.now.damage.head.now }
    ensures reads { Reads output_of (F.told files.old) (F.told files.new) result
        (λ contents. determined_answer contents image.now budget (parts_of patching.now.damage)) }
    ensures totals { Grows (F.told files.old) (F.totals files.old) (F.totals files.new) result
        (λ contents. determined_answer contents image.now budget (parts_of patching.now.damage)) }
    ensures cause { HasReadCause (F.faults files.old) (F.faults files.new) result }
    ensures past_words { IsPastWords result }
{
    if let Err(UndeterminedIn { stripe, symbol }) = survey(&patching.damage) {
        return Err(Fault::UndeterminedIn { stripe, symbol });
    }
    let repair = Repair::new(patching.alloc, &patching.damage, budget)?;
    let repaired = repaired_image(files, image, repair, patching)?;
    Ok(Reply::Sectors { repaired })
}

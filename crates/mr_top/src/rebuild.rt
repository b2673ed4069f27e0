//! The command `rebuild`.

ghost use Rattle.std.specs.Prelude.{◌≡◌, ◌+◌, ◌^◌, ◌<◌, length, All, IfOk};
ghost use Rattle.mr_image.specs.Rotated.{rotations};
ghost use Rattle.mr_io.specs.Reading.{ReadsFront};
ghost use Rattle.mr_mend.specs.Rotations.{AreValidPlans};
ghost use Rattle.mr_mend.specs.Scripts.{IsInRange, script_limit};
ghost use Rattle.mr_top.specs.Rebuild.{image_accepted, lines_used, plans_used, singles_used};
ghost use Rattle.mr_top.specs.RebuildSteps.{parts_of, rebuild_answer, rebuild_by};
ghost use Rattle.mr_top.specs.ImagesRead.{HasFile, IsImageRead};
ghost use Rattle.mr_top.specs.Outcomes.{IsHeld, finding_of, told_after};
ghost use Rattle.mr_words.specs.Texts.{IsWorkers};
ghost use Rattle.mr_steps.specs.Steps.{EndsScript, FollowsWith, HasReadCause, HasReadCauses, IsPastWords, IsUnread, KeepsUnless, Reads};

use crate::asking::asks_in;
use crate::image_read::{ImageRead, read_image};
use crate::lent::Lent;
use crate::outcome::Outcome;
use mr_bits::NoMemory;
use mr_choices::{Choosing, ChosenPlans, plans_of, singles_of};
use mr_eq::Singles;
use mr_io::{Files, Gate, Source};
use mr_mend::Ask;
use mr_ready::Ready;
use mr_steps::Fault;
use mr_words::RebuildWords;
use std::thread::Threads;

/// An image file with the symbols of the lost devices rebuilt, by the plan of a plan file where one
/// is named, and else by the plans that the search gives, one for each rotation in use, each within
/// the budget. The script is read before the search begins.
pub(crate) fn rebuild<T: Threads + Sync, F: Files, S: Source, G: Gate + Sync>(
    lent: &mut Lent<'_, '_, '_, T, F, S, G>,
    words: &RebuildWords,
) -> Result<Outcome<F::E>, Fault>
    requires workers { IsWorkers words.now.workers }
    ensures same_files { lent.new.files.ghost_name ≡ lent.old.files.ghost_name }
    ensures same_script { lent.new.script.ghost_name ≡ lent.old.script.ghost_name }
    ensures follows { FollowsWith (finding_of F.E.sight) (F.told lent.old.files.now)
        (told_after result (F.told lent.new.files.now)) (F.totals lent.old.files.now)
        (F.totals lent.new.files.now) (S.left lent.old.script.now) result
        (λ contents left. rebuild_answer contents left words.now) }
    ensures held { IfOk result (IsHeld F.E.sight F.E.faults (F.told lent.new.files.now)) }
    ensures unread { IsUnread (F.totals lent.old.files.now) (F.totals lent.new.files.now) }
    ensures ended { EndsScript (S.left lent.old.script.now) (S.left lent.new.script.now) result }
    ensures script_front { ReadsFront (S.left lent.old.script.now) (S.left lent.new.script.now)
        (script_limit + 1) }
    ensures kept { KeepsUnless (F.told lent.old.files.now)
        (λ contents. image_accepted contents words.now)
        lent.old.script.now lent.new.script.now }
    ensures cause { HasReadCauses (F.faults lent.old.files.now) (F.faults lent.new.files.now)
        (S.faults lent.old.script.now) (S.faults lent.new.script.now) result }
    ensures past_words { IsPastWords result }
{
    let read = read_image(lent.tools.alloc, lent.files, words)?;
    let asks = asks_in(lent.tools.alloc, lent.script, &read.head)?;
    rebuild_read(lent, words, read, asks)
}

/// The same, where all was read up to the script, which asks for these reads: all memory is taken
/// and all eyes are asked for before the first byte of the image is read behind its head.
fn rebuild_read<T: Threads + Sync, F: Files, S: Source, G: Gate + Sync>(
    lent: &mut Lent<'_, '_, '_, T, F, S, G>,
    words: &RebuildWords,
    read: ImageRead,
    asks: Vec<Ask>,
) -> Result<Outcome<F::E>, Fault>
    requires workers { IsWorkers words.now.workers }
    requires read { IsImageRead read }
    requires long { HasFile (F.told lent.old.files.now) words.now.image read.head }
    requires asks { All (IsInRange read.head) asks.items }
    requires few { length asks.items < 2 ^ 32 }
    ensures same_files { lent.new.files.ghost_name ≡ lent.old.files.ghost_name }
    ensures same_script { lent.new.script.ghost_name ≡ lent.old.script.ghost_name }
    ensures kept { lent.new.script.now ≡ lent.old.script.now }
    ensures reads { Reads (finding_of F.E.sight) (F.told lent.old.files.now)
        (told_after result (F.told lent.new.files.now)) result
        (λ contents. rebuild_by contents words.now (parts_of read) asks.items) }
    ensures held { IfOk result (IsHeld F.E.sight F.E.faults (F.told lent.new.files.now)) }
    ensures totals { F.totals lent.new.files.now ≡ F.totals lent.old.files.now }
    ensures cause { HasReadCause (F.faults lent.old.files.now)
        (F.faults lent.new.files.now) result }
    ensures past_words { IsPastWords result }
{
    let head = read.head;
    let choosing = Choosing {
        rt: lent.tools.rt,
        gate: lent.tools.gate,
        alloc: lent.tools.alloc,
        budget: words.budget,
        workers: words.workers,
    };
    let singles = singles_for(&choosing, &read, words.live)?;
    let chosen = plans_for(&choosing, read)?;
    let ChosenPlans { plans, lines } = chosen;
    match Ready::make(
        lent.tools.alloc,
        lent.files,
        words.image.as_str(),
        head,
        plans,
        lines,
        singles,
        asks,
        words.workers,
        words.live,
    ) {
        Ok(ready) => Ok(Outcome::Ready(ready)),
        Err(error) => Err(Fault::from(error)),
    }
}

/// The single equations of the lost symbols in each rotation in use, each within the budget, where
/// the reads are served while the image is mended. After that none is needed.
fn singles_for<T: Threads + Sync, G: Gate + Sync>(
    choosing: &Choosing<T, G>,
    read: &ImageRead,
    live: bool,
) -> Result<Vec<Singles>, NoMemory>
    requires { IsImageRead read.now }
    ensures { IfOk result (λ singles. singles.items ≡ singles_used read.now.matrix read.now.lost
        choosing.now.budget (rotations read.now.head) live) }
{
    if live {
        singles_of(
            choosing,
            &read.head,
            &read.matrix,
            read.lost,
            &read.problems,
        )
    } else {
        Ok(Vec::new(choosing.alloc))
    }
}

/// The plan that was handed in, or those that the search gives, one for each rotation in use, each
/// within the budget.
fn plans_for<T: Threads + Sync, G: Gate + Sync>(
    choosing: &Choosing<T, G>,
    read: ImageRead,
) -> Result<ChosenPlans, NoMemory>
    requires workers { IsWorkers choosing.now.workers }
    requires read { IsImageRead read }
    ensures plans { IfOk result (λ chosen. chosen.plans ≡ plans_used read.matrix read.lost
        choosing.now.budget (rotations read.head) read.handed) }
    ensures lines { IfOk result (λ chosen. chosen.lines.items ≡ lines_used read.matrix read.lost
        choosing.now.budget (rotations read.head) read.handed) }
    ensures count { IfOk result
        (λ chosen. length chosen.lines.items ≡ rotations read.head) }
    ensures valid { IfOk result
        (λ chosen. AreValidPlans read.head read.matrix read.lost chosen.plans) }
{
    let ImageRead {
        matrix,
        lost,
        problems,
        handed,
        head,
    } = read;
    match handed {
        Some(chosen) => ChosenPlans::of_one(choosing.alloc, chosen),
        None => plans_of(choosing, &head, &matrix, lost, &problems),
    }
}

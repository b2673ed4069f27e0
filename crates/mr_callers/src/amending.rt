//! All calls on the stripes of an image.

ghost use Rattle.std.specs.Prelude.{◌≡◌, ◌*◌, ◌^◌, ◌<◌, ◌≤◌, length, All, IfOk, IfSome, IsErrOf, OnOk};
ghost use Rattle.mr_model.specs.Members.{members};
ghost use Rattle.mr_io.specs.Counts.{Rose};
ghost use Rattle.mr_io.specs.Sights.{sight_with};
ghost use Rattle.mr_image.specs.Images.{image_of as stripes_of};
ghost use Rattle.mr_image.specs.Rotated.{FitsCode};
ghost use Rattle.mr_image.specs.Sights.{HasImage, IsSameFile};
ghost use Rattle.mr_plan.specs.PlanLists.{recipes_at};
ghost use Rattle.mr_mend.specs.Mending.{copied_set};
ghost use Rattle.mr_kept.specs.Kept.{AreAmendable};
ghost use Rattle.mr_ops.specs.Ops.{IsOpOf};
ghost use Rattle.mr_history.specs.Histories.{OpensWith, PartsFit, names_of};
ghost use Rattle.mr_locks.specs.Rule.{first_view};
ghost use Rattle.mr_locks.specs.Seats.{names};
ghost use Rattle.mr_amend.specs.Callers.{AreTermsOf, IsCallerOf, view};
ghost use Rattle.mr_account.specs.Endings.{IsEndingOf, account_of};
ghost use Rattle.mr_account.specs.Lines.{MayPrint, image_of, report_of};

use crate::crews::Crew;
use crate::running::run_jobs;
use crate::tasks::Task;
use mr_account::Ending;
use mr_amend::{Job, Opened};
use mr_bits::NoMemory;
use mr_history::{Server, Terms};
use mr_io::{Eye, FilesError, Gate};
use mr_kern::XorKernel;
use std::alloc::Global;
use std::sync::Wait;
use std::thread::Threads;

/// What came of the calls on an image, and what they went by.
#[derive(Drop)]
pub struct Amended {
    /// What the calls went by.
    pub terms: Terms,
    /// The stripes with their histories, and the places and the replies of the asks.
    pub ending: Ending,
}

/// Makes all asks, and mends all stripes of an image, by twice this many callers, each in a thread of its own.
///
/// The asks and the stripes are dealt out to the callers by turns. The first half of the callers make their asks first and
/// then mend, and the others mend first. Each caller passes the gate at `Held` when it has taken a stripe, and at `Left`
/// when it has given it back. It reads each symbol without a recipe once, and takes all its memory before the threads
/// start. It answers `Memory` for want of memory, and `Failed` where a read failed.
pub fn amend_image<R: Threads + Wait + Sync, E: Eye, G: Gate + Sync>(
    rt: &R,
    alloc: Global,
    eye: &mut E,
    job: Job,
    kernel: &XorKernel,
    workers: u32,
    gate: &G,
) -> Result<Amended, FilesError>
    requires workers { (1 ≤ workers) × (workers ≤ 64) }
    requires eye { HasImage job.head (E.sight eye.old) }
    requires plans { AreAmendable job.head job.plans }
    requires code { FitsCode job.head job.matrix }
    requires ops { All (IsOpOf job.head job.matrix.columns) job.ops.items }
    requires small { length job.ops.items < 2 ^ 31 }
    ensures terms { IfOk result (λ done. AreTermsOf job done.terms) }
    ensures parts { IfOk result (λ done. PartsFit (names_of done.terms)) }
    ensures opening { IfOk result (λ done. IfSome (E.sight eye.old).bytes (λ bytes.
        OpensWith (stripes_of job.head bytes) (names_of done.terms))) }
    ensures ending { IfOk result (λ done.
        IsEndingOf (names_of done.terms) (2 * workers) done.ending) }
    ensures printed { IfOk result (λ done. MayPrint (names_of done.terms) (2 * workers)
        (image_of (names_of done.terms) (account_of done.ending))
        (report_of (names_of done.terms) (account_of done.ending))) }
    ensures taken { OnOk result (E.sight eye.new ≡ sight_with (E.sight eye.old)
        (job.head.stripes * (length (members (copied_set job.head (recipes_at job.plans 0)))
        * job.head.symbol_bytes))) }
    ensures file { IsSameFile (E.sight eye.old) (E.sight eye.new) }
    ensures later { E.faults eye.old ≤ E.faults eye.new }
    ensures quiet { OnOk result (E.faults eye.new ≡ E.faults eye.old) }
    ensures cause { IsErrOf result FilesError.Failed
        → Rose (E.faults eye.old) (E.faults eye.new) }
{
    let opened = Opened::of(alloc, eye, job)?;
    let Ok(amended) = amend_opened(rt, alloc, opened, kernel, workers, gate) else {
        return Err(FilesError::Memory);
    };
    Ok(amended)
}

/// Makes all asks, and mends all stripes of an image that was opened.
fn amend_opened<R: Threads + Wait + Sync, G: Gate + Sync>(
    rt: &R,
    alloc: Global,
    opened: Opened,
    kernel: &XorKernel,
    workers: u32,
    gate: &G,
) -> Result<Amended, NoMemory>
    requires workers { (1 ≤ workers) × (workers ≤ 64) }
    requires names { names opened.amend.locks ≡ names_of opened.terms }
    requires first { IsCallerOf opened.amend opened.first }
    requires view { view opened.first ≡ first_view (names_of opened.terms) }
    ensures terms { IfOk result (λ done. done.terms ≡ opened.terms) }
    ensures ending { IfOk result (λ done.
        IsEndingOf (names_of opened.terms) (2 * workers) done.ending) }
{
    let Opened {
        terms,
        amend,
        first,
    } = opened;
    let callers = amend.callers(alloc, first, 2 * workers)?;
    let mut crew = Crew::of(alloc, callers, terms.head.bytes() as usize)?;
    let server = Server {
        terms: &terms,
        kernel,
    };
    let task = Task {
        amend: &amend,
        server: &server,
        gate,
    };
    run_jobs(rt, &task, crew.jobs.as_mut_slice());
    let ending = crew.finish(amend);
    Ok(Amended { terms, ending })
}

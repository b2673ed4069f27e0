//! The stripes of an image behind an eye.

ghost use Rattle.std.specs.Prelude.{◌≡◌, ◌*◌, ◌^◌, ◌<◌, ◌≤◌, length, All, IfOk, IfSome, IsErrOf, OnOk};
ghost use Rattle.mr_model.specs.Members.{members};
ghost use Rattle.mr_io.specs.Counts.{Rose};
ghost use Rattle.mr_io.specs.Sights.{sight_with};
ghost use Rattle.mr_image.specs.Images.{image_of};
ghost use Rattle.mr_image.specs.Rotated.{FitsCode};
ghost use Rattle.mr_image.specs.Sights.{HasImage, IsSameFile};
ghost use Rattle.mr_plan.specs.PlanLists.{recipes_at};
ghost use Rattle.mr_mend.specs.Mending.{copied_set};
ghost use Rattle.mr_kept.specs.Kept.{AreAmendable};
ghost use Rattle.mr_ops.specs.Ops.{IsOpOf};
ghost use Rattle.mr_history.specs.Histories.{OpensWith, PartsFit, names_of};
ghost use Rattle.mr_locks.specs.Rule.{first_view};
ghost use Rattle.mr_locks.specs.Seats.{names};

use crate::amend::Amend;
use crate::caller::Caller;
use mr_bits::Matrix;
use mr_history::Terms;
use mr_image::ImageHead;
use mr_io::{Eye, FilesError};
use mr_kept::read_stripes;
use mr_ops::Op;
use mr_plan::Plans;
use std::alloc::Global;
use std::snapshot::Snapshot;

/// What is to be done with an image.
#[derive(Drop)]
pub struct Job {
    /// The head of the image.
    pub head: ImageHead,
    /// The matrix of the code, whose devices move on by one with each stripe of an image of version 2.
    pub matrix: Matrix,
    /// The plans of the stripes.
    pub plans: Plans,
    /// What is asked of the stripes.
    pub ops: Vec<Op>,
}

/// An image whose stripes were read.
#[derive(Drop)]
pub struct Opened {
    /// What the calls go by.
    pub terms: Terms,
    /// The stripes, each under its lock.
    pub amend: Amend,
    /// The caller that owns each ask and each stripe.
    pub first: Caller,
}

impl Opened {
    ghost use Rattle.mr_amend.specs.Callers.{AreTermsOf, IsCallerOf, view};

    /// The stripes of an image, each under its lock. It reads each symbol without a recipe once.
    ///
    /// For a moment it holds the bytes twice. It answers `Memory` for want of memory, and `Failed` where a read failed.
    pub fn of<E: Eye>(alloc: Global, eye: &mut E, job: Job) -> Result<Opened, FilesError>
        requires eye { HasImage job.head (E.sight eye.old) }
        requires plans { AreAmendable job.head job.plans }
        requires code { FitsCode job.head job.matrix }
        requires ops { All (IsOpOf job.head job.matrix.columns) job.ops.items }
        requires small { length job.ops.items < 2 ^ 31 }
        ensures terms { IfOk result (λ opened. AreTermsOf job opened.terms) }
        ensures parts { IfOk result (λ opened. PartsFit (names_of opened.terms)) }
        ensures opening { IfOk result (λ opened. IfSome (E.sight eye.old).bytes (λ bytes.
            OpensWith (image_of job.head bytes) (names_of opened.terms))) }
        ensures names { IfOk result (λ opened.
            names opened.amend.locks ≡ names_of opened.terms) }
        ensures first { IfOk result (λ opened. IsCallerOf opened.amend opened.first) }
        ensures view { IfOk result (λ opened.
            view opened.first ≡ first_view (names_of opened.terms)) }
        ensures taken { OnOk result (E.sight eye.new ≡ sight_with (E.sight eye.old)
            (job.head.stripes * (length (members (copied_set job.head (recipes_at job.plans 0)))
            * job.head.symbol_bytes))) }
        ensures file { IsSameFile (E.sight eye.old) (E.sight eye.new) }
        ensures later { E.faults eye.old ≤ E.faults eye.new }
        ensures quiet { OnOk result (E.faults eye.new ≡ E.faults eye.old) }
        ensures cause { IsErrOf result FilesError.Failed
            → Rose (E.faults eye.old) (E.faults eye.new) }
    {
        let Job {
            head,
            matrix,
            plans,
            ops,
        } = job;
        let stripes = read_stripes(alloc, eye, &head, &plans)?;
        let terms = Terms {
            head,
            matrix,
            plans,
            image: Snapshot::of(&stripes),
            ops,
        };
        let Ok((amend, first)) = Amend::new(alloc, &terms, stripes) else {
            return Err(FilesError::Memory);
        };
        Ok(Opened {
            terms,
            amend,
            first,
        })
    }
}

use crate::counting::{Counts, counts_of};
use mr_bits::NoMemory;
use mr_cache::{MOST_PLANS, PlanCache};
use mr_io::{Eye, FilesError, Gate};
use mr_patch::{Damage, PatchRoom, Patched, Patching, patch};
use std::alloc::Global;

/// A repair that is ready: what it comes to, and its memory but for that of the plans.
#[derive(Drop)]
pub struct Repair {
    pub(crate) cache: PlanCache,
    pub(crate) room: PatchRoom,
    pub(crate) counts: Counts,
}

/// What a repair gives.
#[derive(Drop)]
pub struct Repaired {
    /// The bytes of the patched image file.
    pub image: Vec<u8>,
    /// How many patterns there were, and how many symbols failed.
    pub counts: Counts,
    /// How many symbols were read for those that failed.
    pub reads: u64,
}

impl Repair {
    ghost use Rattle.std.specs.Prelude.{◌≡◌, ◌*◌, ◌≤◌, ◌⊎◌, IfOk, IfSome, IsErrOf, OnOk, Some};
    ghost use Rattle.mr_io.specs.Counts.{Rose};
    ghost use Rattle.mr_io.specs.Sights.{sight_with};
    ghost use Rattle.mr_image.specs.Sights.{HasImage, IsSameFile};
    ghost use Rattle.mr_patch.specs.Damages.{IsDamage, IsDetermined, copy_reads, parts_of, set_reads};
    ghost use Rattle.mr_sectors.specs.Repairs.{IsReady, budget_in, repair_output, repaired_output};

    /// Makes a repair ready, with plans within this budget. It takes all memory but that of the plans, of which there are at
    /// most 64 at a time, and reads nothing.
    pub fn new(alloc: Global, damage: &Damage, budget: u32) -> Result<Repair, NoMemory>
        requires { IsDamage (parts_of damage.now) }
        ensures ready { IfOk result (IsReady (parts_of damage.now)) }
        ensures budget { IfOk result (λ repair. budget_in repair ≡ budget) }
    {
        let counts = counts_of(alloc, damage)?;
        Ok(Repair {
            cache: PlanCache::new(alloc, damage.matrix, budget, MOST_PLANS)?,
            room: PatchRoom::new(alloc, damage.head)?,
            counts,
        })
    }

    /// The bytes of the patched image file, and what the report says of it.
    ///
    /// `mend_eye` reads in each stripe the symbols of the set of its plan, and `copy_eye` those that do not fail, each once.
    /// The gate is passed at `Planned` for each plan that is made; with at most 64 patterns each plan is made once.
    ///
    /// It answers `Failed` where a read failed, and `Memory` where there is none for a plan.
    pub fn carry<E: Eye, G: Gate>(
        self,
        mend_eye: &mut E,
        copy_eye: &mut E,
        patching: &Patching<'_, G>,
    ) -> Result<Repaired, FilesError>
        requires mend_eye { HasImage patching.now.damage.head.now (E.sight mend_eye.old) }
        requires copy_eye { HasImage patching.now.damage.head.now (E.sight copy_eye.old) }
        requires damage { IsDamage (parts_of patching.now.damage) }
        requires determined { IsDetermined (parts_of patching.now.damage) }
        requires ready { IsReady (parts_of patching.now.damage) self }
        ensures repaired { IfOk result (λ repaired. IfSome (E.sight mend_eye.old).bytes
            (λ bytes. (E.sight copy_eye.old).bytes ≡ Some bytes → repaired_output repaired
            ≡ repair_output (parts_of patching.now.damage) (budget_in self) bytes)) }
        ensures mend_taken { OnOk result (E.sight mend_eye.new ≡ sight_with (E.sight mend_eye.old)
            (set_reads (parts_of patching.now.damage) (budget_in self)
            patching.now.damage.head.now.stripes * patching.now.damage.head.now.symbol_bytes)) }
        ensures copy_taken { OnOk result (E.sight copy_eye.new ≡ sight_with (E.sight copy_eye.old)
            (copy_reads (parts_of patching.now.damage) patching.now.damage.head.now.stripes
            * patching.now.damage.head.now.symbol_bytes)) }
        ensures mend_file { IsSameFile (E.sight mend_eye.old) (E.sight mend_eye.new) }
        ensures copy_file { IsSameFile (E.sight copy_eye.old) (E.sight copy_eye.new) }
        ensures mend_later { E.faults mend_eye.old ≤ E.faults mend_eye.new }
        ensures copy_later { E.faults copy_eye.old ≤ E.faults copy_eye.new }
        ensures mend_quiet { OnOk result (E.faults mend_eye.new ≡ E.faults mend_eye.old) }
        ensures copy_quiet { OnOk result (E.faults copy_eye.new ≡ E.faults copy_eye.old) }
        ensures cause { IsErrOf result FilesError.Failed
            → Rose (E.faults mend_eye.old) (E.faults mend_eye.new)
            ⊎ Rose (E.faults copy_eye.old) (E.faults copy_eye.new) }
    {
        let Repair {
            mut cache,
            room,
            counts,
        } = self;
        let Patched { image, reads } = patch(mend_eye, copy_eye, &mut cache, patching, room)?;
        Ok(Repaired {
            image,
            counts,
            reads,
        })
    }
}

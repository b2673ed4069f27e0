//! The whole image, patched.

ghost use Rattle.std.specs.Prelude.{◌≡◌, ◌*◌, ◌≤◌, ◌⊎◌, IfOk, IfSome, IsErrOf, OnOk, Some};
ghost use Rattle.mr_io.specs.Counts.{Rose};
ghost use Rattle.mr_io.specs.Sights.{sight_with};
ghost use Rattle.mr_image.specs.Sights.{HasImage, IsSameFile};
ghost use Rattle.mr_cache.specs.Cache.{IsSameCache, budget_of, code_of};
ghost use Rattle.mr_patch.specs.Damages.{IsDamage, IsDetermined, copy_reads, parts_of, patched_file, set_reads};
ghost use Rattle.mr_patch.specs.Rooms.{IsRoomFor};

use crate::copying::copy_others;
use crate::damage::Patching;
use crate::mending::mend_failed;
use crate::rooms::PatchRoom;
use mr_cache::PlanCache;
use mr_io::{Eye, Failed, FilesError, Gate};
use mr_mend::print_head;

/// What a patching makes.
#[derive(Drop)]
pub struct Patched {
    /// The bytes of the image file.
    pub image: Vec<u8>,
    /// How many symbols were read for those that fail.
    pub reads: u64,
}

/// The bytes of the image file in which each symbol that fails is mended by the plan of its stripe's own pattern, and the
/// others are as they are.
///
/// `mend_eye` reads in each stripe the symbols of the set of its plan, and `copy_eye` those that do not fail, each once.
/// The plans are those of the cache, which is of the matrix of the damage; the gate is passed at `Planned` for each that
/// is made.
///
/// It answers `Failed` where a read failed, and `Memory` where there is none for a plan. All other memory is the room.
pub fn patch<E: Eye, G: Gate>(
    mend_eye: &mut E,
    copy_eye: &mut E,
    cache: &mut PlanCache,
    patching: &Patching<'_, G>,
    room: PatchRoom,
) -> Result<Patched, FilesError>
    requires mend_eye { HasImage patching.now.damage.head.now (E.sight mend_eye.old) }
    requires copy_eye { HasImage patching.now.damage.head.now (E.sight copy_eye.old) }
    requires matrix { code_of cache.old ≡ patching.now.damage.matrix.now }
    requires damage { IsDamage (parts_of patching.now.damage) }
    requires determined { IsDetermined (parts_of patching.now.damage) }
    requires room { IsRoomFor patching.now.damage.head.now room }
    ensures patched { IfOk result (λ patched. IfSome (E.sight mend_eye.old).bytes (λ bytes.
        (E.sight copy_eye.old).bytes ≡ Some bytes → patched.image.items
        ≡ patched_file (parts_of patching.now.damage) (budget_of cache.old) bytes)) }
    ensures reads { IfOk result (λ patched. patched.reads
        ≡ set_reads (parts_of patching.now.damage) (budget_of cache.old)
        patching.now.damage.head.now.stripes) }
    ensures mend_taken { OnOk result (E.sight mend_eye.new ≡ sight_with (E.sight mend_eye.old)
        (set_reads (parts_of patching.now.damage) (budget_of cache.old)
        patching.now.damage.head.now.stripes * patching.now.damage.head.now.symbol_bytes)) }
    ensures copy_taken { OnOk result (E.sight copy_eye.new ≡ sight_with (E.sight copy_eye.old)
        (copy_reads (parts_of patching.now.damage) patching.now.damage.head.now.stripes
        * patching.now.damage.head.now.symbol_bytes)) }
    ensures cache { IsSameCache cache.old cache.new }
    ensures mend_file { IsSameFile (E.sight mend_eye.old) (E.sight mend_eye.new) }
    ensures copy_file { IsSameFile (E.sight copy_eye.old) (E.sight copy_eye.new) }
    ensures mend_later { E.faults mend_eye.old ≤ E.faults mend_eye.new }
    ensures copy_later { E.faults copy_eye.old ≤ E.faults copy_eye.new }
    ensures mend_quiet { OnOk result (E.faults mend_eye.new ≡ E.faults mend_eye.old) }
    ensures copy_quiet { OnOk result (E.faults copy_eye.new ≡ E.faults copy_eye.old) }
    ensures cause { IsErrOf result FilesError.Failed
        → Rose (E.faults mend_eye.old) (E.faults mend_eye.new)
        ⊎ Rose (E.faults copy_eye.old) (E.faults copy_eye.new) }
{
    let _within_the_limits = patching.damage.head.bytes();
    let _code = patching.damage.matrix.shape();
    let PatchRoom {
        mut image,
        mut stripe,
    } = room;
    print_head(patching.damage.head, &mut image);
    let reads = mend_failed(mend_eye, cache, patching, &mut stripe, &mut image)?;
    match copy_others(copy_eye, &patching.damage, &mut image) {
        Ok(()) => Ok(Patched { image, reads }),
        Err(Failed) => Err(FilesError::Failed),
    }
}

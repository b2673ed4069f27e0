//! The mending of all stripes, each by the plan of its pattern.

ghost use Rattle.std.specs.Prelude.{◌≡◌, ◌*◌, ◌<◌, ◌≤◌, length, take, IfOk, IfSome, IsErrOf, OnOk};
ghost use Rattle.mr_bits.specs.Matrices.{IsMatrixCode};
ghost use Rattle.mr_model.specs.Members.{members};
ghost use Rattle.mr_io.specs.Counts.{HasCause, Rose};
ghost use Rattle.mr_io.specs.Sights.{sight_with};
ghost use Rattle.mr_image.specs.Images.{image_of};
ghost use Rattle.mr_image.specs.Heads.{file_bytes};
ghost use Rattle.mr_image.specs.Sights.{HasImage, IsSameFile};
ghost use Rattle.mr_mend.specs.Mending.{HoldsMended, IsMendable};
ghost use Rattle.mr_cache.specs.Cache.{IsSameCache, budget_of, code_of};
ghost use Rattle.mr_patch.specs.Damages.{IsDamage, IsDetermined, parts_of, recipes_at, set_reads};
ghost use Rattle.mr_patch.specs.Mending.{HoldsRebuilt, KeepsStripes};
ghost use Rattle.mr_patch.specs.Rooms.{stripe_room};

use crate::damage::{Patching, Planned};
use crate::planning::{find_plan, pattern_of};
use mr_cache::PlanCache;
use mr_io::{Eye, Failed, FilesError, Gate};
use mr_mend::{mend_stripe, put_symbols};
use mr_sector::next_pattern;

/// Puts each symbol that fails, mended by the plan of its stripe's pattern, to its place in `image`, which has the bytes
/// of the whole file. It answers how many symbols it read.
///
/// It reads each symbol of the set of the stripe's plan once in each stripe. `room` has the bytes of one stripe and of
/// one symbol more. It answers `Failed` where a read failed, and `Memory` where there is none for a plan; `image` is then
/// of no use.
pub(crate) fn mend_failed<E: Eye, G: Gate>(
    eye: &mut E,
    cache: &mut PlanCache,
    patching: &Patching<'_, G>,
    room: &mut [u8],
    image: &mut [u8],
) -> Result<u64, FilesError>
    requires eye { HasImage patching.now.damage.head.now (E.sight eye.old) }
    requires matrix { code_of cache.old ≡ patching.now.damage.matrix.now }
    requires damage { IsDamage (parts_of patching.now.damage) }
    requires determined { IsDetermined (parts_of patching.now.damage) }
    requires room { length room.old ≡ stripe_room patching.now.damage.head.now }
    requires image { length image.old ≡ file_bytes patching.now.damage.head.now }
    ensures mended { OnOk result (IfSome (E.sight eye.old).bytes (λ bytes.
        HoldsMended patching.now.damage.head.now
        (recipes_at (parts_of patching.now.damage) (budget_of cache.old))
        (image_of patching.now.damage.head.now bytes) image.new)) }
    ensures front { OnOk result (take 32 image.new ≡ take 32 image.old) }
    ensures reads { IfOk result (λ reads. reads ≡ set_reads (parts_of patching.now.damage)
        (budget_of cache.old) patching.now.damage.head.now.stripes) }
    ensures taken { OnOk result (E.sight eye.new ≡ sight_with (E.sight eye.old)
        (set_reads (parts_of patching.now.damage) (budget_of cache.old)
        patching.now.damage.head.now.stripes * patching.now.damage.head.now.symbol_bytes)) }
    ensures cache { IsSameCache cache.old cache.new }
    ensures file { IsSameFile (E.sight eye.old) (E.sight eye.new) }
    ensures later { E.faults eye.old ≤ E.faults eye.new }
    ensures quiet { OnOk result (E.faults eye.new ≡ E.faults eye.old) }
    ensures cause { IsErrOf result FilesError.Failed → Rose (E.faults eye.old) (E.faults eye.new) }
{
    let damage = &patching.damage;
    let _within_the_limits = damage.matrix.shape();
    let mut left = damage.sectors;
    let mut reads = 0;
    for stripe in 0..damage.head.stripes() {
        let (failed, later) = next_pattern(damage.lost, left, stripe);
        left = later;
        if failed.is_empty() {
            continue;
        }
        find_plan(cache, patching, stripe, pattern_of(damage, stripe, failed))?;
        let planned = Planned {
            stripe,
            plan: cache.front(),
        };
        mend_planned(eye, patching, &planned, room, image)?;
        reads += u64::from(planned.plan.set().count());
    }
    Ok(reads)
}

/// Puts the symbols of one stripe that have a recipe in its plan, mended, to their places.
fn mend_planned<E: Eye, G>(
    eye: &mut E,
    patching: &Patching<'_, G>,
    planned: &Planned,
    room: &mut [u8],
    image: &mut [u8],
) -> Result<(), FilesError>
    requires eye { HasImage patching.now.damage.head.now (E.sight eye.old) }
    requires plan { IsMendable patching.now.damage.head.now planned.now.plan.now }
    requires stripe { planned.now.stripe < patching.now.damage.head.now.stripes }
    requires room { length room.old ≡ stripe_room patching.now.damage.head.now }
    requires image { length image.old ≡ file_bytes patching.now.damage.head.now }
    ensures mended { OnOk result (IfSome (E.sight eye.old).bytes (λ bytes.
        HoldsRebuilt patching.now.damage.head.now planned.now.plan.now.recipes planned.now.stripe
        (image_of patching.now.damage.head.now bytes) image.new)) }
    ensures kept { OnOk result (KeepsStripes patching.now.damage.head.now planned.now.stripe
        image.old image.new) }
    ensures taken { OnOk result (E.sight eye.new ≡ sight_with (E.sight eye.old)
        (length (members planned.now.plan.now.set) * patching.now.damage.head.now.symbol_bytes)) }
    ensures file { IsSameFile (E.sight eye.old) (E.sight eye.new) }
    ensures later { E.faults eye.old ≤ E.faults eye.new }
    ensures quiet { OnOk result (E.faults eye.new ≡ E.faults eye.old) }
    ensures cause { IsErrOf result FilesError.Failed → Rose (E.faults eye.old) (E.faults eye.new) }
{
    let head = patching.damage.head;
    let Planned { stripe, plan } = *planned;
    let size = head.bytes() as usize;
    let (buf, slots) = room.split_at_mut(size);
    let lost = &mut slots[..plan.recipes().len() * size];
    match mend_stripe(eye, head, plan, patching.kernel, stripe, buf, lost) {
        Ok(()) => {
            put_symbols(head, plan.recipes(), stripe, lost, image);
            Ok(())
        }
        Err(Failed) => Err(FilesError::Failed),
    }
}

//! The copying of the symbols that do not fail.

ghost use Rattle.std.specs.Prelude.{◌≡◌, ◌*◌, length, IfSome, OnOk};
ghost use Rattle.mr_io.specs.Counts.{HasCause};
ghost use Rattle.mr_io.specs.Sights.{sight_with};
ghost use Rattle.mr_image.specs.Images.{image_of};
ghost use Rattle.mr_image.specs.Heads.{file_bytes};
ghost use Rattle.mr_image.specs.Sights.{HasImage, IsSameFile};
ghost use Rattle.mr_patch.specs.Damages.{IsDamage, IsDetermined, copy_reads, parts_of};
ghost use Rattle.mr_patch.specs.Copying.{HoldsOthers, KeepsFailed};

use crate::damage::Damage;
use mr_io::{Eye, Failed};
use mr_mend::copy_stripe;
use mr_sector::next_pattern;

/// Reads each symbol that does not fail to its place in `image`, which has the bytes of the whole file.
///
/// Each is read once, and the symbols that fail stay as they are. It takes no memory. A read that fails is answered at
/// once.
pub(crate) fn copy_others<E: Eye>(
    eye: &mut E,
    damage: &Damage,
    image: &mut [u8],
) -> Result<(), Failed>
    requires eye { HasImage damage.now.head.now (E.sight eye.old) }
    requires damage { IsDamage (parts_of damage.now) }
    requires image { length image.old ≡ file_bytes damage.now.head.now }
    ensures copied { OnOk result (IfSome (E.sight eye.old).bytes (λ bytes.
        HoldsOthers (parts_of damage.now) (image_of damage.now.head.now bytes) image.new)) }
    ensures kept { OnOk result (KeepsFailed (parts_of damage.now) image.old image.new) }
    ensures taken { OnOk result (E.sight eye.new ≡ sight_with (E.sight eye.old)
        (copy_reads (parts_of damage.now) damage.now.head.now.stripes
        * damage.now.head.now.symbol_bytes)) }
    ensures file { IsSameFile (E.sight eye.old) (E.sight eye.new) }
    ensures cause { HasCause (E.faults eye.old) (E.faults eye.new) result }
{
    let all = damage.matrix.all();
    let _within_the_limits = damage.matrix.shape();
    let mut left = damage.sectors;
    for stripe in 0..damage.head.stripes() {
        let (failed, later) = next_pattern(damage.lost, left, stripe);
        left = later;
        copy_stripe(eye, damage.head, all.minus(failed), stripe, image)?;
    }
    Ok(())
}

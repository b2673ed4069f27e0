//! The bytes of each stripe of an image.

ghost use Rattle.std.specs.Prelude.{◌≡◌, ◌*◌, ◌≤◌, length, map, All, IfOk, IfSome, IsErrOf, OnErr, OnOk};
ghost use Rattle.std.specs.List.{range_with_len};
ghost use Rattle.mr_model.specs.Members.{members};
ghost use Rattle.mr_io.specs.Counts.{HasCause, Rose};
ghost use Rattle.mr_io.specs.Sights.{sight_with};
ghost use Rattle.mr_image.specs.Images.{image_of};
ghost use Rattle.mr_image.specs.Heads.{file_bytes};
ghost use Rattle.mr_image.specs.Sights.{HasImage, IsSameFile};
ghost use Rattle.mr_plan.specs.PlanLists.{recipes_at};
ghost use Rattle.mr_mend.specs.Mending.{HoldsCopies, copied_set};
ghost use Rattle.mr_kept.specs.Kept.{AreAmendable, HoldsOpenings, items_of, stripe_in, stripe_bytes};

use mr_image::{HEAD_BYTES, ImageHead};
use mr_io::{Eye, Failed, FilesError};
use mr_mend::copy_survivors;
use mr_plan::Plans;
use std::alloc::{AllocError, Global};
use std::collections::VecDeque;

/// How many bytes the head has.
const HEAD: usize = HEAD_BYTES as usize;

/// The bytes of each stripe: its symbols without a recipe, each read once, and zero bytes in place of those with one.
///
/// For a moment it holds the bytes twice. It answers `Memory` for want of memory, and `Failed` where a read failed.
pub fn read_stripes<E: Eye>(
    alloc: Global,
    eye: &mut E,
    head: &ImageHead,
    plans: &Plans,
) -> Result<VecDeque<Vec<u8>>, FilesError>
    requires eye { HasImage head.now (E.sight eye.old) }
    requires plans { AreAmendable head.now plans.now }
    ensures count { IfOk result (λ stripes. length stripes.items ≡ head.now.stripes) }
    ensures widths { IfOk result (λ stripes.
        All (λ bytes. length bytes ≡ stripe_bytes head.now) (items_of stripes.items)) }
    ensures opened { IfOk result (λ stripes. IfSome (E.sight eye.old).bytes (λ bytes.
        HoldsOpenings head.now (recipes_at plans.now) (image_of head.now bytes)
        (items_of stripes.items))) }
    ensures taken { OnOk result (E.sight eye.new ≡ sight_with (E.sight eye.old)
        (head.now.stripes * (length (members (copied_set head.now (recipes_at plans.now 0)))
        * head.now.symbol_bytes))) }
    ensures file { IsSameFile (E.sight eye.old) (E.sight eye.new) }
    ensures later { E.faults eye.old ≤ E.faults eye.new }
    ensures quiet { OnOk result (E.faults eye.new ≡ E.faults eye.old) }
    ensures cause { IsErrOf result FilesError.Failed → Rose (E.faults eye.old) (E.faults eye.new) }
{
    let file = read_file(alloc, eye, head, plans)?;
    let stripes = split_stripes(alloc, head, &file)?;
    Ok(stripes)
}

/// The bytes of a file in which each symbol without a recipe stands at its place, and zero bytes besides.
fn read_file<E: Eye>(
    alloc: Global,
    eye: &mut E,
    head: &ImageHead,
    plans: &Plans,
) -> Result<Vec<u8>, FilesError>
    requires eye { HasImage head.now (E.sight eye.old) }
    ensures long { IfOk result (λ file. length file.items ≡ file_bytes head.now) }
    ensures copied { IfOk result (λ file. IfSome (E.sight eye.old).bytes (λ bytes.
        HoldsCopies head.now (recipes_at plans.now) (image_of head.now bytes) file.items)) }
    ensures taken { OnOk result (E.sight eye.new ≡ sight_with (E.sight eye.old)
        (head.now.stripes * (length (members (copied_set head.now (recipes_at plans.now 0)))
        * head.now.symbol_bytes))) }
    ensures file { IsSameFile (E.sight eye.old) (E.sight eye.new) }
    ensures later { E.faults eye.old ≤ E.faults eye.new }
    ensures quiet { OnOk result (E.faults eye.new ≡ E.faults eye.old) }
    ensures cause { IsErrOf result FilesError.Failed → Rose (E.faults eye.old) (E.faults eye.new) }
{
    let size = head.bytes() as usize;
    let body = head.stripes() as usize * head.symbols() as usize * size;
    let mut file = vec![in alloc; 0; HEAD + body]?;
    match copy_survivors(eye, head, plans, &mut file) {
        Ok(()) => Ok(file),
        Err(Failed) => Err(FilesError::Failed),
    }
}

/// The bytes of each stripe of a file.
fn split_stripes(
    alloc: Global,
    head: &ImageHead,
    file: &[u8],
) -> Result<VecDeque<Vec<u8>>, AllocError>
    requires { length file.now ≡ file_bytes head.now }
    ensures { IfOk result (λ stripes. items_of stripes.items
        ≡ map (stripe_in head.now file.now) (range_with_len 0 head.now.stripes)) }
{
    let width = head.symbols() as usize * head.bytes() as usize;
    let mut stripes = VecDeque::with_capacity(alloc, head.stripes() as usize)?;
    for stripe in 0..head.stripes() {
        let at = HEAD + stripe as usize * width;
        let bytes = Vec::from_slice(alloc, &file[at..at + width])?;
        stripes.push_back_reserved(bytes);
    }
    Ok(stripes)
}

//! The image of version 2 that is made of one of version 1.

ghost use Rattle.std.specs.Prelude.{◌≡◌, length, take, drop, IfSome, OnOk};
ghost use Rattle.mr_io.specs.Counts.{HasCause};
ghost use Rattle.mr_io.specs.Sights.{sight_with};
ghost use Rattle.mr_image.specs.Images.{body_bytes};
ghost use Rattle.mr_image.specs.Heads.{file_bytes, head_bytes, with_version};
ghost use Rattle.mr_image.specs.Rotated.{converted_file};
ghost use Rattle.mr_image.specs.Sights.{HasImage, IsSameFile};
ghost use Rattle.mr_convert.specs.Moving.{HasMoved};

use mr_image::{HEAD_BYTES, ImageHead};
use mr_io::{Eye, Failed};

/// How many bytes the head has.
const HEAD: usize = HEAD_BYTES as usize;

/// Makes `image`, which has the bytes of the whole file, the file of version 2: in stripe `s` the devices have moved on
/// by `s`, and behind the last comes the first.
///
/// It reads all symbols by one call, and moves them within `image`. It takes no memory. Where the read fails, `image` is
/// of no use.
pub fn convert<E: Eye>(eye: &mut E, head: &ImageHead, image: &mut [u8]) -> Result<(), Failed>
    requires eye { HasImage head.now (E.sight eye.old) }
    requires image { length image.old ≡ file_bytes head.now }
    ensures converted { OnOk result (IfSome (E.sight eye.old).bytes (λ bytes.
        image.new ≡ converted_file head.now bytes)) }
    ensures taken { OnOk result
        (E.sight eye.new ≡ sight_with (E.sight eye.old) (body_bytes head.now)) }
    ensures file { IsSameFile (E.sight eye.old) (E.sight eye.new) }
    ensures cause { HasCause (E.faults eye.old) (E.faults eye.new) result }
{
    eye.read_at(HEAD_BYTES, &mut image[HEAD..])?;
    move_on(head, image);
    print_head(head, image);
    Ok(())
}

/// Moves the devices of each stripe on.
fn move_on(head: &ImageHead, image: &mut [u8])
    requires { length image.old ≡ file_bytes head.now }
    ensures { HasMoved head.now image.old image.new }
{
    let size = head.symbols() as usize * head.bytes() as usize;
    for stripe in 0..head.stripes() {
        let at = head.place(stripe, 0) as usize;
        let devices = stripe % head.n();
        let by = (devices * head.w()) as usize * head.bytes() as usize;
        image[at..at + size].rotate_right(by);
    }
}

/// Makes the first bytes the head of version 2.
fn print_head(head: &ImageHead, image: &mut [u8])
    requires { length image.old ≡ file_bytes head.now }
    ensures front { take HEAD_BYTES image.new ≡ head_bytes (with_version 2 head.now) }
    ensures symbols { drop HEAD_BYTES image.new ≡ drop HEAD_BYTES image.old }
{
    let bytes = head.rotated().print();
    image[..HEAD].copy_from_slice(&bytes);
}

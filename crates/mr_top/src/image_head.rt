//! The head of an image file.

ghost use Rattle.std.specs.Prelude.{◌≡◌, length, IfOk, OnOk};
ghost use Rattle.std.specs.Option.{ForSome};
ghost use Rattle.mr_image.specs.Heads.{file_bytes};
ghost use Rattle.mr_io.specs.Sights.{sight_with};
ghost use Rattle.mr_top.specs.RebuildSteps.{head_file};
ghost use Rattle.mr_top.specs.Rebuild.{head_given};
ghost use Rattle.mr_steps.specs.Steps.{Gives, Grows, HasReadCause, IsPastWords, IsUnread, Reads};

use mr_bits::Matrix;
use mr_form::{ImageHead, ImageKind};
use mr_image::HEAD_BYTES;
use mr_io::{Duty, Eye, Files, Text};
use mr_steps::Fault;

/// The bytes of a head.
const HEAD: usize = HEAD_BYTES as usize;

/// The head of an image file for a matrix. The eye is given back on each way out.
pub(crate) fn image_head<F: Files>(
    files: &mut F,
    image: &Text,
    matrix: &Matrix,
) -> Result<ImageHead, Fault>
    ensures reads { Reads (λ head. head) (F.told files.old) (F.told files.new) result
        (λ contents. head_file contents image.now matrix.now) }
    ensures totals { Grows (F.told files.old) (F.totals files.old) (F.totals files.new) result
        (λ contents. head_file contents image.now matrix.now) }
    ensures unread { IsUnread (F.totals files.old) (F.totals files.new) }
    ensures fits { IfOk result
        (λ head. ForSome (F.told files.new)
        (λ told. length (told.contents image.now) ≡ file_bytes head)) }
    ensures devices { IfOk result (λ head. head.devices ≡ matrix.now.devices) }
    ensures symbols { IfOk result
        (λ head. head.symbols_per_device ≡ matrix.now.symbols_per_device) }
    ensures cause { HasReadCause (F.faults files.old) (F.faults files.new) result }
    ensures past_words { IsPastWords result }
{
    let mut eye = files.eye(image.as_str(), Duty::Head)?;
    let head = head_behind(&mut eye, matrix);
    files.retire(eye);
    head
}

/// The head of the image file behind an eye.
fn head_behind<E: Eye>(eye: &mut E, matrix: &Matrix) -> Result<ImageHead, Fault>
    ensures given { ForSome (E.sight eye.old).bytes
        (λ bytes. Gives (λ head. head) result (head_given matrix.now bytes)) }
    ensures taken { OnOk result
        (ForSome (E.sight eye.old).bytes (λ _. E.sight eye.new ≡ sight_with (E.sight eye.old) HEAD_BYTES)) }
    ensures duty { (E.sight eye.new).duty ≡ (E.sight eye.old).duty }
    ensures fits { IfOk result
        (λ head. ForSome (E.sight eye.old).bytes (λ bytes. length bytes ≡ file_bytes head)) }
    ensures devices { IfOk result (λ head. head.devices ≡ matrix.now.devices) }
    ensures symbols { IfOk result
        (λ head. head.symbols_per_device ≡ matrix.now.symbols_per_device) }
    ensures cause { HasReadCause (E.faults eye.old) (E.faults eye.new) result }
    ensures past_words { IsPastWords result }
{
    let length = eye.len()?;
    if length < HEAD_BYTES {
        return Err(Fault::BadImage {
            kind: ImageKind::Head,
        });
    }
    let mut bytes = [0; HEAD];
    eye.read_at(0, &mut bytes)?;
    let head = ImageHead::read(&bytes, matrix.shape(), length)?;
    Ok(head)
}

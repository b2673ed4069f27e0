//! The command `encode`.

ghost use Rattle.std.specs.Prelude.{◌≡◌, IfOk, OnOk, length};
ghost use Rattle.std.specs.Option.{ForSome};
ghost use Rattle.mr_io.specs.Sights.{sight_with};
ghost use Rattle.mr_encode.specs.Data.{data_bytes};
ghost use Rattle.mr_top.specs.EncodeSteps.{encode_answer, encoded_file};
ghost use Rattle.mr_top.specs.Encode.{encoded_given, layout_given};
ghost use Rattle.mr_top.specs.Replies.{output_of};
ghost use Rattle.mr_steps.specs.Steps.{Gives, Grows, HasReadCause, IsPastWords, Reads};

use crate::lent::Lent;
use crate::reply::Reply;
use mr_bits::Matrix;
use mr_form::{ImageHead, ImageKind};
use mr_io::{Duty, Eye, Files, Source, Text};
use mr_kern::XorKernel;
use mr_steps::{Fault, matrix_text};
use mr_words::EncodeWords;
use std::alloc::Global;

/// The image of the codewords of a data file, for a matrix file.
pub(crate) fn encode<T, F: Files, S: Source, G>(
    lent: &mut Lent<'_, '_, '_, T, F, S, G>,
    words: &EncodeWords,
) -> Result<Reply, Fault>
    ensures same_files { lent.new.files.ghost_name ≡ lent.old.files.ghost_name }
    ensures same_script { lent.new.script.ghost_name ≡ lent.old.script.ghost_name }
    ensures kept { lent.new.script.now ≡ lent.old.script.now }
    ensures reads { Reads output_of (F.told lent.old.files.now) (F.told lent.new.files.now) result
        (λ contents. encode_answer contents words.now.matrix words.now.payload
        words.now.stripes words.now.bytes) }
    ensures totals { Grows (F.told lent.old.files.now) (F.totals lent.old.files.now)
        (F.totals lent.new.files.now) result
        (λ contents. encode_answer contents words.now.matrix words.now.payload
        words.now.stripes words.now.bytes) }
    ensures cause { HasReadCause (F.faults lent.old.files.now)
        (F.faults lent.new.files.now) result }
    ensures past_words { IsPastWords result }
{
    let matrix = matrix_text(lent.tools.alloc, lent.files, &words.matrix)?;
    let head = head_for(&matrix, words.bytes, words.stripes)?;
    let image = encoded_image(lent, &words.payload, &matrix, &head)?;
    Ok(Reply::Encode { image })
}

/// The head of an image of version 1 for a matrix: so many stripes, with symbols of so many bytes.
fn head_for(matrix: &Matrix, bytes: u32, stripes: u32) -> Result<ImageHead, Fault>
    ensures given { Gives (λ head. head) result (layout_given matrix.now bytes stripes) }
    ensures devices { IfOk result (λ head. head.devices ≡ matrix.now.devices) }
    ensures symbols { IfOk result
        (λ head. head.symbols_per_device ≡ matrix.now.symbols_per_device) }
    ensures version { IfOk result (λ head. head.version ≡ 1) }
    ensures cause { HasReadCause 0 0 result }
    ensures past_words { IsPastWords result }
{
    let head = ImageHead::new(matrix.shape(), bytes, stripes)?;
    Ok(head)
}

/// The image of the codewords of a data file. The eye is given back on each way out.
fn encoded_image<T, F: Files, S: Source, G>(
    lent: &mut Lent<'_, '_, '_, T, F, S, G>,
    payload: &Text,
    matrix: &Matrix,
    head: &ImageHead,
) -> Result<Vec<u8>, Fault>
    requires devices { head.now.devices ≡ matrix.now.devices }
    requires symbols { head.now.symbols_per_device ≡ matrix.now.symbols_per_device }
    requires version { head.now.version ≡ 1 }
    ensures same_files { lent.new.files.ghost_name ≡ lent.old.files.ghost_name }
    ensures same_script { lent.new.script.ghost_name ≡ lent.old.script.ghost_name }
    ensures kept { lent.new.script.now ≡ lent.old.script.now }
    ensures reads { Reads (λ image. image.items) (F.told lent.old.files.now)
        (F.told lent.new.files.now) result
        (λ contents. encoded_file contents payload.now matrix.now head.now) }
    ensures totals { Grows (F.told lent.old.files.now) (F.totals lent.old.files.now)
        (F.totals lent.new.files.now) result
        (λ contents. encoded_file contents payload.now matrix.now head.now) }
    ensures cause { HasReadCause (F.faults lent.old.files.now)
        (F.faults lent.new.files.now) result }
    ensures past_words { IsPastWords result }
{
    let mut eye = lent.files.eye(payload.as_str(), Duty::Copy)?;
    let image = image_behind(lent.tools.alloc, &mut eye, matrix, head, lent.tools.kernel);
    lent.files.retire(eye);
    image
}

/// The image of the codewords of the data behind an eye, where they have its length.
fn image_behind<E: Eye>(
    alloc: Global,
    eye: &mut E,
    matrix: &Matrix,
    head: &ImageHead,
    kernel: &XorKernel,
) -> Result<Vec<u8>, Fault>
    requires devices { head.now.devices ≡ matrix.now.devices }
    requires symbols { head.now.symbols_per_device ≡ matrix.now.symbols_per_device }
    requires version { head.now.version ≡ 1 }
    ensures given { ForSome (E.sight eye.old).bytes
        (λ bytes. Gives (λ v. v.items) result (encoded_given matrix.now head.now bytes)) }
    ensures taken { OnOk result
        (ForSome (E.sight eye.old).bytes
        (λ bytes. E.sight eye.new ≡ sight_with (E.sight eye.old) (length bytes))) }
    ensures cause { HasReadCause (E.faults eye.old) (E.faults eye.new) result }
    ensures past_words { IsPastWords result }
{
    let length = eye.len()?;
    if length != data_length(matrix, head) {
        return Err(Fault::BadImage {
            kind: ImageKind::Length,
        });
    }
    let image = mr_encode::encode(alloc, eye, matrix, head, kernel)?;
    Ok(image)
}

/// The bytes of the data of an image.
fn data_length(matrix: &Matrix, head: &ImageHead) -> u64
    ensures { result ≡ data_bytes head.now matrix.now }
{
    u64::from(head.stripes()) * u64::from(matrix.shape().k()) * u64::from(head.bytes())
}

//! The image of the codewords of data in memory.

ghost use Rattle.std.specs.Prelude.{◌≡◌, IfOk, chars, length};
ghost use Rattle.mr_encode.specs.Data.{columns_of, data_bytes};
ghost use Rattle.mr_image.specs.Heads.{image_bytes};
ghost use Rattle.mr_image.specs.Images.{code_image, every_stripe};
ghost use Rattle.mr_io.specs.FilesStates.{contents_of};

use mr_bits::{Matrix, NoMemory};
use mr_encode::encode;
use mr_image::ImageHead;
use mr_io::{Duty, Files, FilesError, SureFiles, Text};
use mr_kern::XorKernel;
use std::alloc::Global;

/// The name of the one file.
pub(crate) const NAME: &str = "image";

/// Files with these bytes under the one name.
pub(crate) fn one_file(alloc: Global, bytes: Vec<u8>) -> Result<SureFiles, NoMemory>
    ensures { IfOk result (λ files. contents_of files.files (chars NAME.now) ≡ bytes.items) }
{
    let name = Text::copy_of(alloc, NAME)?;
    SureFiles::new(alloc, vec![in alloc; (name, bytes)]?)
}

/// The image file of the codewords of these data.
///
/// It answers `NoMemory` for want of memory.
pub(crate) fn encoded_image(
    alloc: Global,
    code: &Matrix,
    head: &ImageHead,
    kernel: &XorKernel,
    payload: Vec<u8>,
) -> Result<Vec<u8>, NoMemory>
    requires devices { head.now.devices ≡ code.now.devices }
    requires symbols { head.now.symbols_per_device ≡ code.now.symbols_per_device }
    requires version { head.now.version ≡ 1 }
    requires payload { length payload.items ≡ data_bytes head.now code.now }
    ensures { IfOk result (λ image. image.items
        ≡ image_bytes head.now (code_image head.now (every_stripe code.now)
        (columns_of head.now code.now.columns payload.items))) }
{
    let mut files = one_file(alloc, payload)?;
    let Ok(mut eye) = files.eye(NAME, Duty::Copy) else {
        return Err(NoMemory);
    };
    let encoded = encode(alloc, &mut eye, code, head, kernel);
    files.retire(eye);
    match encoded {
        Ok(image) => Ok(image),
        Err(FilesError::Memory) => Err(NoMemory),
        Err(FilesError::Failed) => unreachable!(),
    }
}

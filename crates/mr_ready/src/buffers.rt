//! The memory of what a rebuild makes.

ghost use Rattle.std.specs.Prelude.{IfOk};
ghost use Rattle.mr_ready.specs.Written.{HaveRoom};

use mr_bits::NoMemory;
use mr_image::ImageHead;
use mr_mend::{Ask, GATHERED, LINE_FRAME};
use std::alloc::Global;

/// What a rebuild makes: the bytes of the image file, and those of the replies; and room for the lines that are gathered
/// before they are put.
#[derive(Drop)]
pub struct Buffers {
    /// The bytes of the image file.
    pub image: Vec<u8>,
    /// The bytes of the replies, one symbol for each read, in the order of the reads.
    pub replies: Vec<u8>,
    /// The room for lines: for one at least.
    pub(crate) line: Vec<u8>,
}

/// The buffers of an image with this head and of these reads. That of the image has room for the bytes of the whole file, and
/// is first touched beside the menders.
///
/// It answers `NoMemory` also where the bytes of all replies are too many for a `usize`.
pub(crate) fn make_buffers(
    alloc: Global,
    head: &ImageHead,
    asks: &[Ask],
) -> Result<Buffers, NoMemory>
    ensures { IfOk result (HaveRoom head.now asks.now) }
{
    let size = head.bytes() as usize;
    let reply_bytes = asks.len().checked_mul(size).ok_or(NoMemory)?;
    Ok(Buffers {
        image: Vec::with_capacity(alloc, head.file_bytes() as usize)?,
        replies: vec![in alloc; 0; reply_bytes]?,
        line: vec![in alloc; 0; (2 * size + LINE_FRAME).max(GATHERED)]?,
    })
}

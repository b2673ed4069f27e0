use mr_bits::NoMemory;
use mr_image::ImageHead;
use std::alloc::Global;

/// The memory of a patching: the bytes of the whole file, and those of one stripe and of one symbol more.
#[derive(Drop)]
pub struct PatchRoom {
    pub(crate) image: Vec<u8>,
    pub(crate) stripe: Vec<u8>,
}

impl PatchRoom {
    ghost use Rattle.std.specs.Prelude.{IfOk};
    ghost use Rattle.mr_patch.specs.Rooms.{IsRoomFor};

    /// Room for an image with this head.
    pub fn new(alloc: Global, head: &ImageHead) -> Result<PatchRoom, NoMemory>
        ensures { IfOk result (IsRoomFor head.now) }
    {
        let symbols = head.symbols() as usize + 1;
        Ok(PatchRoom {
            image: vec![in alloc; 0; head.file_bytes() as usize]?,
            stripe: vec![in alloc; 0; symbols * head.bytes() as usize]?,
        })
    }
}

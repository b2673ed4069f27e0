use mr_bits::NoMemory;
use mr_image::ImageHead;
use mr_plan::Plans;
use std::alloc::Global;

/// The memory of one mender: the bytes of one symbol, and of one symbol for each recipe.
#[derive(Drop)]
pub struct Room {
    pub(crate) symbol: Vec<u8>,
    pub(crate) lost: Vec<u8>,
}

impl Room {
    ghost use Rattle.std.specs.Prelude.{IfOk};
    ghost use Rattle.mr_mend.specs.Menders.{IsRoomOf};

    /// Room for a mender of an image with this head and these plans.
    pub fn new(alloc: Global, head: &ImageHead, plans: &Plans) -> Result<Room, NoMemory>
        ensures { IfOk result (IsRoomOf head.now plans.now) }
    {
        let size = head.bytes() as usize;
        Ok(Room {
            symbol: vec![in alloc; 0; size]?,
            lost: vec![in alloc; 0; plans.at(0).recipes().len() * size]?,
        })
    }
}

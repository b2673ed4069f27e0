ghost use Rattle.std.specs.Prelude.{◌<◌};

use crate::view::JobView;
use crossbeam_queue::SegPass;

/// A pass of a queue of jobs, with which one thread takes jobs. It has no bytes. Contracts see by
/// `pass_view` what it knows: a `JobView`.
#[derive(Drop)]
pub struct JobPass {
    pub(crate) seat: SegPass<u32, JobView>,
    ghost live: { 0 < seat.me.view.client.parts },
}

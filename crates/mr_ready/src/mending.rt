//! A rebuild that is ready, carried to where its image and its replies are made.

ghost use Rattle.std.specs.Prelude.{◌≡◌, All, Any, IfOk, IfSome, OnErr, OnOk, map};
ghost use Rattle.mr_io.specs.Counts.{Rose};
ghost use Rattle.mr_io.specs.Growth.{TakesWithin, taken_by};
ghost use Rattle.mr_mend.specs.Mending.{mended_file};
ghost use Rattle.mr_plan.specs.PlanLists.{recipes_at};
ghost use Rattle.mr_ready.specs.Carrying.{CanCarry, image_told};
ghost use Rattle.mr_ready.specs.Duties.{duties_of};
ghost use Rattle.mr_ready.specs.Orders.{parts_of_order};
ghost use Rattle.mr_ready.specs.Reads.{least_reads, most_reads};
ghost use Rattle.mr_ready.specs.Replying.{AreLawful};
ghost use Rattle.mr_ready.specs.Written.{AreBuffers};

use crate::buffers::Buffers;
use crate::means::Means;
use crate::orders::Order;
use crate::reading::{Read, read_image};
use crate::ready::Ready;
use mr_io::{Eye, Failed, Gate};
use mr_kern::XorKernel;
use std::thread::Threads;

/// What was to be rebuilt, the eyes, and what was made.
pub struct Mended<E> {
    /// What was to be rebuilt.
    pub order: Order,
    /// The eyes, in the order in which they were asked for.
    pub eyes: Vec<E>,
    /// What was made, where no eye failed: the bytes of the whole image file, and those of the replies, one symbol for
    /// each read, in the order of the reads.
    pub made: Result<Buffers, Failed>,
}

/// Mends the image, serves the reads and copies the survivors. Nothing is written, and it takes no memory.
///
/// `Failed` comes only where an eye failed.
pub fn mend_image<T: Threads + Sync, E: Eye + Send, G: Gate + Sync>(
    rt: &T,
    ready: Ready<E>,
    gate: &G,
    kernel: &XorKernel,
) -> Mended<E>
    requires { CanCarry E.sight E.faults ready }
    ensures order { result.order ≡ ready.order }
    ensures duties { map (λ eye. (E.sight eye).duty) result.eyes.items
        ≡ duties_of ready.order.workers ready.order.live }
    ensures took { OnOk result.made (TakesWithin (taken_by (map E.sight result.eyes.items))
        (least_reads (parts_of_order ready.order)) (most_reads (parts_of_order ready.order))) }
    ensures image { IfOk result.made (λ made. IfSome (image_told E.sight ready) (λ bytes.
        made.image.items
        ≡ mended_file ready.order.head (recipes_at ready.order.plans) bytes)) }
    ensures replies { IfOk result.made (λ made. AreLawful (parts_of_order ready.order)
        (image_told E.sight ready) made.replies.items) }
    ensures buffers { IfOk result.made
        (AreBuffers ready.order.head ready.order.asks.items) }
    ensures cause { OnErr result.made (Any (λ eye. Rose 0 (E.faults eye)) result.eyes.items) }
    ensures quiet { OnOk result.made (All (λ eye. E.faults eye ≡ 0) result.eyes.items) }
{
    let Ready {
        order,
        crew,
        buffers,
    } = ready;
    let means = Means { rt, gate, kernel };
    let Read { eyes, made } = read_image(&means, &order, crew, buffers);
    Mended { order, eyes, made }
}

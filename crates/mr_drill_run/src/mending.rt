//! The rebuild of a drill's image, with its reads served beside the menders.

ghost use Rattle.std.specs.Prelude.{◌≡◌, ◌^◌, ◌<◌, ◌≤◌, All, IfOk, IfSome, OnErr, Some, length};
ghost use Rattle.mr_image.specs.Heads.{file_bytes};
ghost use Rattle.mr_image.specs.Rotated.{rotations};
ghost use Rattle.mr_io.specs.Counts.{Rose};
ghost use Rattle.mr_mend.specs.Mending.{AreMendable, mended_file};
ghost use Rattle.mr_mend.specs.Scripts.{IsInRange};
ghost use Rattle.mr_plan.specs.PlanLists.{recipes_at};
ghost use Rattle.mr_ready.specs.Carrying.{CanCarry, image_told};
ghost use Rattle.mr_ready.specs.Duties.{duties_of};
ghost use Rattle.mr_ready.specs.Lawful.{AreSinglesFor};
ghost use Rattle.mr_ready.specs.Orders.{parts_of_order};
ghost use Rattle.mr_ready.specs.Replying.{AreLawful};
ghost use Rattle.mr_ready.specs.Written.{AreBuffers};
ghost use Rattle.mr_drill_run.specs.Drills.{order_of};

use crate::choosing::Choice;
use crate::encoding::{NAME, one_file};
use crate::tools::{Tools, WORKERS};
use mr_bits::NoMemory;
use mr_image::ImageHead;
use mr_io::{Failed, Files, FilesError, Gate, retire_all};
use mr_mend::Ask;
use mr_ready::{Buffers, Mended, Ready, mend_image};
use std::thread::Threads;

/// The mended image, and the replies to the reads, of which some may be made while the image is mended.
///
/// It answers `NoMemory` for want of memory.
pub(crate) fn rebuilt<T: Threads + Sync, G: Gate + Sync>(
    tools: &Tools<T, G>,
    head: ImageHead,
    choice: Choice,
    asks: Vec<Ask>,
    image: Vec<u8>,
) -> Result<Buffers, NoMemory>
    requires plans { AreMendable head choice.plans }
    requires lines { length choice.lines.items ≡ rotations head }
    requires singles { AreSinglesFor head choice.plans choice.singles.items }
    requires asks { All (IsInRange head) asks.items }
    requires few { length asks.items < 2 ^ 32 }
    requires image { length image.items ≡ file_bytes head }
    ensures image { IfOk result (λ made. made.image.items
        ≡ mended_file head (recipes_at choice.plans) image.items) }
    ensures replies { IfOk result (λ made. AreLawful (order_of head choice.plans
        choice.lines.items choice.singles.items asks.items) (Some image.items)
        made.replies.items) }
    ensures buffers { IfOk result (AreBuffers head asks.items) }
{
    let mut files = one_file(tools.alloc, image)?;
    let Choice {
        plans,
        lines,
        singles,
        cost: _,
    } = choice;
    let live = true;
    match Ready::make(
        tools.alloc,
        &mut files,
        NAME,
        head,
        plans,
        lines,
        singles,
        asks,
        WORKERS,
        live,
    ) {
        Ok(ready) => match carried(tools, &mut files, ready) {
            Ok(made) => Ok(made),
            Err(Failed) => unreachable!(),
        },
        Err(FilesError::Memory) => Err(NoMemory),
        Err(FilesError::Failed) => unreachable!(),
    }
}

/// The rebuild that is ready is carried to where its image and its replies are made, and its eyes are given back. It
/// takes no memory.
fn carried<T: Threads + Sync, F: Files, G: Gate + Sync>(
    tools: &Tools<T, G>,
    files: &mut F,
    ready: Ready<F::E>,
) -> Result<Buffers, Failed>
    requires ready { CanCarry F.E.sight F.E.faults ready }
    requires lent { IfSome (F.told files.old) (λ told.
        length (duties_of ready.order.workers ready.order.live) ≤ told.lent) }
    ensures image { IfOk result (λ made. IfSome (image_told F.E.sight ready) (λ bytes.
        made.image.items
        ≡ mended_file ready.order.head (recipes_at ready.order.plans) bytes)) }
    ensures replies { IfOk result (λ made. AreLawful (parts_of_order ready.order)
        (image_told F.E.sight ready) made.replies.items) }
    ensures buffers { IfOk result (AreBuffers ready.order.head ready.order.asks.items) }
    ensures cause { OnErr result (Rose (F.faults files.old) (F.faults files.new)) }
{
    let mended = mend_image(tools.rt, ready, tools.gate, tools.kernel);
    let Mended {
        order: _,
        eyes,
        made,
    } = mended;
    retire_all(files, eyes);
    made
}

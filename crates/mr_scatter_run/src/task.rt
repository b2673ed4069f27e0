//! What is scattered: the steps before a device is opened.

ghost use Rattle.std.specs.Prelude.{◌≡◌, ◌<◌, ◌*◌, All, IfOk, IfSome, OnOk, Some, length};
ghost use Rattle.std.specs.Option.{ForSome};
ghost use Rattle.mr_array_words.specs.Scatter.{scatter_asked};
ghost use Rattle.mr_image.specs.Images.{stripe_symbols};
ghost use Rattle.mr_io.specs.Telling.{AsksFront};
ghost use Rattle.mr_steps.specs.Steps.{Gives, Grows, HasReadCause, HasReadCauses, IsPastWords, IsUnread, Reads};
ghost use Rattle.mr_steps.specs.TextFiles.{matrix_file};
ghost use Rattle.mr_scatter_run.specs.Ready.{IsReady};
ghost use Rattle.mr_scatter_run.specs.Tasks.{body_of, numbers_in, task_for, task_in, task_of};

use crate::head::read_stream_head;
use crate::lost::lost_list;
use mr_array_words::ScatterWords;
use mr_bits::Matrix;
use mr_image::ImageHead;
use mr_io::{Files, Source};
use mr_steps::{Fault, matrix_text};
use std::alloc::Global;

/// What is scattered, and room for one stripe of it: an image of this head, whose first stripe is number `first` of the
/// array, to the lost devices.
#[derive(Drop)]
pub(crate) struct Ready {
    pub head: ImageHead,
    pub first: u32,
    pub lost: Vec<u8>,
    pub stripe: Vec<u8>,
}

/// The task that the words name, where the source begins with the head of the image.
pub(crate) fn read_task<F: Files, S: Source>(
    alloc: Global,
    words: &ScatterWords,
    files: &mut F,
    source: &mut S,
) -> Result<Ready, Fault>
    ensures reads { ForSome (S.left source.old)
        (λ left. Reads task_in (F.told files.old) (F.told files.new) result
        (λ contents. task_of contents left (scatter_asked words.now))) }
    ensures asks { ForSome (F.told files.old) (λ told. AsksFront told (F.told files.new)
        (matrix_file told.contents words.now.matrix).eyes) }
    ensures totals { Grows (F.told files.old) (F.totals files.old) (F.totals files.new) result
        (λ contents. matrix_file contents words.now.matrix) }
    ensures unread { IsUnread (F.totals files.old) (F.totals files.new) }
    ensures rest { OnOk result (ForSome (S.left source.old)
        (λ left. S.left source.new ≡ Some (body_of left))) }
    ensures ready { IfOk result IsReady }
    ensures lost { IfOk result (λ ready. ready.lost.items ≡ numbers_in words.now.lost) }
    ensures cause { HasReadCauses (F.faults files.old) (F.faults files.new) (S.faults source.old)
        (S.faults source.new) result }
    ensures past_words { IsPastWords result }
{
    let matrix = matrix_text(alloc, files, &words.matrix)?;
    read_task_of(alloc, words, &matrix, source)
}

/// The same for a matrix.
fn read_task_of<S: Source>(
    alloc: Global,
    words: &ScatterWords,
    matrix: &Matrix,
    source: &mut S,
) -> Result<Ready, Fault>
    ensures given { ForSome (S.left source.old)
        (λ left. Gives task_in result (task_for left (scatter_asked words.now) matrix.now)) }
    ensures rest { OnOk result (ForSome (S.left source.old)
        (λ left. S.left source.new ≡ Some (body_of left))) }
    ensures ready { IfOk result IsReady }
    ensures lost { IfOk result (λ ready. ready.lost.items ≡ numbers_in words.now.lost) }
    ensures cause { HasReadCause (S.faults source.old) (S.faults source.new) result }
    ensures past_words { IsPastWords result }
{
    let lost = lost_list(alloc, matrix, &words.lost)?;
    let head = read_stream_head(source, matrix.shape())?;
    let stripe = vec![in alloc; 0; stripe_bytes(&head)]?;
    Ok(Ready {
        head,
        first: words.first,
        lost,
        stripe,
    })
}

/// How many bytes a stripe has.
fn stripe_bytes(head: &ImageHead) -> usize
    ensures { result ≡ stripe_symbols head.now * head.now.symbol_bytes }
{
    head.symbols() as usize * head.bytes() as usize
}

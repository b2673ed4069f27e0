//! The command `scrub`.

ghost use Rattle.std.specs.Prelude.{◌≡◌, IfOk, length};
ghost use Rattle.std.specs.Option.{ForSome};
ghost use Rattle.mr_image.specs.Heads.{file_bytes};
ghost use Rattle.mr_image.specs.Rotated.{FitsCode};
ghost use Rattle.mr_top.specs.Scrub.{scrub_answer, scrub_output};
ghost use Rattle.mr_top.specs.WholeImages.{body_answer};
ghost use Rattle.mr_top.specs.Replies.{output_of};
ghost use Rattle.mr_steps.specs.Steps.{Grows, HasReadCause, IsPastWords, Reads};

use crate::image_head::image_head;
use crate::lent::Lent;
use crate::reply::Reply;
use mr_io::{Duty, Files, Source, Text};
use mr_scrub::Scrub;
use mr_steps::{Fault, matrix_text};
use mr_words::ImageWords;
use std::alloc::Global;
use std::thread::Threads;

/// The stripes of an image file that are no codewords, for a matrix file. The image may be of
/// either version.
pub(crate) fn scrub<T: Threads + Sync, F: Files, S: Source, G>(
    lent: &mut Lent<'_, '_, '_, T, F, S, G>,
    words: &ImageWords,
) -> Result<Reply, Fault>
    ensures same_files { lent.new.files.ghost_name ≡ lent.old.files.ghost_name }
    ensures same_script { lent.new.script.ghost_name ≡ lent.old.script.ghost_name }
    ensures kept { lent.new.script.now ≡ lent.old.script.now }
    ensures reads { Reads output_of (F.told lent.old.files.now) (F.told lent.new.files.now) result
        (λ contents. scrub_answer contents words.now.matrix words.now.image) }
    ensures totals { Grows (F.told lent.old.files.now) (F.totals lent.old.files.now)
        (F.totals lent.new.files.now) result
        (λ contents. scrub_answer contents words.now.matrix words.now.image) }
    ensures cause { HasReadCause (F.faults lent.old.files.now)
        (F.faults lent.new.files.now) result }
    ensures past_words { IsPastWords result }
{
    let matrix = matrix_text(lent.tools.alloc, lent.files, &words.matrix)?;
    let head = image_head(lent.files, &words.image, &matrix)?;
    let by = Scrub {
        matrix: &matrix,
        head: &head,
        kernel: lent.tools.kernel,
    };
    scrubbed_image(
        lent.tools.rt,
        lent.tools.alloc,
        lent.files,
        &words.image,
        &by,
    )
}

/// The stripes of an image file with this head that are no codewords. The eye is given back on each
/// way out.
fn scrubbed_image<T: Threads + Sync, F: Files>(
    rt: &T,
    alloc: Global,
    files: &mut F,
    image: &Text,
    by: &Scrub,
) -> Result<Reply, Fault>
    requires fits { FitsCode by.now.head.now by.now.matrix.now }
    requires file { ForSome (F.told files.old)
        (λ told. length (told.contents image.now) ≡ file_bytes by.now.head.now) }
    ensures reads { Reads output_of (F.told files.old) (F.told files.new) result
        (λ contents. body_answer (scrub_output by.now.matrix.now) contents image.now
        by.now.head.now) }
    ensures totals { Grows (F.told files.old) (F.totals files.old) (F.totals files.new) result
        (λ contents. body_answer (scrub_output by.now.matrix.now) contents image.now
        by.now.head.now) }
    ensures cause { HasReadCause (F.faults files.old) (F.faults files.new) result }
    ensures past_words { IsPastWords result }
{
    let mut eye = files.eye(image.as_str(), Duty::Copy)?;
    let scrubbed = mr_scrub::scrub(rt, alloc, &mut eye, by);
    files.retire(eye);
    match scrubbed {
        Ok(broken) => Ok(Reply::Scrub {
            stripes: by.head.stripes(),
            broken,
        }),
        Err(error) => Err(Fault::from(error)),
    }
}

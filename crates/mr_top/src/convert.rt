//! The command `convert`.

ghost use Rattle.std.specs.Prelude.{◌≡◌, IfOk, IfSome, OnOk, length};
ghost use Rattle.std.specs.Option.{ForSome};
ghost use Rattle.mr_image.specs.Heads.{file_bytes};
ghost use Rattle.mr_image.specs.Images.{body_bytes};
ghost use Rattle.mr_image.specs.Rotated.{converted_file};
ghost use Rattle.mr_image.specs.Sights.{HasImage, IsSameFile};
ghost use Rattle.mr_io.specs.Counts.{HasCause};
ghost use Rattle.mr_io.specs.Sights.{sight_with};
ghost use Rattle.mr_top.specs.Convert.{convert_answer, converted_output, first_version};
ghost use Rattle.mr_top.specs.WholeImages.{allowed_answer, body_answer};
ghost use Rattle.mr_top.specs.Replies.{output_of};
ghost use Rattle.mr_steps.specs.Steps.{Gives, Grows, HasReadCause, IsPastWords, Reads};

use crate::image_head::image_head;
use crate::lent::Lent;
use crate::reply::Reply;
use mr_form::{ImageHead, ImageKind};
use mr_io::{Duty, Eye, Failed, Files, Source, Text};
use mr_steps::{Fault, matrix_text};
use mr_words::ImageWords;
use std::alloc::Global;

/// The image of version 2 that is made of an image file, for a matrix file. All memory is taken
/// before the first symbol is read.
pub(crate) fn convert<T, F: Files, S: Source, G>(
    lent: &mut Lent<'_, '_, '_, T, F, S, G>,
    words: &ImageWords,
) -> Result<Reply, Fault>
    ensures same_files { lent.new.files.ghost_name ≡ lent.old.files.ghost_name }
    ensures same_script { lent.new.script.ghost_name ≡ lent.old.script.ghost_name }
    ensures kept { lent.new.script.now ≡ lent.old.script.now }
    ensures reads { Reads output_of (F.told lent.old.files.now) (F.told lent.new.files.now) result
        (λ contents. convert_answer contents words.now.matrix words.now.image) }
    ensures totals { Grows (F.told lent.old.files.now) (F.totals lent.old.files.now)
        (F.totals lent.new.files.now) result
        (λ contents. convert_answer contents words.now.matrix words.now.image) }
    ensures cause { HasReadCause (F.faults lent.old.files.now)
        (F.faults lent.new.files.now) result }
    ensures past_words { IsPastWords result }
{
    let matrix = matrix_text(lent.tools.alloc, lent.files, &words.matrix)?;
    let head = image_head(lent.files, &words.image, &matrix)?;
    converted_image(lent.tools.alloc, lent.files, &words.image, &head)
}

/// The image of version 2 that is made of an image file with this head, where that is of version 1.
fn converted_image<F: Files>(
    alloc: Global,
    files: &mut F,
    image: &Text,
    head: &ImageHead,
) -> Result<Reply, Fault>
    requires fits { ForSome (F.told files.old)
        (λ told. length (told.contents image.now) ≡ file_bytes head.now) }
    ensures reads { Reads output_of (F.told files.old) (F.told files.new) result
        (λ contents. allowed_answer first_version converted_output contents image.now head.now) }
    ensures totals { Grows (F.told files.old) (F.totals files.old) (F.totals files.new) result
        (λ contents. allowed_answer first_version converted_output contents image.now head.now) }
    ensures cause { HasReadCause (F.faults files.old) (F.faults files.new) result }
    ensures past_words { IsPastWords result }
{
    refuse_second(head)?;
    let room = vec![in alloc; 0; head.file_bytes() as usize]?;
    converted_in(files, image, head, room)
}

/// Refuses an image of version 2.
fn refuse_second(head: &ImageHead) -> Result<(), Fault>
    ensures given { Gives (λ _. head.now) result (first_version head.now) }
    ensures cause { HasReadCause 0 0 result }
    ensures past_words { IsPastWords result }
{
    if head.version() == 2 {
        return Err(Fault::BadImage {
            kind: ImageKind::Version,
        });
    }
    Ok(())
}

/// The same, made in this room. The eye is given back on each way out.
fn converted_in<F: Files>(
    files: &mut F,
    image: &Text,
    head: &ImageHead,
    room: Vec<u8>,
) -> Result<Reply, Fault>
    requires fits { ForSome (F.told files.old)
        (λ told. length (told.contents image.now) ≡ file_bytes head.now) }
    requires room { length room.items ≡ file_bytes head.now }
    ensures reads { Reads output_of (F.told files.old) (F.told files.new) result
        (λ contents. body_answer converted_output contents image.now head.now) }
    ensures totals { Grows (F.told files.old) (F.totals files.old) (F.totals files.new) result
        (λ contents. body_answer converted_output contents image.now head.now) }
    ensures cause { HasReadCause (F.faults files.old) (F.faults files.new) result }
    ensures past_words { IsPastWords result }
{
    let mut eye = files.eye(image.as_str(), Duty::Copy)?;
    let converted = converted_behind(&mut eye, head, room);
    files.retire(eye);
    match converted {
        Ok(image) => Ok(Reply::Convert { image }),
        Err(failed) => Err(Fault::from(failed)),
    }
}

/// The image of version 2 that is made of the image file behind an eye, in this room.
fn converted_behind<E: Eye>(eye: &mut E, head: &ImageHead, room: Vec<u8>) -> Result<Vec<u8>, Failed>
    requires eye { HasImage head.now (E.sight eye.old) }
    requires room { length room.items ≡ file_bytes head.now }
    ensures converted { IfOk result (λ image. IfSome (E.sight eye.old).bytes
        (λ bytes. image.items ≡ converted_file head.now bytes)) }
    ensures taken { OnOk result
        (E.sight eye.new ≡ sight_with (E.sight eye.old) (body_bytes head.now)) }
    ensures file { IsSameFile (E.sight eye.old) (E.sight eye.new) }
    ensures cause { HasCause (E.faults eye.old) (E.faults eye.new) result }
{
    let mut room = room;
    mr_convert::convert(eye, head, &mut room)?;
    Ok(room)
}

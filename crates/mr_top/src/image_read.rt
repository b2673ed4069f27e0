//! What a rebuild reads before the script: the steps up to the head of the image.

ghost use Rattle.std.specs.Prelude.{◌≡◌, ◌<◌, ◌^◌, length, IfOk, IfSome, OnOk};
ghost use Rattle.mr_bits.specs.Matrices.{IsMatrixCode};
ghost use Rattle.mr_choices.specs.Rotations.{losses_of};
ghost use Rattle.mr_image.specs.Rotated.{FitsCode, rotations};
ghost use Rattle.mr_top.specs.Rebuild.{layout_allowed, rotation_fault};
ghost use Rattle.mr_top.specs.RebuildSteps.{image_read, parts_of};
ghost use Rattle.mr_top.specs.ImagesRead.{HasFile, IsImageRead};
ghost use Rattle.mr_steps.specs.Steps.{Gives, Grows, HasReadCause, IsPastWords, IsUnread, Reads};

use crate::image_head::image_head;
use mr_bits::{Mask, Matrix};
use mr_choices::{ChosenPlan, ProblemsError, UndeterminedAt, handed_plan, problems_of};
use mr_eq::Problem;
use mr_form::{ImageHead, ImageKind};
use mr_io::Files;
use mr_steps::{Fault, loss_in, matrix_text};
use mr_words::RebuildWords;
use std::alloc::Global;

/// What a rebuild reads before the script.
#[derive(Drop)]
pub(crate) struct ImageRead {
    /// The matrix.
    pub matrix: Matrix,
    /// The lost symbols.
    pub lost: Mask,
    /// Their loss in each rotation in use, which the survivors determine.
    pub problems: Vec<Problem>,
    /// The plan that was handed in, if one was.
    pub handed: Option<ChosenPlan>,
    /// The head of the image.
    pub head: ImageHead,
}

/// Reads the matrix, the loss, the plan file where one is named, and the head of the image.
///
/// An image of version 2 takes no plan file, and each rotation that it uses must be determined.
pub(crate) fn read_image<F: Files>(
    alloc: Global,
    files: &mut F,
    words: &RebuildWords,
) -> Result<ImageRead, Fault>
    ensures reads { Reads parts_of (F.told files.old) (F.told files.new) result
        (λ contents. image_read contents words.now) }
    ensures totals { Grows (F.told files.old) (F.totals files.old) (F.totals files.new) result
        (λ contents. image_read contents words.now) }
    ensures unread { IsUnread (F.totals files.old) (F.totals files.new) }
    ensures sound { IfOk result IsImageRead }
    ensures long { IfOk result
        (λ read. HasFile (F.told files.new) words.now.image read.head) }
    ensures cause { HasReadCause (F.faults files.old) (F.faults files.new) result }
    ensures past_words { IsPastWords result }
{
    let matrix = matrix_text(alloc, files, &words.matrix)?;
    let problem = loss_in(&matrix, &words.lost)?;
    let handed = handed_plan(alloc, files, &matrix, &problem, &words.plan)?;
    let head = image_head(files, &words.image, &matrix)?;
    let lost = problem.targets();
    let problems = problems_in(alloc, &matrix, lost, &handed, &head)?;
    Ok(ImageRead {
        matrix,
        lost,
        problems,
        handed,
        head,
    })
}

/// The problem of the lost symbols in each rotation that an image uses.
fn problems_in(
    alloc: Global,
    matrix: &Matrix,
    lost: Mask,
    handed: &Option<ChosenPlan>,
    head: &ImageHead,
) -> Result<Vec<Problem>, Fault>
    requires code { IsMatrixCode matrix.now }
    requires lost { lost < 2 ^ length matrix.now.rows }
    requires fits { FitsCode head.now matrix.now }
    ensures given { Gives (λ _. head.now) result
        (layout_allowed matrix.now lost handed.now head.now) }
    ensures losses { IfOk result
        (λ problems. problems.items ≡ losses_of matrix.now lost (rotations head.now)) }
    ensures version { OnOk result (IfSome handed.now (λ _. head.now.version ≡ 1)) }
    ensures cause { HasReadCause 0 0 result }
    ensures past_words { IsPastWords result }
{
    if handed.is_some() && head.version() == 2 {
        return Err(Fault::BadImage {
            kind: ImageKind::Planned,
        });
    }
    match problems_of(alloc, matrix, lost, head.rotations()) {
        Ok(problems) => Ok(problems),
        Err(error) => Err(rotation_refused(error)),
    }
}

/// The refusal of a rotation.
fn rotation_refused(error: ProblemsError) -> Fault
    ensures fault { result ≡ rotation_fault error }
    ensures cause { HasReadCause {X = Unit {0}} 0 0 (Err result) }
    ensures past_words { IsPastWords {X = Unit {0}} (Err result) }
{
    match error {
        ProblemsError::Undetermined(UndeterminedAt { rotation, symbol }) => {
            Fault::UndeterminedAt { rotation, symbol }
        }
        ProblemsError::Memory => Fault::Memory,
    }
}

//! The single equations of the lost symbols in each rotation.

ghost use Rattle.std.specs.Prelude.{◌≡◌, IfOk};
ghost use Rattle.mr_image.specs.Rotated.{FitsCode, rotations};
ghost use Rattle.mr_choices.specs.Chosen.{singles_chosen};
ghost use Rattle.mr_choices.specs.Rotations.{losses_of};

use crate::chosen::Choosing;
use mr_bits::{Mask, Matrix, NoMemory};
use mr_eq::{Problem, Singles};
use mr_image::ImageHead;
use std::thread::Threads;

/// The single equations of the lost symbols in each rotation in use, each symbol's within the whole budget.
///
/// The problems are those of the lost symbols in these rotations, from rotation 0 on.
pub fn singles_of<T: Threads + Sync, G>(
    choosing: &Choosing<'_, T, G>,
    head: &ImageHead,
    matrix: &Matrix,
    lost: Mask,
    problems: &[Problem],
) -> Result<Vec<Singles>, NoMemory>
    requires head { FitsCode head.now matrix.now }
    requires problems { problems.now ≡ losses_of matrix.now lost (rotations head.now) }
    ensures { IfOk result (λ made. made.items
        ≡ singles_chosen matrix.now lost choosing.now.budget (rotations head.now)) }
{
    let _within_the_limits = matrix.shape();
    let mut list = Vec::new(choosing.alloc);
    for (rotation, problem) in problems.iter().enumerate() {
        let rotated = matrix.rotated(rotation as u32);
        let targets = problem.targets();
        let singles = Singles::of(
            choosing.rt,
            choosing.alloc,
            &rotated,
            targets,
            choosing.budget,
        )?;
        list.push(singles)?;
    }
    Ok(list)
}

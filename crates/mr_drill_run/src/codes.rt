//! The code of a drill, and the head of its image.

ghost use Rattle.std.specs.Prelude.{◌≡◌};
ghost use Rattle.mr_bits.specs.Matrices.{IsMatrixCode};
ghost use Rattle.mr_image.specs.Images.{IsLayout};
ghost use Rattle.mr_drill_run.specs.Drills.{drill_code, drill_layout};

use mr_bits::Matrix;
use mr_drill::STRIPES;
use mr_form::rdp;
use mr_image::ImageHead;

/// The prime of the code, which is that of row-diagonal parity.
pub(crate) const PRIME: u32 = 5;

/// The bytes of a symbol.
pub(crate) const SYMBOL_BYTES: u32 = 4096;

/// The stripes.
const STRIPE_COUNT: u32 = STRIPES as u32;

/// The code of each drill.
#[tactic(auto, unfolding(crate::specs::Drills::drill_code, mr_form::specs::Layouts::rdp_of))]
pub(crate) fn code_of_drills() -> Matrix
    ensures { result ≡ drill_code }
{
    rdp(PRIME).unwrap()
}

/// The head of the image of each drill, which has this code.
pub(crate) fn head_of_drills(code: &Matrix) -> ImageHead
    requires { code.now ≡ drill_code }
    ensures head { result ≡ drill_layout }
    ensures limits { IsLayout result }
    ensures code { IsMatrixCode code.now }
{
    let head = ImageHead::new(code.shape(), SYMBOL_BYTES, STRIPE_COUNT).unwrap();
    let _limits = head.bytes();
    head
}

ghost use Rattle.std.specs.Prelude.{◌≡◌, ℕ, List};
ghost use Rattle.std.specs.Borrow.{ftrue};
ghost use Rattle.mr_board.specs.Rights.{rights_of};

use mr_image::ImageHead;
use mr_io::Eye;
use mr_plan::Plans;
use std::marker::{Model, PhantomData};
use std::snapshot::Snapshot;

/// A list of numbers that contracts alone see. It takes no memory.
#[derive(Drop)]
pub struct Rights {
    of: PhantomData<()>,
    /// The numbers.
    pub ghost words: { List ℕ },
}

impl Model for Rights {
    ghost also_owns = { λ _. ftrue };
}

impl Rights {
    /// The numbers that the caller's proof names. It names them by what is handed in.
    pub(crate) fn named<T>(about: &T) -> Rights
        ghost words: { List ℕ }
        ensures { result.words ≡ words }
    {
        let _ = about;
        Rights { of: PhantomData }
    }
}

/// The right words of a board for this head and these plans, by what the eye tells.
pub(crate) fn rights_for<E: Eye>(eye: &E, head: &ImageHead, plans: &Plans) -> Rights
    ensures { result.words ≡ rights_of head.now plans.now (E.sight eye.now).bytes }
{
    let about = (Snapshot::of(eye), *head, Snapshot::of(plans));
    Rights::named(&about)
}

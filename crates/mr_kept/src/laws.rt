//! Laws of stripes in memory, each as the contract of a function that does nothing else.

ghost use Rattle.mr_kept.specs.Kept.{AmendsValidPlans};

use mr_image::ImageHead;

/// Plans that are valid for the codes of all rotations in use may be carried out in the bytes of the stripes themselves.
pub fn valid_plans_are_amendable(head: &ImageHead)
    ensures { AmendsValidPlans head.now }
{
    let _within_the_limits = head.bytes();
}

//! Laws of scripts of reads and writes, each as the contract of a function that does nothing else.

ghost use Rattle.mr_ops.specs.Ops.{AreOneOf};

use mr_image::ImageHead;

/// A text is the lines of one list of asks at most, and where it is, it has no first line that is not of its form: so a
/// reader answers the one exactly where it does not answer the other, and no other asks.
pub fn texts_of_ops_have_no_bad_line(head: &ImageHead)
    ensures { AreOneOf head.now }
{
    let _within_the_limits = head.bytes();
}

//! Laws of scrubs, each as the contract of a function that does nothing else.
ghost use Rattle.mr_scrub.specs.Laws.{TellsCodewords};

use mr_image::ImageHead;

/// A stripe of an image has no fault exactly where it is a codeword of its code: where there are data of which each of
/// its symbols is the XOR that the symbol's row names.
pub fn stripes_without_fault_are_codewords(head: &ImageHead)
    ensures { TellsCodewords head.now }
{}

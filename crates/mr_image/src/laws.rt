//! Laws of images, each as the contract of a function that does nothing else.
ghost use Rattle.mr_image.specs.Laws.{GivesCodewords, HoldsImages};
ghost use Rattle.mr_image.specs.Rotated.{KeepsCodewords};

use crate::heads::ImageHead;

/// Where the plans of all stripes are valid, and the survivors of an image come from data, each
/// mended symbol is that of the codeword, and each near reply for a lost symbol, with any budget,
/// is its symbol of the codeword.
pub fn mended_symbols_and_near_replies_are_codewords(head: &ImageHead)
    ensures { GivesCodewords head.now }
{
    let _within_the_limits = head.bytes();
}

/// The file that is made of an image holds that image, each symbol at its place.
pub fn files_hold_their_images(head: &ImageHead)
    ensures { HoldsImages head.now }
{
    let _within_the_limits = head.bytes();
}

/// Where all symbols of an image of version 1 come from data, all symbols of the image of version 2
/// that is made of it come from the same data.
pub fn converted_images_keep_their_codewords(head: &ImageHead)
    ensures { KeepsCodewords head.now }
{}

//! Laws of scripts and of rebuilt images, each as the contract of a function that does nothing else.

ghost use Rattle.mr_mend.specs.Scripts.{ReadsScripts};
ghost use Rattle.mr_mend.specs.Rotations.{GivesRotated};

use mr_image::ImageHead;

/// Printing and reading a script are inverse: the text of reads that the image has is read as these reads, where their
/// replies are not too large, and what is read as reads is the text of them.
pub fn printing_and_reading_scripts_are_inverse(head: &ImageHead)
    ensures { ReadsScripts head.now }
{
    let _within_the_limits = head.bytes();
}

/// Where there is a valid plan for each rotation in use, and the survivors of an image come from data, the mended image
/// and its file are those of the codewords, and each near reply for a lost symbol, with any budget, is its symbol of the
/// codeword.
pub fn images_of_both_versions_are_mended_to_their_codewords(head: &ImageHead)
    ensures { GivesRotated head.now }
{
    let _within_the_limits = head.bytes();
}

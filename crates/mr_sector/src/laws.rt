//! Laws of patched images, each as the contract of a function that does nothing else.

ghost use Rattle.mr_sector.specs.Patterns.{IsPattern, MendsPatched, PatchesCodewords};
ghost use Rattle.mr_sector.specs.Sectors.{IsOneOf};

use mr_bits::Mask;
use mr_image::ImageHead;
use mr_mend::Ask;

/// Where all symbols that can be read come from data and determine the others, each symbol of the patched image
/// is that of the codeword.
pub fn patched_symbols_are_codewords(head: &ImageHead)
    ensures { PatchesCodewords head.now }
{
    let _within_the_limits = head.bytes();
}

/// The image that is mended by the recipes of each stripe's own plan is the patched one.
pub fn mended_stripes_are_patched(head: &ImageHead)
    ensures { MendsPatched head.now }
{
    let _within_the_limits = head.bytes();
}

/// A symbol fails in a stripe exactly where it is lost or named.
pub fn failed_symbols_are_lost_or_named(lost: Mask, sectors: &[Ask])
    ensures { IsPattern lost sectors.now }
{
    let _number = lost.number();
    let _count = sectors.len();
}

/// A text of sectors has no first line that is not of its form: so a reader answers the one exactly where it does
/// not answer the other.
pub fn texts_of_sectors_have_no_bad_line(head: &ImageHead, lost: Mask)
    ensures { IsOneOf head.now lost }
{
    let _within_the_limits = head.bytes();
    let _number = lost.number();
}

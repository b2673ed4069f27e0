//! The loss of symbols in the bytes of an image file.

ghost use Rattle.std.specs.Prelude.{◌≡◌, ◌+◌, ◌<◌, length};
ghost use Rattle.mr_image.specs.Heads.{file_bytes};
ghost use Rattle.mr_image.specs.Images.{stripe_symbols};
ghost use Rattle.mr_drill_run.specs.Damage.{Clears, ClearsSymbol};

use mr_bits::Mask;
use mr_image::ImageHead;

/// Makes every byte of each lost symbol zero. `image` has the bytes of the whole file.
pub(crate) fn damage(head: &ImageHead, lost: Mask, image: &mut [u8])
    requires { length image.old ≡ file_bytes head.now }
    ensures { Clears head.now lost 0 head.now.stripes (stripe_symbols head.now)
        image.old image.new }
{
    for stripe in 0..head.stripes() {
        damage_stripe(head, lost, stripe, image);
    }
}

/// Makes every byte of each lost symbol of one stripe zero.
fn damage_stripe(head: &ImageHead, lost: Mask, stripe: u32, image: &mut [u8])
    requires stripe { stripe < head.now.stripes }
    requires image { length image.old ≡ file_bytes head.now }
    ensures { Clears head.now lost stripe (stripe + 1) (stripe_symbols head.now)
        image.old image.new }
{
    for symbol in 0..head.symbols() as u8 {
        if lost.contains(symbol) {
            clear_symbol(head, stripe, symbol, image);
        }
    }
}

/// Makes every byte of one symbol zero.
fn clear_symbol(head: &ImageHead, stripe: u32, symbol: u8, image: &mut [u8])
    requires stripe { stripe < head.now.stripes }
    requires symbol { symbol < stripe_symbols head.now }
    requires image { length image.old ≡ file_bytes head.now }
    ensures { ClearsSymbol head.now stripe symbol image.old image.new }
{
    let at = head.place(stripe, symbol) as usize;
    let size = head.bytes() as usize;
    image[at..at + size].fill(0);
}

//! The stripes when all calls were made.

ghost use Rattle.std.specs.Prelude.{◌≡◌, ◌+◌, ◌*◌, ◌<◌, ◌≤◌, length, slice_index_or};
ghost use Rattle.mr_kept.specs.Kept.{symbol_in};
ghost use Rattle.mr_history.specs.declared.kept.KeptStripe.{KeptStripe as AStripe};

use mr_history::{Entry, KeptStripe};
use mr_image::ImageHead;

/// The stripes with their histories, when all calls were made.
#[derive(Drop)]
pub struct Closed {
    /// The stripes, in order.
    pub stripes: Vec<KeptStripe>,
}

impl Closed {
    /// The history of a stripe.
    pub fn history(&self, stripe: u32) -> &[Entry]
        requires { stripe < length self.now.stripes.items }
        ensures { (d : AStripe)
            → result.now ≡ (slice_index_or self.now.stripes.items stripe d).history.items }
    {
        self.stripes[stripe as usize].history()
    }

    /// The bytes of symbol `number` of a stripe, where it has that many symbols of this head.
    pub fn symbol(&self, head: &ImageHead, stripe: u32, number: u8) -> &[u8]
        requires stripe { stripe < length self.now.stripes.items }
        requires number { (d : AStripe)
            → number * head.now.symbol_bytes + head.now.symbol_bytes
            ≤ length (slice_index_or self.now.stripes.items stripe d).bytes.items }
        ensures { (d : AStripe) → result.now ≡ symbol_in head.now.symbol_bytes
            (slice_index_or self.now.stripes.items stripe d).bytes.items number }
    {
        self.stripes[stripe as usize].symbol(head, number)
    }
}

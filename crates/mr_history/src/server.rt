//! The calls on one stripe.

ghost use Rattle.std.specs.Prelude.{◌≡◌, ◌<◌, length, true};
ghost use Rattle.mr_image.specs.Images.{stripe_symbols};
ghost use Rattle.mr_kept.specs.Kept.{coded_bytes, stripe_bytes, symbol_in};
ghost use Rattle.mr_image.specs.Rotated.{codes_by};
ghost use Rattle.mr_ops.specs.Ops.{IsPayload};
ghost use Rattle.mr_history.specs.Histories.{CanServe, HasServed, IsReply, PartsFit, names_of, opened, stripe_of};
ghost use Rattle.mr_history.specs.declared.entry.Entry.TheVariants.{Ask, Mend};

use crate::entry::Entry;
use crate::kept::KeptStripe;
use crate::terms::Terms;
use mr_kept::Keeper;
use mr_kern::XorKernel;
use mr_ops::Op;

/// Makes calls on stripes. No call takes memory.
#[derive(Drop)]
pub struct Server<'a> {
    /// What the calls go by.
    pub terms: &'a Terms,
    /// The kernel that adds bytes.
    pub kernel: &'a XorKernel,
}

impl Server<'_> {
    /// Makes the ask of this number on its stripe. A read replies the symbol as it is once the stripe is mended. A write
    /// makes the stripe whole, and leaves `reply` as it is.
    pub fn ask(&self, kept: &mut KeptStripe, number: u32, reply: &mut [u8])
        requires parts { PartsFit (names_of self.now.terms.now) }
        requires stripe { CanServe (names_of self.now.terms.now) kept.old }
        requires number { number < length (names_of self.now.terms.now).ops }
        requires reply { length reply.old ≡ self.now.terms.now.head.symbol_bytes }
        ensures served { let n = names_of self.now.terms.now in
            HasServed n (stripe_of n number) (Ask number) kept.old kept.new }
        ensures reply { let n = names_of self.now.terms.now in
            IsReply n number (opened n (stripe_of n number) kept.old) reply.new }
        ensures size { length reply.new ≡ length reply.old }
    {
        match self.terms.op(number) {
            Op::Read { stripe, symbol } => self.read(kept, *stripe, *symbol, reply),
            Op::Write { stripe, payload } => self.write(kept, *stripe, payload.bytes()),
        }
        kept.history.push_reserved(Entry::Ask { number });
    }

    /// Mends a stripe of this number, or leaves it where it is whole.
    pub fn mend(&self, kept: &mut KeptStripe, stripe: u32)
        requires parts { PartsFit (names_of self.now.terms.now) }
        requires stripe { CanServe (names_of self.now.terms.now) kept.old }
        ensures { HasServed (names_of self.now.terms.now) stripe Mend kept.old kept.new }
    {
        if !kept.whole {
            self.keeper().mend(stripe, &mut kept.bytes);
            kept.whole = true;
        }
        kept.history.push_reserved(Entry::Mend);
    }

    /// Makes `symbol` that of this number as it is once the stripe is mended.
    fn read(&self, kept: &KeptStripe, stripe: u32, number: u8, symbol: &mut [u8])
        requires parts { PartsFit (names_of self.now.terms.now) }
        requires size { length kept.now.bytes.items ≡ stripe_bytes self.now.terms.now.head }
        requires number { number < stripe_symbols self.now.terms.now.head }
        requires symbol { length symbol.old ≡ self.now.terms.now.head.symbol_bytes }
        ensures { symbol.new ≡ symbol_in self.now.terms.now.head.symbol_bytes
            (opened (names_of self.now.terms.now) stripe kept.now) number }
    {
        if kept.whole {
            symbol.copy_from_slice(kept.symbol(&self.terms.head, number));
        } else {
            self.keeper().read(stripe, &kept.bytes, number, symbol);
        }
    }

    /// Makes the bytes those of the codeword of a payload.
    fn write(&self, kept: &mut KeptStripe, stripe: u32, payload: &[u8])
        requires parts { PartsFit (names_of self.now.terms.now) }
        requires size { length kept.old.bytes.items ≡ stripe_bytes self.now.terms.now.head }
        requires payload { IsPayload self.now.terms.now.head self.now.terms.now.matrix.columns
            payload.now }
        ensures bytes { kept.new.bytes.items ≡ coded_bytes self.now.terms.now.head
            (codes_by self.now.terms.now.head self.now.terms.now.matrix stripe) payload.now }
        ensures size { length kept.new.bytes.items ≡ length kept.old.bytes.items }
        ensures whole { kept.new.whole ≡ true }
        ensures history { kept.new.history ≡ kept.old.history }
    {
        self.keeper().write(stripe, payload, &mut kept.bytes);
        kept.whole = true;
    }

    /// What the bytes of a stripe are read, mended and written by.
    fn keeper(&self) -> Keeper
        ensures head { result.head.now ≡ self.now.terms.now.head }
        ensures matrix { result.matrix.now ≡ self.now.terms.now.matrix }
        ensures plans { result.plans.now ≡ self.now.terms.now.plans }
    {
        Keeper {
            head: &self.terms.head,
            matrix: &self.terms.matrix,
            plans: &self.terms.plans,
            kernel: self.kernel,
        }
    }
}

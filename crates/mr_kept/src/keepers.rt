//! The calls on the bytes of one stripe.

ghost use Rattle.std.specs.Prelude.{◌≡◌, ℕ, List, ◌*◌, ◌<◌, ◌^◌, length};
ghost use Rattle.std.specs.Int.{bit_at};
ghost use Rattle.mr_image.specs.Images.{equation_of, stripe_symbols, xor_symbols};
ghost use Rattle.mr_image.specs.Rotated.{FitsCode, codes_by};
ghost use Rattle.mr_plan.specs.PlanLists.{recipes_at};
ghost use Rattle.mr_encode.specs.Data.{symbols_in};
ghost use Rattle.mr_kept.specs.Kept.{AreAmendable, IsAmendable, IsAround, StandsAround, all_symbols, coded_bytes, mended_bytes, mended_symbol, stripe_bytes, symbol_in, with_symbol_at};

use mr_bits::{Mask, Matrix};
use mr_image::ImageHead;
use mr_kern::XorKernel;
use mr_plan::{Plan, Plans, Recipe};

/// What the calls on stripes in memory go by. No call takes memory.
#[derive(Drop)]
pub struct Keeper<'a> {
    /// The head of the image.
    pub head: &'a ImageHead,
    /// The matrix of the code, whose devices move on by one with each stripe of an image of version 2.
    pub matrix: &'a Matrix,
    /// The plans of the stripes.
    pub plans: &'a Plans,
    /// The kernel that adds bytes.
    pub kernel: &'a XorKernel,
}

impl Keeper<'_> {
    /// Makes `symbol`, which has the bytes of one symbol, that of this number as it is once the stripe is mended. `bytes` are
    /// those of the stripe, whose lost symbols are of no account, and stay as they are.
    pub fn read(&self, stripe: u32, bytes: &[u8], number: u8, symbol: &mut [u8])
        requires plans { AreAmendable self.now.head.now self.now.plans.now }
        requires bytes { length bytes.now ≡ stripe_bytes self.now.head.now }
        requires number { number < stripe_symbols self.now.head.now }
        requires symbol { length symbol.old ≡ self.now.head.now.symbol_bytes }
        ensures symbol { symbol.new ≡ mended_symbol self.now.head.now
            (recipes_at self.now.plans.now stripe) bytes.now number }
        ensures mended { symbol.new ≡ symbol_in self.now.head.now.symbol_bytes
            (mended_bytes self.now.head.now (recipes_at self.now.plans.now stripe) bytes.now)
            number }
    {
        self.read_by(self.plans.at(stripe), bytes, number, symbol);
    }

    /// Rebuilds the lost symbols in the bytes of a stripe itself.
    pub fn mend(&self, stripe: u32, bytes: &mut [u8])
        requires plans { AreAmendable self.now.head.now self.now.plans.now }
        requires bytes { length bytes.old ≡ stripe_bytes self.now.head.now }
        ensures { bytes.new ≡ mended_bytes self.now.head.now
            (recipes_at self.now.plans.now stripe) bytes.old }
    {
        self.mend_by(self.plans.at(stripe), bytes);
    }

    /// Makes the bytes of a stripe those of the codeword of a payload, which has a symbol of data for each column, whatever
    /// they were.
    pub fn write(&self, stripe: u32, payload: &[u8], bytes: &mut [u8])
        requires code { FitsCode self.now.head.now self.now.matrix.now }
        requires payload { length payload.now
            ≡ self.now.matrix.now.columns * self.now.head.now.symbol_bytes }
        requires bytes { length bytes.old ≡ stripe_bytes self.now.head.now }
        ensures { bytes.new ≡ coded_bytes self.now.head.now
            (codes_by self.now.head.now self.now.matrix.now stripe) payload.now }
    {
        let code = self.code(stripe);
        let columns = code.shape().k() as u8;
        let size = self.head.bytes() as usize;
        for number in 0..self.head.symbols() as u8 {
            let at = usize::from(number) * size;
            let symbol = &mut bytes[at..at + size];
            xor_around(
                self.kernel,
                code.row(number),
                columns,
                (payload, &[]),
                symbol,
            );
        }
    }

    /// The code of a stripe.
    fn code(&self, stripe: u32) -> Matrix
        requires { FitsCode self.now.head.now self.now.matrix.now }
        ensures code { result ≡ codes_by self.now.head.now self.now.matrix.now stripe }
        ensures rows { length result.rows ≡ stripe_symbols self.now.head.now }
        ensures columns { result.columns ≡ self.now.matrix.now.columns }
    {
        let devices = self.matrix.shape().n();
        if self.head.version() == 2 {
            self.matrix.rotated(stripe % devices)
        } else {
            *self.matrix
        }
    }

    /// As `read`, by this plan.
    fn read_by(&self, plan: &Plan, bytes: &[u8], number: u8, symbol: &mut [u8])
        requires plan { IsAmendable self.now.head.now plan.now }
        requires bytes { length bytes.now ≡ stripe_bytes self.now.head.now }
        requires number { number < stripe_symbols self.now.head.now }
        requires symbol { length symbol.old ≡ self.now.head.now.symbol_bytes }
        ensures { symbol.new ≡ mended_symbol self.now.head.now plan.now.recipes bytes.now number }
    {
        let size = self.head.bytes() as usize;
        let at = usize::from(number) * size;
        match sources_of(plan.recipes(), number) {
            Some(sources) => {
                let around = (&bytes[..at], &bytes[at + size..]);
                xor_around(self.kernel, sources, number, around, symbol);
            }
            None => symbol.copy_from_slice(&bytes[at..at + size]),
        }
    }

    /// As `mend`, by this plan.
    fn mend_by(&self, plan: &Plan, bytes: &mut [u8])
        requires plan { IsAmendable self.now.head.now plan.now }
        requires bytes { length bytes.old ≡ stripe_bytes self.now.head.now }
        ensures { bytes.new ≡ mended_bytes self.now.head.now plan.now.recipes bytes.old }
    {
        for recipe in plan.recipes() {
            self.mend_symbol(recipe.sources(), recipe.symbol(), bytes);
        }
    }

    /// Makes the symbol of this number the XOR of others.
    fn mend_symbol(&self, sources: Mask, number: u8, bytes: &mut [u8])
        requires number { number < stripe_symbols self.now.head.now }
        requires sources { (sources < 2 ^ stripe_symbols self.now.head.now)
            × (bit_at sources number ≡ 0) }
        requires bytes { length bytes.old ≡ stripe_bytes self.now.head.now }
        ensures { bytes.new ≡ with_symbol_at self.now.head.now.symbol_bytes number bytes.old
            (xor_symbols self.now.head.now.symbol_bytes
            (all_symbols self.now.head.now bytes.old) sources) }
    {
        let size = self.head.bytes() as usize;
        let (low, rest) = bytes.split_at_mut(usize::from(number) * size);
        let (symbol, high) = rest.split_at_mut(size);
        xor_around(self.kernel, sources, number, (low, high), symbol);
    }
}

/// The sources of the recipe of a symbol.
fn sources_of(recipes: &[Recipe], symbol: u8) -> Option<Mask>
    ensures { result ≡ equation_of recipes.now symbol }
{
    for recipe in recipes {
        if recipe.symbol() == symbol {
            return Some(recipe.sources());
        }
    }
    None
}

/// Makes `symbol`, whatever it held, the XOR of the symbols of a set. These stand in the bytes around a symbol that is not
/// one of them, that of the number `own`: before it and behind it.
fn xor_around(kernel: &XorKernel, set: Mask, own: u8, around: (&[u8], &[u8]), symbol: &mut [u8])
    requires { (i : ℕ) → bit_at set i ≡ 1
        → StandsAround (length symbol.old) own i around.0.now around.1.now }
    ensures { (n : ℕ) (stripe : List ℕ) → set < 2 ^ n
        → IsAround (length symbol.old) own stripe around.entry.0.now around.entry.1.now
        → symbol.new ≡ xor_symbols (length symbol.old)
        (symbols_in (length symbol.old) n stripe) set }
{
    let size = symbol.len();
    symbol.fill(0);
    for source in set.symbols() {
        kernel.xor_into(symbol, symbol_around(own, around, size, source));
    }
}

/// The symbol of another number than `own`, of `size` bytes, in the bytes around that one.
fn symbol_around<'a>(own: u8, around: (&'a [u8], &'a [u8]), size: usize, number: u8) -> &'a [u8]
    requires { StandsAround size own number around.0.now around.1.now }
    ensures size { length result.now ≡ size }
    ensures symbol { (stripe : List ℕ)
        → IsAround size own stripe around.entry.0.now around.entry.1.now
        → result.now ≡ symbol_in size stripe number }
{
    let (low, high) = around;
    if number < own {
        let at = usize::from(number) * size;
        &low[at..at + size]
    } else {
        let at = usize::from(number - own - 1) * size;
        &high[at..at + size]
    }
}

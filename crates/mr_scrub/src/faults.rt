ghost use Rattle.std.specs.Prelude.{◌≡◌, ℕ, ◌+◌, ◌*◌, ◌<◌, ◌≤◌, ◌==◌, ◌↔◌, length, slice_index, IsNone};
ghost use Rattle.std.specs.List.{list_all};
ghost use Rattle.mr_image.specs.Images.{xor_symbols};
ghost use Rattle.mr_scrub.specs.Stripes.{IsCodeword, checks_of, fault, is_broken, parts_of, symbols_of};

use crate::checks::Checks;
use mr_kern::XorKernel;

/// The symbols of a stripe.
#[derive(Drop)]
struct Stripe<'a> {
    /// Their bytes, one symbol after another.
    bytes: &'a [u8],
    /// The bytes of a symbol.
    size: usize,
    /// What adds them.
    kernel: &'a XorKernel,
}

/// The number of the first check whose symbols do not XOR to zero bytes, or None where the stripe is a codeword.
///
/// The stripe has its symbols one after another, each of `bytes` bytes. It takes no memory: `tmp`, which has some
/// bytes, holds a part of each XOR.
pub fn first_fault(
    checks: &Checks,
    kernel: &XorKernel,
    stripe: &[u8],
    bytes: u32,
    tmp: &mut [u8],
) -> Option<u32>
    requires stripe { length stripe.now ≡ length checks.now.rows * bytes }
    requires tmp { 0 < bytes → 0 < length tmp.old }
    ensures first { result ≡ fault checks.now bytes
        (symbols_of (length checks.now.rows) bytes stripe.now) }
    ensures none { IsNone result ↔ IsCodeword checks.now bytes
        (symbols_of (length checks.now.rows) bytes stripe.now) }
{
    let symbols = Stripe {
        bytes: stripe,
        size: bytes as usize,
        kernel,
    };
    for x in 0..checks.len() {
        if breaks(checks, x, &symbols, tmp) {
            return Some(x);
        }
    }
    None
}

/// Whether the symbols of check `x` do not XOR to zero bytes. It goes through them by parts as long as `tmp`.
fn breaks(checks: &Checks, x: u32, stripe: &Stripe, tmp: &mut [u8]) -> bool
    requires x { x < length (checks_of checks.now) }
    requires stripe { length stripe.now.bytes.now ≡ length checks.now.rows * stripe.now.size }
    requires tmp { 0 < stripe.now.size → 0 < length tmp.old }
    ensures { let symbols = symbols_of (length checks.now.rows) stripe.now.size
        stripe.now.bytes.now in
        result ≡ is_broken stripe.now.size symbols (slice_index (checks_of checks.now) x) }
{
    let size = stripe.size;
    let mut at = 0;
    while at < size {
        let len = tmp.len().min(size - at);
        let part = &mut tmp[..len];
        xor_part(checks, x, stripe, at, part);
        if !is_zero(part) {
            return true;
        }
        at += len;
    }
    false
}

/// Makes `part` the XOR of the bytes from `at` on of the symbols of check `x`, as many as it has.
fn xor_part(checks: &Checks, x: u32, stripe: &Stripe, at: usize, part: &mut [u8])
    requires x { x < length (checks_of checks.now) }
    requires stripe { length stripe.now.bytes.now ≡ length checks.now.rows * stripe.now.size }
    requires part { at + length part.old ≤ stripe.now.size }
    ensures { part.new ≡ xor_symbols (length part.old)
        (parts_of (length checks.now.rows) stripe.now.size at (length part.old)
        stripe.now.bytes.now) (slice_index (checks_of checks.now) x) }
{
    let Stripe {
        bytes,
        size,
        kernel,
    } = *stripe;
    part.fill(0);
    for symbol in checks.get(x).symbols() {
        let from = usize::from(symbol) * size + at;
        kernel.xor_into(part, &bytes[from..from + part.len()]);
    }
}

/// Whether each byte is 0.
fn is_zero(bytes: &[u8]) -> bool
    ensures { result ≡ list_all (λ b. b == 0) bytes.now }
{
    bytes.iter().all(|b| *b == 0)
}

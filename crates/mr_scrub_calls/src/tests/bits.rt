//! Single flipped bits of stripes that are codewords of published codes for the prime 5.

use mr_bits::{Mask, Matrix};
use mr_form::{evenodd, rdp};
use mr_kern::{XorKernel, block_plain};
use mr_scrub::{Checks, first_fault};
use std::alloc::Global;
use std::process::Abort;
use std::test::Fail;

/// The bytes of a symbol.
const SIZE: usize = 8;

/// The byte at a place of the codeword's symbol with these columns: the XOR of those of the symbols of data that go into it.
fn code_byte(columns: Mask, at: u8) -> u8 {
    let mut byte = 0;
    for column in columns.symbols() {
        byte ^= column.wrapping_mul(31).wrapping_add(at);
    }
    byte
}

/// A stripe that is a codeword.
fn codeword(alloc: Global, matrix: &Matrix) -> Result<Vec<u8>, Fail> {
    let shape = matrix.shape();
    let mut bytes = Vec::new(alloc);
    for symbol in 0..shape.symbols() as u8 {
        for at in 0..SIZE as u8 {
            bytes.push(code_byte(matrix.row(symbol), at))?;
        }
    }
    Ok(bytes)
}

/// Whether a stripe has a fault.
fn has_fault(rt: &impl Abort, checks: &Checks, stripe: &[u8]) -> bool {
    let symbols = checks.matrix().shape().symbols();
    assert!(rt;
        stripe.len() == symbols as usize * SIZE,
        "the stripe has no whole symbols"
    );
    let kernel = XorKernel::new(block_plain);
    first_fault(checks, &kernel, stripe, SIZE as u32, &mut [0; SIZE]).is_some()
}

/// The stripe with this bit of the byte at a place flipped.
fn flipped(alloc: Global, stripe: &[u8], place: usize, bit: u32) -> Result<Vec<u8>, Fail> {
    let mut bytes = Vec::from_slice(alloc, stripe)?;
    if let Some(byte) = bytes.get_mut(place) {
        *byte ^= 1 << (bit % 8);
    }
    Ok(bytes)
}

#[test]
fn flipped_bits(rt: HostRuntime) -> Result<(), Fail> {
    for code in [rdp(5), evenodd(5)] {
        let matrix = code.expect(&rt, "there is a code for the prime 5");
        let checks = Checks::of(&matrix);
        let whole = codeword(rt.alloc(), &matrix)?;
        assert!(&rt; !has_fault(&rt, &checks, &whole), "a codeword has a fault");
        for place in 0..whole.len() {
            for bit in 0..8 {
                let stripe = flipped(rt.alloc(), &whole, place, bit)?;
                assert!(&rt;
                    has_fault(&rt, &checks, &stripe),
                    "bit {bit} of byte {place} is not found"
                );
            }
        }
    }
    Ok(())
}

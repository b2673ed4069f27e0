//! A function for blocks that is neither of the two of the kernel.

ghost use Rattle.std.specs.Prelude.{◌≡◌};
ghost use Rattle.mr_kern.specs.Xor.{xor_bytes};

/// The XOR of two blocks, from the last byte down to the first.
pub fn block_downwards(a: [u8; 64], b: [u8; 64]) -> [u8; 64]
    ensures { result ≡ xor_bytes a b }
{
    let mut block = a;
    for done in 0..64usize {
        let at = 63 - done;
        block[at] ^= b[at];
    }
    block
}

ghost use Rattle.std.specs.Prelude.{◌≡◌};
ghost use Rattle.mr_kern.specs.Xor.{xor_bytes};

use std::simd::u8x64;

/// The XOR of two blocks, as one vector of 64 lanes: byte `i` is that of the bytes `i`. It is the fast one.
pub fn block_lanes(a: [u8; 64], b: [u8; 64]) -> [u8; 64]
    ensures { result ≡ xor_bytes a b }
{
    (u8x64::from_array(a) ^ u8x64::from_array(b)).to_array()
}

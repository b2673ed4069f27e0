//! Images of the matrix of row-diagonal parity for the prime 3.

use crate::bytes::Bytes;
use crate::cases::{Case, ON_RDP_3};
use mr_bits::NoMemory;
use mr_fixture::RDP_3;
use std::alloc::Global;

/// The head of an image of one stripe, with symbols of eight bytes.
pub const HEAD: &[u8] = b"MRIMAGE1\x04\0\0\0\x02\0\0\0\x08\0\0\0\x01\0\0\0\0\0\0\0\0\0\0\0";

/// The symbols of a codeword, a byte for each.
pub const WHOLE: &[u8] = b"\x01\x02\x04\x08\x05\x0a\x0b\x06";

/// These symbols where those of device 0 are overwritten.
pub const LOST: &[u8] = b"\xff\xff\x04\x08\x05\x0a\x0b\x06";

/// What a rebuild of that image reports where device 0 is lost.
pub const LEAST: &str =
    "plan 1 least\nset 3 5 6\n0 = 5 6\n1 = 3 5\nend\nleast cost 3 work 12\nstripes 1\n";

/// The rebuild of the image `i` of one stripe, whose device 0 is lost.
pub const REBUILD: Case = Case {
    words: &["rebuild", "m", "i", "0", "--workers=1"],
    files: &[("m", Bytes::Text(RDP_3)), ("i", Bytes::Image(HEAD, LOST))],
    out: Bytes::Image(HEAD, WHOLE),
    report: LEAST,
    taken: [55, 32, 24, 0, 48],
    ..ON_RDP_3
};

/// The head of an image of three stripes, with symbols of sixteen bytes.
const VARIED_HEAD: &[u8] = b"MRIMAGE1\x04\0\0\0\x02\0\0\0\x10\0\0\0\x03\0\0\0\0\0\0\0\0\0\0\0";

/// A byte of a symbol of data of the varied image.
fn data_byte(stripe: u8, symbol: u8, at: u8) -> u8 {
    stripe.wrapping_mul(85) ^ symbol.wrapping_mul(19) ^ at.wrapping_mul(7)
}

/// A byte of a symbol of the codeword of a stripe of the varied image: the XOR of those of data that the symbol's row has.
pub fn varied_byte(stripe: u8, symbol: u8, at: u8) -> u8 {
    let [a, b, c, d] = [
        data_byte(stripe, 0, at),
        data_byte(stripe, 1, at),
        data_byte(stripe, 2, at),
        data_byte(stripe, 3, at),
    ];
    match symbol {
        0 => a,
        1 => b,
        2 => c,
        3 => d,
        4 => a ^ c,
        5 => b ^ d,
        6 => a ^ b ^ d,
        _last => b ^ c,
    }
}

/// The data of the varied image: the bytes of the first four symbols of each stripe.
pub fn varied_data(alloc: Global) -> Result<Vec<u8>, NoMemory> {
    let mut bytes = Vec::new(alloc);
    for place in 0..192u8 {
        bytes.push(varied_byte(place / 64, place / 16 % 4, place % 16))?;
    }
    Ok(bytes)
}

/// The varied image, where each byte of this device, if one is named, is overwritten.
pub fn varied_image(alloc: Global, lost: Option<u8>) -> Result<Vec<u8>, NoMemory> {
    let mut image = Vec::from_slice(alloc, VARIED_HEAD)?;
    for symbol in 0..24u8 {
        for at in 0..16u8 {
            if lost == Some(symbol % 8 / 2) {
                image.push(0xee)?;
            } else {
                image.push(varied_byte(symbol / 8, symbol % 8, at))?;
            }
        }
    }
    Ok(image)
}

//! A rebuild of a large image, of row-diagonal parity for the prime 5.

use mr_fixture::RDP_5;
use mr_runs::Bytes::Text;
use mr_runs::{BARE, Case, Puts, ROOMY, SOUND, Schedule, Trial, check_trial};
use std::alloc::Global;
use std::test::Fail;

/// The stripes of the image.
const STRIPES: usize = 1_000;

/// The bytes of a symbol.
const SIZE: usize = 4_096;

/// The bytes of the image file: its head, and 24 symbols in each stripe.
const LENGTH: usize = 32 + STRIPES * 24 * SIZE;

/// The head of the image: 6 devices of 4 symbols.
const HEAD: &[u8] = b"MRIMAGE1\x06\0\0\0\x04\0\0\0\0\x10\0\0\xe8\x03\0\0\0\0\0\0\0\0\0\0";

/// What the rebuild reports where device 0 is lost: the plan reads 12 symbols, where those of rows alone are 16.
const REPORT: &str = "plan 1 least
set 4 6 7 10 11 14 15 17 18 19 20 21
0 = 11 14 17 20
1 = 4 15 18 21
2 = 6 10 14 18
3 = 7 11 15 19
end
least cost 12 work 976
stripes 1000
";

/// The byte of a symbol of the stripe with this row in the matrix text: the XOR of those of the symbols of data that go
/// into it, which are the stripe's number and seven times their own.
fn symbol_byte(row: &str, stripe: usize) -> u8 {
    let mut byte = 0;
    for (column, cell) in row.bytes().enumerate() {
        if cell == b'1' {
            byte ^= ((stripe % 256 + column % 16 * 7) % 256) as u8;
        }
    }
    byte
}

/// The image file, where the bytes of the first symbols, so many, of each stripe are ff. All bytes of a symbol are the same.
fn image_without(alloc: Global, lost: usize) -> Result<Vec<u8>, Fail> {
    let mut image = Vec::with_capacity(alloc, LENGTH)?;
    image.extend_from_slice(HEAD)?;
    for stripe in 0..STRIPES {
        for (line, row) in RDP_5.split('\n').enumerate() {
            if (1..=24).contains(&line) {
                let byte = if line <= lost {
                    0xff
                } else {
                    symbol_byte(row, stripe)
                };
                image.extend_from_slice(&[byte; SIZE])?;
            }
        }
    }
    Ok(image)
}

/// The rebuild, where `out` has room for the image.
static ROOM_FOR_ALL: Case = Case {
    words: &["rebuild", "m", "i", "0"],
    files: &[("m", Text(RDP_5))],
    schedule: Schedule {
        out: Puts {
            room: LENGTH,
            ..ROOMY
        },
        ..SOUND
    },
    taken: [424, 32, 49_152_000, 0, 81_920_000],
    ..BARE
};

/// The first device is lost. Each stripe is rebuilt from 12 symbols, and the other 20 are copied.
#[test]
fn first_device(rt: HostRuntime) -> Result<(), Fail> {
    let lost = image_without(rt.alloc(), 4)?;
    let whole = image_without(rt.alloc(), 0)?;
    assert_eq!(&rt; whole.len(), 98_304_032);
    let trial = Trial::of(rt.alloc(), &ROOM_FOR_ALL)?
        .over(rt.alloc(), "i", &lost)?
        .ends(rt.alloc(), 0, &whole, REPORT.as_bytes())?;
    Ok(check_trial(&rt, rt.alloc(), trial)?)
}

//! Each single device of row-diagonal parity for the prime 5, lost and rebuilt, in images of both versions.

use mr_bits::NoMemory;
use mr_fixture::RDP_5;
use mr_io::OpenGate;
use mr_runs::{Given, Trial, run_by};
use std::alloc::Global;
use std::test::Fail;

/// The devices of the matrix.
const DEVICES: usize = 6;

/// The symbols of a device.
const SYMBOLS: usize = 4;

/// The stripes of the images: one more than there are devices.
const STRIPES: usize = 7;

/// The bytes of a symbol.
const SIZE: usize = 8;

/// The heads of the images, of version 1 and of version 2.
static HEADS: [&[u8]; 2] = [
    b"MRIMAGE1\x06\0\0\0\x04\0\0\0\x08\0\0\0\x07\0\0\0\0\0\0\0\0\0\0\0",
    b"MRIMAGE2\x06\0\0\0\x04\0\0\0\x08\0\0\0\x07\0\0\0\0\0\0\0\0\0\0\0",
];

/// The byte at a place of the codeword's symbol with this row in the matrix text: the XOR of those of the symbols of data
/// that go into it.
fn code_byte(row: &str, stripe: usize, at: usize) -> u8 {
    let mut byte = 0;
    for (column, cell) in row.bytes().enumerate() {
        if cell == b'1' {
            byte ^= ((stripe % 7 * 31 + column % 16 * 7 + at % 8 * 3) % 256) as u8;
        }
    }
    byte
}

/// The row of the matrix text that a device's symbol has in a stripe, where in version 2 the devices have moved on by the
/// stripe's number, and behind the last comes the first.
fn row_of(version: usize, stripe: usize, device: usize, symbol: usize) -> &'static str {
    let moved = match version {
        2 => (device % DEVICES + DEVICES - stripe % DEVICES) % DEVICES,
        _first => device % DEVICES,
    };
    RDP_5
        .split('\n')
        .nth(1 + moved * SYMBOLS + symbol % SYMBOLS)
        .unwrap_or("")
}

/// The image file of codewords of this version, where the bytes of this device, if one is named, are ff.
fn image_without(
    alloc: Global,
    version: usize,
    head: &[u8],
    lost: Option<usize>,
) -> Result<Vec<u8>, NoMemory> {
    let mut image = Vec::from_slice(alloc, head)?;
    for place in 0..STRIPES * DEVICES * SYMBOLS {
        let (stripe, symbol) = (place / (DEVICES * SYMBOLS), place % (DEVICES * SYMBOLS));
        let device = symbol / SYMBOLS;
        let row = row_of(version, stripe, device, symbol % SYMBOLS);
        for at in 0..SIZE {
            let byte = if lost == Some(device) {
                0xff
            } else {
                code_byte(row, stripe, at)
            };
            image.push(byte)?;
        }
    }
    Ok(image)
}

#[test]
fn devices(rt: HostRuntime) -> Result<(), Fail> {
    for (place, head) in HEADS.iter().enumerate() {
        let version = place % 2 + 1;
        let whole = image_without(rt.alloc(), version, head, None)?;
        for device in 0..DEVICES {
            let line = format!(in rt.alloc(); "rebuild m i {device}")?;
            let lost = image_without(rt.alloc(), version, head, Some(device))?;
            let trial = Trial::bare(rt.alloc())?
                .by(rt.alloc(), &line)?
                .over(rt.alloc(), "m", RDP_5.as_bytes())?
                .over(rt.alloc(), "i", &lost)?;
            let given = Given {
                files: trial.files,
                script: trial.script,
                schedule: trial.schedule,
            };
            let ran = run_by(&rt, rt.alloc(), &trial.words, given, &OpenGate)?;
            assert_eq!(&rt; ran.status, 0, "the status of version {version}, {line}");
            assert!(&rt; ran.out == whole, "the image of version {version}, {line}");
        }
    }
    Ok(())
}

//! The tests. Those of named symbols are over row-diagonal parity of the prime 3: symbol 4 is the XOR of 0 and 2, 5 that of 1
//! and 3, 6 that of 0, 1 and 3, and 7 that of 1 and 2.

mod bits;

use mr_bits::Matrix;
use mr_fixture::{RDP_3, shown};
use mr_form::read_matrix;
use mr_image::ImageHead;
use mr_io::{Duty, Eye, Files, SureEye, SureFiles, SureSink, Text};
use mr_kern::{XorKernel, block_plain};
use mr_scrub::{Broken, Checks, Scrub, print_scrub, scan, scrub};
use std::alloc::Global;
use std::process::Abort;
use std::test::Fail;
use std::thread::Threads;

/// The matrix.
fn code(rt: &impl Abort) -> Matrix {
    let bytes = RDP_3.as_bytes();
    assert!(rt; bytes.len() <= 65_536, "the text is too long");
    read_matrix(bytes).expect(rt, "the text is a matrix")
}

/// Its checks as numbers: the symbols 0 2 4, 1 3 5, 0 1 3 6 and 1 2 7.
static CHECKS: [u128; 4] = [21, 42, 75, 134];

#[test]
fn checks(rt: HostRuntime) {
    let checks = Checks::of(&code(&rt));
    assert_eq!(&rt; checks.len(), 4);
    for (x, check) in CHECKS.iter().enumerate() {
        assert_eq!(&rt; checks.get(x as u32).number(), *check, "check {x}");
    }
}

/// Two stripes, each byte of them eight times.
const STRIPES: [u8; 16] = [1, 2, 4, 8, 5, 10, 11, 6, 255, 255, 4, 8, 5, 10, 11, 6];

/// The bytes of the stripes.
fn stripes() -> [u8; 128] {
    let mut bytes = [0; 128];
    for i in 0..128usize {
        bytes[i] = STRIPES[i / 8];
    }
    bytes
}

#[test]
fn scans(rt: HostRuntime) -> Result<(), Fail> {
    let matrix = code(&rt);
    let checks = [Checks::of(&matrix)];
    let kernel = XorKernel::new(block_plain);
    let head = ImageHead::new(matrix.shape(), 8, 2)?;
    let bytes = stripes();
    assert_eq!(&rt; head.symbols(), 8);
    assert_eq!(&rt; matrix.shape().symbols(), 8);
    let alone = scan(&rt, rt.alloc(), &checks, &kernel, &bytes[64..], &head, 1)?;
    assert_eq!(&rt; alone.as_slice(), [Some(0)].as_slice());
    let both = scan(&rt, rt.alloc(), &checks, &kernel, &bytes, &head, 0)?;
    assert_eq!(&rt; both.as_slice(), [None, Some(0)].as_slice());
    Ok(())
}

/// An image: whether it is of version 2, its symbols, each byte of them eight times, and what is told of it.
struct Scrubbed {
    rotated: bool,
    symbols: &'static [u8],
    text: &'static str,
}

/// The data are bytes 1, 2, 4 and 8, and in the second stripe 16 times as much. In version 2 the devices of the second
/// stripe, of two symbols each, have moved on by one: its symbols 0 to 3 are kept, and 7 is the XOR of 0 and 2.
static IMAGES: [Scrubbed; 7] = [
    Scrubbed {
        rotated: false,
        symbols: &[1, 2, 4, 8, 5, 10, 11, 6],
        text: "stripes 1 bad 0\n",
    },
    Scrubbed {
        rotated: false,
        symbols: &[255, 255, 4, 8, 5, 10, 11, 6],
        text: "stripe 0 check 0 2 4\nstripes 1 bad 1\n",
    },
    Scrubbed {
        rotated: false,
        symbols: &[1, 2, 4, 8, 5, 10, 11, 7],
        text: "stripe 0 check 1 2 7\nstripes 1 bad 1\n",
    },
    Scrubbed {
        rotated: true,
        symbols: &[1, 2, 4, 8, 5, 10, 11, 6, 176, 96, 16, 32, 64, 128, 80, 160],
        text: "stripes 2 bad 0\n",
    },
    Scrubbed {
        rotated: false,
        symbols: &[1, 2, 4, 8, 5, 10, 11, 6, 176, 96, 16, 32, 64, 128, 80, 160],
        text: "stripe 1 check 0 2 4\nstripes 2 bad 1\n",
    },
    Scrubbed {
        rotated: true,
        symbols: &[1, 2, 4, 8, 5, 10, 11, 7, 176, 96, 16, 32, 64, 128, 80, 161],
        text: "stripe 0 check 1 2 7\nstripe 1 check 0 2 7\nstripes 2 bad 2\n",
    },
    Scrubbed {
        rotated: true,
        symbols: &[],
        text: "stripes 0 bad 0\n",
    },
];

/// The head of an image of these stripes, with symbols of eight bytes.
fn head_of(matrix: &Matrix, stripes: u32, rotated: bool) -> Result<ImageHead, Fail> {
    let head = ImageHead::new(matrix.shape(), 8, stripes)?;
    Ok(if rotated { head.rotated() } else { head })
}

/// The image as the file `i`.
fn files_of(alloc: Global, head: &ImageHead, symbols: &[u8]) -> Result<SureFiles, Fail> {
    let mut bytes = Vec::from_slice(alloc, &head.print())?;
    for symbol in symbols {
        bytes.extend_from_slice(&[*symbol; 8])?;
    }
    let mut list = Vec::new(alloc);
    list.push((Text::copy_of(alloc, "i")?, bytes))?;
    Ok(SureFiles::new(alloc, list)?)
}

/// The broken stripes of the image behind an eye.
fn broken_in(
    rt: &(impl Abort + Threads + Sync),
    alloc: Global,
    eye: &mut SureEye,
    matrix: &Matrix,
    head: &ImageHead,
) -> Result<Vec<Broken>, Fail> {
    let shape = matrix.shape();
    let length = eye.len()?;
    assert!(rt; length == head.file_bytes());
    assert!(rt; head.n() == shape.n() && head.w() == shape.w());
    let kernel = XorKernel::new(block_plain);
    let by = Scrub {
        matrix,
        head,
        kernel: &kernel,
    };
    Ok(scrub(rt, alloc, eye, &by)?)
}

/// What is told of an image, and the bytes that were taken of it.
fn told_of(
    rt: &(impl Abort + Threads + Sync),
    alloc: Global,
    image: &Scrubbed,
) -> Result<(SureSink, u64), Fail> {
    let matrix = code(rt);
    assert!(rt; image.symbols.len() <= 16, "there are too many symbols");
    let head = head_of(&matrix, image.symbols.len() as u32 / 8, image.rotated)?;
    let mut files = files_of(alloc, &head, image.symbols)?;
    let mut eye = files.eye("i", Duty::Copy)?;
    let broken = broken_in(rt, alloc, &mut eye, &matrix, &head);
    files.retire(eye);
    let broken = broken?;
    let mut out = SureSink::new(alloc, 1024)?;
    print_scrub(&mut out, head.stripes(), &broken)?;
    Ok((out, files.total(Duty::Copy)))
}

#[test]
fn scrubs(rt: HostRuntime) -> Result<(), Fail> {
    for image in &IMAGES {
        let (out, taken) = told_of(&rt, rt.alloc(), image)?;
        assert_eq!(&rt; shown(out.bytes()), image.text);
        assert_eq!(&rt; taken, image.symbols.len() as u64 * 8, "of {}", image.text);
    }
    Ok(())
}

//! The heads of image files that `rebuild` refuses, and the lengths of the files.

use mr_runs::{HEAD, LOST, Trial, check_trial, image_of};
use std::alloc::Global;
use std::process::Abort;
use std::test::Fail;
use std::thread::Threads;

/// Bytes of a head at their places, the status and what is refused: a field that is not right, or a number above its limit.
/// Where two are, the first of them is said.
static HEADS: [(&[(usize, u8)], u8, &str); 26] = [
    (&[(0, b'm')], 5, "status 5 image head\n"),
    (&[(7, b'3')], 5, "status 5 image head\n"),
    (&[(24, 1)], 5, "status 5 image head\n"),
    (&[(31, 1)], 5, "status 5 image head\n"),
    (&[(8, 3)], 5, "status 5 image shape\n"),
    (&[(11, 1)], 5, "status 5 image shape\n"),
    (&[(12, 4)], 5, "status 5 image shape\n"),
    (&[(8, 2), (12, 4)], 5, "status 5 image shape\n"),
    (&[(16, 0)], 5, "status 5 image bytes\n"),
    (&[(16, 12)], 5, "status 5 image bytes\n"),
    (&[(16, 1), (18, 1)], 5, "status 5 image bytes\n"),
    (&[(18, 1)], 3, "status 3 large symbolbytes 65544\n"),
    (
        &[(16, 0xf8), (17, 0xff), (18, 0xff), (19, 0xff)],
        3,
        "status 3 large symbolbytes 4294967288\n",
    ),
    (&[(22, 0x40)], 3, "status 3 large imagebytes 268435520\n"),
    (
        &[
            (16, 0),
            (18, 1),
            (20, 0xff),
            (21, 0xff),
            (22, 0xff),
            (23, 0xff),
        ],
        3,
        "status 3 large imagebytes 2251799813160960\n",
    ),
    (&[(20, 0), (22, 0x40)], 5, "status 5 image length\n"),
    (&[(16, 0), (18, 1)], 5, "status 5 image length\n"),
    (&[(20, 2)], 5, "status 5 image length\n"),
    (&[(20, 0)], 5, "status 5 image length\n"),
    (&[(0, b'm'), (12, 4)], 5, "status 5 image head\n"),
    (&[(31, 1), (8, 3), (16, 0)], 5, "status 5 image head\n"),
    (&[(12, 4), (16, 12)], 5, "status 5 image shape\n"),
    (&[(12, 4), (18, 1)], 5, "status 5 image shape\n"),
    (&[(16, 12), (22, 0x40)], 5, "status 5 image bytes\n"),
    (
        &[(18, 1), (22, 0x40)],
        3,
        "status 3 large symbolbytes 65544\n",
    ),
    (
        &[(22, 0x40), (16, 16)],
        3,
        "status 3 large imagebytes 536871040\n",
    ),
];

/// The image whose device 0 is lost, with these bytes of its head at their places.
fn image_with(rt: &impl Abort, alloc: Global, places: &[(usize, u8)]) -> Result<Vec<u8>, Fail> {
    let mut image = image_of(alloc, HEAD, LOST)?;
    for (place, byte) in places {
        assert!(rt; *place < image.len());
        image[*place] = *byte;
    }
    Ok(image)
}

/// Asserts what is refused of an image file, of which these bytes of the head are read.
fn check_image<T: Threads + Sync>(
    rt: &T,
    alloc: Global,
    image: &[u8],
    fault: (u8, &str),
    head: u64,
) -> Result<(), Fail> {
    let trial = Trial::on_rdp_3(alloc)?
        .by(alloc, "rebuild m i 0")?
        .over(alloc, "i", image)?
        .ends(alloc, fault.0, b"", fault.1.as_bytes())?
        .takes([55, head, 0, 0, 0]);
    Ok(check_trial(rt, alloc, trial)?)
}

#[test]
fn heads(rt: HostRuntime) -> Result<(), Fail> {
    for (places, status, report) in &HEADS {
        let image = image_with(&rt, rt.alloc(), places)?;
        check_image(&rt, rt.alloc(), &image, (*status, report), 32)?;
    }
    Ok(())
}

/// The bytes of the file, the fault, and the bytes of its head that are read.
static LENGTHS: [(usize, &str, u64); 5] = [
    (0, "status 5 image head\n", 0),
    (31, "status 5 image head\n", 0),
    (32, "status 5 image length\n", 32),
    (95, "status 5 image length\n", 32),
    (97, "status 5 image length\n", 32),
];

/// The file ends too early or too late.
#[test]
fn lengths(rt: HostRuntime) -> Result<(), Fail> {
    let mut image = image_with(&rt, rt.alloc(), &[])?;
    image.push(0)?;
    for (count, report, head) in &LENGTHS {
        assert!(&rt; *count <= image.len());
        check_image(&rt, rt.alloc(), &image[..*count], (5, report), *head)?;
    }
    Ok(())
}

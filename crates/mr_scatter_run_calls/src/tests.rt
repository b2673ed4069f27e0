//! The tests: devices 1 and 3 of an array of row-diagonal parity of the prime 3 are written, from stripe 1 on. There are two
//! stripes of eight symbols, two on each device, and each symbol is one byte eight times.

ghost use Rattle.std.specs.Prelude.{◌≡◌, [], IfOk, length};
ghost use Rattle.mr_scatter_run.specs.Tasks.{numbers_in};

use mr_array_words::ScatterWords;
use mr_devices::MemDevices;
use mr_fixture::{RDP_3, shown};
use mr_io::{MemFiles, MemSink, MemSource, Text};
use mr_scatter_run::{Lent, scatter_image};
use std::alloc::Global;
use std::test::Fail;

/// The head of the image: version 1, 4 devices, 2 symbols, 8 bytes, 2 stripes.
const HEAD: [u8; 32] =
    *b"MRIMAGE1\x04\x00\x00\x00\x02\x00\x00\x00\x08\x00\x00\x00\x02\x00\x00\x00\x00\x00\x00\x00\x00\x00\x00\x00";

/// The symbols of the two stripes.
const SYMBOLS: &[u8; 16] = b"abcdefghijklmnop";

/// What a run left: its status and its report, and where it answered 0 what the two files hold.
#[derive(Drop)]
struct Run {
    status: u8,
    report: MemSink,
    first: Vec<u8>,
    second: Vec<u8>,
}

/// Each of these eight times.
fn each_eight_times(alloc: Global, symbols: &[u8]) -> Result<Vec<u8>, Fail> {
    let mut bytes = Vec::new(alloc);
    for symbol in symbols {
        bytes.extend_from_slice(&[*symbol; 8])?;
    }
    Ok(bytes)
}

/// The image file.
fn image(alloc: Global) -> Result<Vec<u8>, Fail> {
    let mut bytes = Vec::from_slice(alloc, &HEAD)?;
    bytes.extend_from_slice(&each_eight_times(alloc, SYMBOLS)?)?;
    Ok(bytes)
}

/// The words `matrix 1 1,3 first second`.
fn words(alloc: Global) -> Result<ScatterWords, Fail>
    ensures two { IfOk result (λ words. length words.devices.items ≡ 2) }
    ensures listed { IfOk result (λ words. length words.devices.items ≡ length (numbers_in words.lost)) }
{
    let mut devices = Vec::new(alloc);
    devices.push(Text::copy_of(alloc, "first")?)?;
    devices.push(Text::copy_of(alloc, "second")?)?;
    Ok(ScatterWords {
        matrix: Text::copy_of(alloc, "matrix")?,
        first: 1,
        lost: Text::copy_of(alloc, "1,3")?,
        devices,
    })
}

/// The file of the matrix.
fn matrix_files(alloc: Global) -> Result<MemFiles, Fail> {
    let mut files = Vec::new(alloc);
    let bytes = Vec::from_slice(alloc, RDP_3.as_bytes())?;
    files.push((Text::copy_of(alloc, "matrix")?, bytes))?;
    Ok(MemFiles::new(alloc, files, Vec::new(alloc))?)
}

/// The device files, of which the first has 20 bytes and the second is not there.
fn device_files(alloc: Global) -> Result<MemDevices, Fail>
    ensures { IfOk result (λ devices. devices.opened ≡ []) }
{
    let mut files = Vec::new(alloc);
    let bytes = Vec::from_slice(alloc, b"xxxxxxxxxxxxxxxxxxxx")?;
    files.push((Text::copy_of(alloc, "first")?, bytes))?;
    Ok(MemDevices::new(alloc, files, Vec::new(alloc)))
}

/// A run over this image.
fn run_of(alloc: Global, image: Vec<u8>) -> Result<Run, Fail> {
    let words = words(alloc)?;
    let mut files = matrix_files(alloc)?;
    let mut source = MemSource::new(image, Vec::new(alloc));
    let mut devices = device_files(alloc)?;
    let mut run = Run {
        status: 0,
        report: MemSink::new(alloc, 1_000, Vec::new(alloc), Vec::new(alloc))?,
        first: Vec::new(alloc),
        second: Vec::new(alloc),
    };
    let mut lent = Lent {
        files: &mut files,
        source: &mut source,
        devices: &mut devices,
    };
    run.status = scatter_image(alloc, &words, &mut lent, &mut run.report);
    if run.status == 0 {
        run.first.extend_from_slice(lent.devices.bytes(0))?;
        run.second.extend_from_slice(lent.devices.bytes(1))?;
    }
    Ok(run)
}

#[test]
fn parts_of_two_devices(rt: HostRuntime) -> Result<(), Fail> {
    let run = run_of(rt.alloc(), image(rt.alloc())?)?;
    assert!(rt; run.status == 0, "{}", shown(run.report.bytes()));
    assert_eq!(rt; shown(run.report.bytes()), "stripes 2 written 64\n");
    assert_eq!(rt;
        shown(&run.first),
        "xxxxxxxxxxxxxxxxccccccccddddddddkkkkkkkkllllllll"
    );
    assert_eq!(rt;
        shown(&run.second),
        "\0\0\0\0\0\0\0\0\0\0\0\0\0\0\0\0gggggggghhhhhhhhoooooooopppppppp"
    );
    Ok(())
}

#[test]
fn an_image_that_ends_early(rt: HostRuntime) -> Result<(), Fail> {
    let mut image = image(rt.alloc())?;
    image.truncate(159);
    let run = run_of(rt.alloc(), image)?;
    assert_eq!(rt; run.status, 5);
    assert_eq!(rt;
        shown(run.report.bytes()),
        "stripes 1\nstatus 5 image length\n"
    );
    Ok(())
}

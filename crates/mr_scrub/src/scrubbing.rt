//! The scrub of a whole image, part by part.

ghost use Rattle.std.specs.Prelude.{◌≡◌, ◌+◌, ◌*◌, ◌<◌, ◌≤◌, ◌^◌, ◌++◌, length, map, take, drop, All, IfOk, IfSome, IsErrOf, OnOk};
ghost use Rattle.std.specs.List.{range_with_len};
ghost use Rattle.mr_model.specs.Code.{Code};
ghost use Rattle.mr_io.specs.Counts.{Rose};
ghost use Rattle.mr_io.specs.Sights.{sight_with};
ghost use Rattle.mr_image.specs.Images.{body_bytes, image_of, stripe_symbols};
ghost use Rattle.mr_image.specs.Rotated.{FitsCode, codes_by, rotations};
ghost use Rattle.mr_image.specs.Sights.{HasImage, IsSameFile};
ghost use Rattle.mr_scrub.specs.Stripes.{checks_of};
ghost use Rattle.mr_scrub.specs.Scans.{code_at, stripe_bytes};
ghost use Rattle.mr_scrub.specs.Scrubs.{AreFaults, broken_at, broken_by, broken_in, broken_stripes};

use crate::broken::Broken;
use crate::checks::Checks;
use crate::scans::scan;
use crate::scrubs::{Part, Scanner, Scrub};
use mr_bits::{Matrix, NoMemory};
use mr_image::{HEAD_BYTES, ImageHead};
use mr_io::{Eye, Failed, FilesError};
use std::alloc::Global;
use std::thread::Threads;

/// The most bytes of an image that are read at a time. A stripe has at most half as many.
pub const PART_BYTES: usize = 16_777_216;

/// The broken stripes of the image behind an eye: those that are no codewords, upwards, each with the first check of its
/// code that its symbols break.
///
/// The head is of the matrix's devices and symbols. In an image of version 2 each stripe is of the code whose devices
/// have moved on by its number. It reads whole stripes, `PART_BYTES` bytes at a time at most, each part by one read, and
/// scans a part in as many threads as there are processors.
///
/// It answers `Memory` for want of memory, and `Failed` where a read failed.
pub fn scrub<T: Threads + Sync, E: Eye>(
    rt: &T,
    alloc: Global,
    eye: &mut E,
    scrub: &Scrub,
) -> Result<Vec<Broken>, FilesError>
    requires fits { FitsCode scrub.now.head.now scrub.now.matrix.now }
    requires eye { HasImage scrub.now.head.now (E.sight eye.old) }
    ensures broken { IfOk result (λ broken. IfSome (E.sight eye.old).bytes (λ bytes.
        broken.items ≡ broken_stripes scrub.now.head.now
        (codes_by scrub.now.head.now scrub.now.matrix.now)
        (image_of scrub.now.head.now bytes))) }
    ensures taken { OnOk result (E.sight eye.new ≡ sight_with (E.sight eye.old)
        (body_bytes scrub.now.head.now)) }
    ensures file { IsSameFile (E.sight eye.old) (E.sight eye.new) }
    ensures later { E.faults eye.old ≤ E.faults eye.new }
    ensures quiet { OnOk result (E.faults eye.new ≡ E.faults eye.old) }
    ensures cause { IsErrOf result FilesError.Failed → Rose (E.faults eye.old) (E.faults eye.new) }
{
    let Scrub {
        matrix,
        head,
        kernel,
    } = *scrub;
    let _within_the_limits = matrix.shape();
    let checks = checks_by(alloc, matrix, head)?;
    let mut buffer = buffer_for(alloc, head)?;
    let scanner = Scanner {
        checks: &checks,
        head,
        kernel,
    };
    scrub_parts(rt, alloc, eye, &scanner, &mut buffer)
}

/// The checks of the code of each rotation in use.
fn checks_by(alloc: Global, matrix: &Matrix, head: &ImageHead) -> Result<Vec<Checks>, FilesError>
    requires { FitsCode head.now matrix.now }
    ensures codes { IfOk result (λ checks. checks.items ≡ map (codes_by head.now matrix.now)
        (range_with_len 0 (rotations head.now))) }
    ensures some { IfOk result (λ checks. 0 < length checks.items) }
    ensures shape { IfOk result (λ checks.
        All (λ (m : Code). length m.rows ≡ stripe_symbols head.now) checks.items) }
    ensures memory { IsErrOf result FilesError.Failed → ⊥ }
{
    let _within_the_limits = matrix.shape();
    let mut checks = Vec::new(alloc);
    for rotation in 0..head.rotations() {
        checks.push(Checks::of(&code_of(matrix, head, rotation)))?;
    }
    Ok(checks)
}

/// The matrix of the stripes of this rotation.
fn code_of(matrix: &Matrix, head: &ImageHead, rotation: u32) -> Matrix
    requires { rotation < matrix.now.devices }
    ensures { result ≡ codes_by head.now matrix.now rotation }
{
    if head.version() == 2 {
        matrix.rotated(rotation)
    } else {
        *matrix
    }
}

/// Room for the part of an image that is read at a time: for one stripe at least.
fn buffer_for(alloc: Global, head: &ImageHead) -> Result<Vec<u8>, FilesError>
    ensures room { IfOk result (λ buffer. stripe_bytes head.now ≤ length buffer.items) }
    ensures memory { IsErrOf result FilesError.Failed → ⊥ }
{
    let width = stripe_width(head);
    let most = (PART_BYTES / width).min(head.stripes() as usize).max(1);
    let buffer = vec![in alloc; 0; most * width]?;
    Ok(buffer)
}

/// The broken stripes of the image behind an eye, by these checks, upwards. `buffer` has room for one stripe at least, and
/// takes as many of them at a time as it has room for, each time by one read.
fn scrub_parts<T: Threads + Sync, E: Eye>(
    rt: &T,
    alloc: Global,
    eye: &mut E,
    scanner: &Scanner,
    buffer: &mut [u8],
) -> Result<Vec<Broken>, FilesError>
    requires some { 0 < length scanner.now.checks.now }
    requires shape { All (λ (m : Code). length m.rows ≡ stripe_symbols scanner.now.head.now)
        scanner.now.checks.now }
    requires eye { HasImage scanner.now.head.now (E.sight eye.old) }
    requires buffer { stripe_bytes scanner.now.head.now ≤ length buffer.old }
    ensures broken { IfOk result (λ broken. IfSome (E.sight eye.old).bytes (λ bytes.
        broken.items ≡ broken_stripes scanner.now.head.now (code_at scanner.now.checks.now)
        (image_of scanner.now.head.now bytes))) }
    ensures taken { OnOk result (E.sight eye.new ≡ sight_with (E.sight eye.old)
        (body_bytes scanner.now.head.now)) }
    ensures file { IsSameFile (E.sight eye.old) (E.sight eye.new) }
    ensures later { E.faults eye.old ≤ E.faults eye.new }
    ensures quiet { OnOk result (E.faults eye.new ≡ E.faults eye.old) }
    ensures cause { IsErrOf result FilesError.Failed → Rose (E.faults eye.old) (E.faults eye.new) }
{
    let head = scanner.head;
    let width = stripe_width(head);
    let most = buffer.len() / width;
    let stripes = head.stripes() as usize;
    let mut broken = Vec::new(alloc);
    let mut first = 0;
    while first < stripes {
        let count = most.min(stripes - first);
        let part = &mut buffer[..count * width];
        read_part(eye, head, first as u32, part)?;
        let part = Part {
            first: first as u32,
            bytes: part,
        };
        add_broken(rt, alloc, scanner, &part, &mut broken)?;
        first += count;
    }
    Ok(broken)
}

/// The bytes of a stripe, from 8 to 8,388,608.
fn stripe_width(head: &ImageHead) -> usize
    ensures bytes { result ≡ stripe_bytes head.now }
    ensures some { 8 ≤ result }
    ensures few { result ≤ 8388608 }
{
    head.symbols() as usize * head.bytes() as usize
}

/// Fills `part` with the bytes of the stripes from `first` on.
fn read_part<E: Eye>(
    eye: &mut E,
    head: &ImageHead,
    first: u32,
    part: &mut [u8],
) -> Result<(), FilesError>
    requires eye { HasImage head.now (E.sight eye.old) }
    requires part { first * stripe_bytes head.now + length part.old ≤ body_bytes head.now }
    ensures read { OnOk result (IfSome (E.sight eye.old).bytes (λ bytes.
        part.new ≡ take (length part.old) (drop (32 + first * stripe_bytes head.now) bytes))) }
    ensures taken { OnOk result (E.sight eye.new ≡ sight_with (E.sight eye.old)
        (length part.old)) }
    ensures file { IsSameFile (E.sight eye.old) (E.sight eye.new) }
    ensures later { E.faults eye.old ≤ E.faults eye.new }
    ensures quiet { OnOk result (E.faults eye.new ≡ E.faults eye.old) }
    ensures cause { IsErrOf result FilesError.Failed → Rose (E.faults eye.old) (E.faults eye.new) }
{
    let at = HEAD_BYTES + u64::from(first) * stripe_width(head) as u64;
    match eye.read_at(at, part) {
        Ok(()) => Ok(()),
        Err(Failed) => Err(FilesError::Failed),
    }
}

/// Appends the broken stripes of a part of the image.
fn add_broken<T: Threads + Sync>(
    rt: &T,
    alloc: Global,
    scanner: &Scanner,
    part: &Part,
    broken: &mut Vec<Broken>,
) -> Result<(), FilesError>
    requires some { 0 < length scanner.now.checks.now }
    requires shape { All (λ (m : Code). length m.rows ≡ stripe_symbols scanner.now.head.now)
        scanner.now.checks.now }
    requires few { part.now.first * stripe_bytes scanner.now.head.now + length part.now.bytes.now
        ≤ body_bytes scanner.now.head.now }
    ensures added { OnOk result (broken.new.items ≡ broken.old.items
        ++ broken_in scanner.now.checks.now scanner.now.head.now part.now.first part.now.bytes.now) }
    ensures memory { IsErrOf result FilesError.Failed → ⊥ }
{
    let Scanner {
        checks,
        head,
        kernel,
    } = *scanner;
    let _within_the_limits = head.bytes();
    match scan(rt, alloc, checks, kernel, part.bytes, head, part.first) {
        Ok(faults) => add_faults(checks, part.first, &faults, broken),
        Err(NoMemory) => Err(FilesError::Memory),
    }
}

/// Appends the broken stripes of those with these first faults, of which the first has number `first`.
fn add_faults(
    checks: &[Checks],
    first: u32,
    faults: &[Option<u32>],
    broken: &mut Vec<Broken>,
) -> Result<(), FilesError>
    requires some { 0 < length checks.now }
    requires few { first + length faults.now < 2 ^ 32 }
    requires faults { AreFaults checks.now first faults.now }
    ensures added { OnOk result (broken.new.items ≡ broken.old.items
        ++ broken_by checks.now first faults.now) }
    ensures memory { IsErrOf result FilesError.Failed → ⊥ }
{
    for (k, fault) in faults.iter().enumerate() {
        let stripe = first + k as u32;
        let own = &checks[stripe as usize % checks.len()];
        add_fault(own, stripe, *fault, broken)?;
    }
    Ok(())
}

/// Appends the stripe with this first fault, if it has one.
fn add_fault(
    checks: &Checks,
    stripe: u32,
    fault: Option<u32>,
    broken: &mut Vec<Broken>,
) -> Result<(), FilesError>
    requires { IfSome fault (λ x. x < length (checks_of checks.now)) }
    ensures added { OnOk result (broken.new.items ≡ broken.old.items
        ++ broken_at checks.now stripe fault) }
    ensures memory { IsErrOf result FilesError.Failed → ⊥ }
{
    if let Some(x) = fault {
        let check = checks.get(x);
        broken.push(Broken { stripe, check })?;
    }
    Ok(())
}

//! Whole inputs read from a source.

ghost use Rattle.std.specs.Prelude.{◌≡◌, ◌+◌, ◌<◌, ◌≤◌, length, IfOk, IsErrOf, OnErr, OnOk};
ghost use Rattle.std.specs.Option.{ForSome};
ghost use Rattle.mr_io.specs.Counts.{Rose};
ghost use Rattle.mr_io.specs.Reading.{ReadsAll, ReadsFront, ReadsMore};

use crate::errors::FilesError;
use crate::sources::Source;
use std::alloc::Global;

// The most bytes that one call asks for.
const CHUNK: usize = 4096;

/// Reads a source to its end, or until more than `limit` bytes came, and gives these bytes, which are at most
/// `limit + 1`. It ends for every source, also for one that never ends.
///
/// It answers `Failed` where a call of the source failed, and `Memory` for want of memory. What was read is then lost,
/// a front of what was left of at most `limit + 1` bytes, and a source that tells tells of the rest.
pub fn read_source<S: Source>(
    alloc: Global,
    source: &mut S,
    limit: usize,
) -> Result<Vec<u8>, FilesError>
    ensures all { IfOk result (λ bytes. ForSome (S.left source.old) (λ left.
        ReadsAll left (S.left source.new) bytes.items limit)) }
    ensures few { IfOk result (λ bytes. length bytes.items ≤ limit + 1) }
    ensures front { ReadsFront (S.left source.old) (S.left source.new) (limit + 1) }
    ensures later { S.faults source.old ≤ S.faults source.new }
    ensures quiet { OnOk result (S.faults source.new ≡ S.faults source.old) }
    ensures cause { IsErrOf result FilesError.Failed
        → Rose (S.faults source.old) (S.faults source.new) }
{
    let mut bytes = Vec::new(alloc);
    while bytes.len() <= limit {
        let most = (limit - bytes.len()).min(CHUNK - 1) + 1;
        if !read_more(source, &mut bytes, most)? {
            return Ok(bytes);
        }
    }
    Ok(bytes)
}

// Appends what one call gives, at most `most` bytes, and says whether it gave any.
fn read_more<S: Source>(
    source: &mut S,
    bytes: &mut Vec<u8>,
    most: usize,
) -> Result<bool, FilesError>
    requires some { 0 < most }
    requires few { most ≤ CHUNK }
    ensures more { IfOk result (λ more. ReadsMore (S.left source.old) (S.left source.new)
        bytes.old.items bytes.new.items most more) }
    ensures front { ReadsFront (S.left source.old) (S.left source.new) most }
    ensures later { S.faults source.old ≤ S.faults source.new }
    ensures quiet { OnOk result (S.faults source.new ≡ S.faults source.old) }
    ensures cause { IsErrOf result FilesError.Failed
        → Rose (S.faults source.old) (S.faults source.new) }
{
    let mut chunk = [0; CHUNK];
    match source.get(&mut chunk[..most]) {
        Ok(count) => {
            bytes.extend_from_slice(&chunk[..count])?;
            Ok(count > 0)
        }
        Err(_) => Err(FilesError::Failed),
    }
}

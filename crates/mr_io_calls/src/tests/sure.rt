//! The forms in memory that never fail, and a whole input read from a source.

use mr_io::{Duty, Eye, Files, Sink, Source, SureFiles, SureSink, SureSource, Text, read_source};
use std::test::Fail;

/// A source gives as many bytes as fit, and is read to its end or until there is a byte above the limit. A sink takes every
/// byte, and keeps those that fit.
#[test]
fn sources_and_sinks(rt: HostRuntime) -> Result<(), Fail> {
    let mut source = SureSource::new(Vec::from_slice(rt.alloc(), b"0123456789")?);
    let mut bytes = [0; 5];
    assert_eq!(rt; source.get(&mut bytes), Ok(5));
    assert_eq!(rt; bytes, *b"01234");
    let read = read_source(rt.alloc(), &mut source, 3)?;
    assert_eq!(rt; read.as_slice(), b"5678".as_slice());
    assert_eq!(rt; source.get(&mut bytes), Ok(1));
    assert_eq!(rt; source.get(&mut bytes), Ok(0));
    let mut sink = SureSink::new(rt.alloc(), 5)?;
    assert_eq!(rt; sink.put(b"abc"), Ok(3));
    assert_eq!(rt; sink.put(b"def"), Ok(3));
    assert_eq!(rt; sink.put(b"g"), Ok(1));
    assert_eq!(rt; sink.bytes(), b"abcde".as_slice());
    Ok(())
}

/// An eye reads the bytes of its file, and they are counted where it is taken back. A file that is not there is empty.
#[test]
fn files(rt: HostRuntime) -> Result<(), Fail> {
    let alloc = rt.alloc();
    let mut list = Vec::new(alloc);
    list.push((
        Text::copy_of(alloc, "a")?,
        Vec::from_slice(alloc, b"hello")?,
    ))?;
    let mut files = SureFiles::new(alloc, list)?;
    let mut eye = files.eye("a", Duty::Live)?;
    let mut bytes = [0; 3];
    let length = eye.len();
    let read = eye.read_at(1, &mut bytes);
    files.retire(eye);
    assert_eq!(rt; length, Ok(5));
    assert_eq!(rt; read, Ok(()));
    assert_eq!(rt; bytes.as_slice(), b"ell".as_slice());
    assert_eq!(rt; files.total(Duty::Live), 3);
    let mut none = files.eye("b", Duty::Live)?;
    let length = none.len();
    files.retire(none);
    assert_eq!(rt; length, Ok(0));
    assert_eq!(rt; files.total(Duty::Live), 3);
    Ok(())
}

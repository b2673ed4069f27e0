//! The adapters of the real system, one test for each.

ghost use Rattle.std.specs.Prelude.{◌≡◌, None};

use mr_io::{
    DiskEye, DiskFiles, Duty, Eye, Failed, Files, FilesError, Sink, Source, StdSink, StdSource,
};
use std::fs::File;
use std::process::Abort;
use std::test::Fail;
use std::{fs, io};

/// A file that is there lends an eye, and its bytes are counted where the eye is taken back. A file that is not there
/// is a fault.
#[test]
fn disk_files(rt: HostRuntime) -> Result<(), Fail> {
    fs::write(&rt, "mr_calls_there", b"0123456789".as_slice())?;
    let mut files = DiskFiles::new(&rt);
    let mut eye = files.eye("mr_calls_there", Duty::Copy)?;
    let mut bytes = [0; 4];
    let read = eye.read_at(3, &mut bytes);
    files.retire(eye);
    assert_eq!(rt; read, Ok(()));
    assert_eq!(rt; bytes.as_slice(), b"3456".as_slice());
    assert_eq!(rt; files.total(Duty::Copy), 4, "bytes copied");
    assert_eq!(rt;
        files.faults(),
        0,
        "faults before the file that is not there"
    );
    match files.eye("mr_calls_missing", Duty::Copy) {
        Ok(eye) => {
            files.retire(eye);
            assert!(rt; false, "an eye on a file that is not there");
        }
        Err(error) => assert_eq!(rt; error, FilesError::Failed),
    }
    assert_eq!(rt; files.faults(), 1, "faults after it");
    assert_eq!(rt; files.total(Duty::Copy), 4, "bytes copied after it");
    fs::remove_file(&rt, "mr_calls_there")?;
    Ok(())
}

/// Asserts what a read of some bytes from a place answers. The eye tells nothing of its bytes.
fn assert_read(
    rt: &impl Abort,
    eye: &mut DiskEye,
    at: u64,
    count: usize,
    wanted: Result<&[u8], Failed>,
)
    requires { eye.old.sight.bytes ≡ None }
    ensures { eye.new.sight.bytes ≡ None }
{
    let mut room = [0; 8];
    assert!(rt; count <= 8);
    let answer = eye.read_at(at, &mut room[..count]);
    match (answer, wanted) {
        (Ok(()), Ok(bytes)) => assert!(rt;
            &room[..count] == bytes,
            "{count} bytes at {at}: {room:?}"
        ),
        (answer, _) => assert!(rt; answer.is_err() && wanted.is_err(), "{count} bytes at {at}"),
    }
}

/// An eye on a file reads within it. A read past its end fails and takes nothing, an empty one too.
#[test]
fn disk_eye(rt: HostRuntime) -> Result<(), Fail> {
    fs::write(&rt, "mr_calls_eye", b"0123456789".as_slice())?;
    let mut files = DiskFiles::new(&rt);
    let mut eye = files.eye("mr_calls_eye", Duty::Head)?;
    let length = eye.len();
    assert_read(&rt, &mut eye, 0, 8, Ok(b"01234567"));
    assert_read(&rt, &mut eye, 8, 2, Ok(b"89"));
    assert_read(&rt, &mut eye, 10, 0, Ok(b""));
    assert_read(&rt, &mut eye, 8, 3, Err(Failed));
    assert_read(&rt, &mut eye, 10, 1, Err(Failed));
    assert_read(&rt, &mut eye, 11, 0, Err(Failed));
    files.retire(eye);
    assert_eq!(rt; length, Ok(10));
    assert_eq!(rt; files.total(Duty::Head), 10, "bytes of heads");
    assert_eq!(rt; files.faults(), 3, "faults of the eye");
    fs::remove_file(&rt, "mr_calls_eye")?;
    Ok(())
}

/// A sink over a stream passes its bytes on. Where the stream is closed it fails.
#[test]
fn std_sink(rt: HostRuntime) -> Result<(), Fail> {
    let (mut reader, writer) = io::pipe(&rt)?;
    let mut sink = StdSink::new(writer);
    let put = sink.put(b"hello");
    let mut bytes = [0; 8];
    let count = io::Read::read(&mut reader, &mut bytes)?;
    assert_eq!(rt; put, Ok(5));
    assert_eq!(rt; count, 5);
    assert_eq!(rt; bytes, *b"hello\0\0\0");
    assert_eq!(rt; sink.faults(), 0, "faults of the open stream");
    drop(reader);
    assert_eq!(rt; sink.put(b"again"), Err(Failed));
    assert_eq!(rt; sink.put(b"again"), Err(Failed));
    assert_eq!(rt; sink.faults(), 2, "faults of the closed stream");
    Ok(())
}

/// A source over a stream gives its bytes, and none at its end. A directory cannot be read: each call fails.
#[test]
fn std_source(rt: HostRuntime) -> Result<(), Fail> {
    let (reader, mut writer) = io::pipe(&rt)?;
    io::Write::write_all(&mut writer, b"hello")?;
    drop(writer);
    let mut source = StdSource::new(reader);
    let mut bytes = [0; 8];
    assert_eq!(rt; source.get(&mut bytes), Ok(5));
    assert_eq!(rt; bytes, *b"hello\0\0\0");
    assert_eq!(rt; source.get(&mut bytes), Ok(0));
    assert_eq!(rt; source.faults(), 0, "faults of the pipe");
    let mut source = StdSource::new(File::open(&rt, ".")?);
    assert_eq!(rt; source.get(&mut bytes), Err(Failed));
    assert_eq!(rt; source.get(&mut bytes), Err(Failed));
    assert_eq!(rt; source.faults(), 2, "faults of the directory");
    Ok(())
}

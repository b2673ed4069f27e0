//! Words of both commands, read with ample memory.

use crate::{ArrayWords, read_array_words};
use mr_io::Text;
use std::alloc::{AllocError, Global};
use std::test::Fail;

// The words of a line, with single spaces between them.
fn words_in(alloc: Global, line: &str) -> Result<Vec<String>, AllocError> {
    let mut words = Vec::new(alloc);
    for word in line.split(' ') {
        words.push(String::from_str(alloc, word)?)?;
    }
    Ok(words)
}

fn is_named(device: &Option<Text>, name: &str) -> bool {
    match device {
        Some(text) => text.is(name),
        None => false,
    }
}

/// An option among the places, and a lost device.
#[test]
fn words_of_gather(rt: HostRuntime) -> Result<(), Fail> {
    let words = words_in(rt.alloc(), "arrays gather m 8 2 4 a --plan p - -- --b")?;
    let answer = read_array_words(rt.alloc(), &words);
    if let Ok(ArrayWords::Gather(read)) = &answer {
        assert!(rt; read.matrix.is("m"));
        assert_eq!(rt; (read.bytes, read.first, read.stripes), (8, 2, 4));
        assert!(rt; is_named(&read.plan, "p"));
        assert_eq!(rt; read.devices.len(), 3);
        assert!(rt; is_named(&read.devices[0], "a"));
        assert!(rt; read.devices[1].is_none());
        assert!(rt; is_named(&read.devices[2], "--b"));
    } else {
        assert!(rt; false);
    }
    Ok(())
}

/// As many devices as LOST lists, of which one has the name `-`.
#[test]
fn words_of_scatter(rt: HostRuntime) -> Result<(), Fail> {
    let words = words_in(rt.alloc(), "arrays scatter m 2 0,3 - b")?;
    let answer = read_array_words(rt.alloc(), &words);
    if let Ok(ArrayWords::Scatter(read)) = &answer {
        assert!(rt; read.matrix.is("m"));
        assert_eq!(rt; read.first, 2);
        assert!(rt; read.lost.is("0,3"));
        assert_eq!(rt; read.devices.len(), 2);
        assert!(rt; read.devices[0].is("-"));
        assert!(rt; read.devices[1].is("b"));
    } else {
        assert!(rt; false);
    }
    Ok(())
}

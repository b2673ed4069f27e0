//! Tests of the lines.

use crate::lines::{put_ask, put_history};
use crate::slots::Slot;
use mr_history::Entry;
use mr_io::MemSink;
use mr_ops::{Op, Payload};
use std::test::Fail;

/// A read and a write that were made, and the history of their stripe.
#[test]
fn lines(rt: HostRuntime) -> Result<(), Fail> {
    let alloc = rt.alloc();
    let mut out = MemSink::new(alloc, 100, Vec::new(alloc), Vec::new(alloc))?;
    let mut digits = [0; 6];
    let read = Op::Read {
        stripe: 10,
        symbol: 7,
    };
    let slot = Slot {
        number: 0,
        place: 1,
        reply: Vec::from_slice(alloc, &[0, 10, 255])?,
    };
    assert!(&rt; put_ask(&mut out, &read, &slot, &mut digits).is_ok());
    let write = Op::Write {
        stripe: 10,
        payload: Payload::of(Vec::new(alloc)),
    };
    let slot = Slot {
        number: 1,
        place: 0,
        reply: Vec::from_slice(alloc, &[0, 0, 0])?,
    };
    assert!(&rt; put_ask(&mut out, &write, &slot, &mut digits).is_ok());
    let history = [
        Entry::Ask { number: 1 },
        Entry::Ask { number: 0 },
        Entry::Mend,
    ];
    assert!(&rt; put_history(&mut out, 10, &history).is_ok());
    let text = b"read 10 7 place 1 000aff\nwrite 10 place 0\nhistory 10 1 0 mend\n";
    assert!(&rt; out.bytes() == text.as_slice());
    Ok(())
}

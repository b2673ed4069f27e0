//! The command `drill`. Its digests are those of an own program, which makes the codewords from their definition and mends
//! nothing.

use crate::tests::rows::{Row, check_rows};
use mr_runs::Bytes;
use std::test::Fail;

/// No file is read.
const NONE: Bytes = Bytes::Text("");

/// Drills that lose a data device, the device of row parity, and that of diagonal parity, whose rebuild reads more.
static DRILLS: [Row; 4] = [
    (
        NONE,
        "drill 0",
        0,
        "drill 0\nlost 0\nleast cost 12\nstripes 64\nreplies 64\nimage 487a0ac152c34000\nreply 9b7ef4db14a24300\n",
        "",
    ),
    (
        NONE,
        "drill 4",
        0,
        "drill 4\nlost 4\nleast cost 12\nstripes 64\nreplies 64\nimage 263709c5a2d14000\nreply 43b0c15d33faa500\n",
        "",
    ),
    (
        NONE,
        "drill -- 5",
        0,
        "drill 5\nlost 5\nleast cost 16\nstripes 64\nreplies 64\nimage c64dde71388ec000\nreply 68f0985755f70400\n",
        "",
    ),
    (
        NONE,
        "drill 999999999",
        0,
        "drill 999999999\nlost 3\nleast cost 12\nstripes 64\nreplies 64\nimage b9cc460faf55c000\nreply 102fbc5aed189100\n",
        "",
    ),
];

#[test]
fn drills(rt: HostRuntime) -> Result<(), Fail> {
    check_rows(&rt, rt.alloc(), &DRILLS)
}

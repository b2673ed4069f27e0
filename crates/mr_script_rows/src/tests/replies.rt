//! The replies of images of one stripe.

use mr_runs::{HEAD, LEAST, LOST, Trial, WHOLE, check_trial, image_of};
use std::test::Fail;

/// The lines of replies of all symbols of the codeword, upwards.
const UPWARDS: &str = "reply 0 0 0101010101010101
reply 0 1 0202020202020202
reply 0 2 0404040404040404
reply 0 3 0808080808080808
reply 0 4 0505050505050505
reply 0 5 0a0a0a0a0a0a0a0a
reply 0 6 0b0b0b0b0b0b0b0b
reply 0 7 0606060606060606
";

/// The lines of replies of all symbols of the codeword, downwards.
const DOWNWARDS: &str = "reply 0 7 0606060606060606
reply 0 6 0b0b0b0b0b0b0b0b
reply 0 5 0a0a0a0a0a0a0a0a
reply 0 4 0505050505050505
reply 0 3 0808080808080808
reply 0 2 0404040404040404
reply 0 1 0202020202020202
reply 0 0 0101010101010101
";

/// A rebuilt symbol twice, and a survivor between.
const THREE: &str =
    "reply 0 0 0101010101010101\nreply 0 3 0808080808080808\nreply 0 0 0101010101010101\n";

/// The words, the symbols of the image and those of the rebuilt one, the script, the lines of replies, and the bytes taken for
/// them.
type Reads = (
    &'static str,
    &'static [u8],
    &'static [u8],
    &'static str,
    &'static str,
    u64,
);

/// No read, the reads of all symbols, upwards and downwards, and one alone or more than once, by any number of workers. Each
/// read of a survivor takes eight bytes. And survivors that are those of no codeword: each is answered as it is, and each lost
/// symbol by its recipe.
static READS: [Reads; 11] = [
    ("rebuild m i 0", LOST, WHOLE, "0 0\n0 3\n0 0\n", THREE, 8),
    (
        "rebuild m i 0 --workers=1",
        LOST,
        WHOLE,
        "0 0\n0 3\n0 0\n",
        THREE,
        8,
    ),
    (
        "rebuild m i 0 --workers=2",
        LOST,
        WHOLE,
        "0 0\n0 3\n0 0\n",
        THREE,
        8,
    ),
    (
        "rebuild m i 0 --workers=64",
        LOST,
        WHOLE,
        "0 0\n0 3\n0 0\n",
        THREE,
        8,
    ),
    ("rebuild m i 0", LOST, WHOLE, "", "", 0),
    (
        "rebuild m i 0",
        LOST,
        WHOLE,
        "0 0\n0 1\n0 2\n0 3\n0 4\n0 5\n0 6\n0 7\n",
        UPWARDS,
        48,
    ),
    (
        "rebuild m i 0",
        LOST,
        WHOLE,
        "0 7\n0 6\n0 5\n0 4\n0 3\n0 2\n0 1\n0 0\n",
        DOWNWARDS,
        48,
    ),
    (
        "rebuild m i 0",
        LOST,
        WHOLE,
        "0 1\n",
        "reply 0 1 0202020202020202\n",
        0,
    ),
    (
        "rebuild m i 0",
        LOST,
        WHOLE,
        "0 5\n0 5\n0 5\n",
        "reply 0 5 0a0a0a0a0a0a0a0a\nreply 0 5 0a0a0a0a0a0a0a0a\nreply 0 5 0a0a0a0a0a0a0a0a\n",
        24,
    ),
    (
        "rebuild m i 0",
        b"\xff\xff\x04\x08\x05\x0a\x0b\x07",
        b"\x01\x02\x04\x08\x05\x0a\x0b\x07",
        "0 7\n0 0\n",
        "reply 0 7 0707070707070707\nreply 0 0 0101010101010101\n",
        8,
    ),
    (
        "rebuild m i 0",
        b"\xff\xff\x04\x08\x05\x1a\x0b\x06",
        b"\x11\x12\x04\x08\x05\x1a\x0b\x06",
        "0 1\n0 5\n0 0\n",
        "reply 0 1 1212121212121212\nreply 0 5 1a1a1a1a1a1a1a1a\nreply 0 0 1111111111111111\n",
        8,
    ),
];

#[test]
fn replies(rt: HostRuntime) -> Result<(), Fail> {
    for (line, symbols, mended, script, lines, live) in &READS {
        let report = format!(in rt.alloc(); "{LEAST}{lines}")?;
        let trial = Trial::on_rdp_3(rt.alloc())?
            .by(rt.alloc(), line)?
            .over(rt.alloc(), "i", &image_of(rt.alloc(), HEAD, symbols)?)?
            .asks(rt.alloc(), script.as_bytes())?
            .ends(
                rt.alloc(),
                0,
                &image_of(rt.alloc(), HEAD, mended)?,
                report.as_bytes(),
            )?
            .takes([55, 32, 24, *live, 48]);
        check_trial(&rt, rt.alloc(), trial)?;
    }
    Ok(())
}

//! What a drill comes to, and its lines.

ghost use Rattle.std.specs.Prelude.{◌≡◌};
ghost use Rattle.mr_io.specs.Counts.{HasCause};
ghost use Rattle.mr_io.specs.Taking.{Puts};
ghost use Rattle.mr_drill_run.specs.Summaries.{digest_text, summary_text};

use crate::running::READS;
use itoa::Buffer;
use mr_drill::STRIPES;
use mr_io::{Failed, Sink, put_pieces};

/// The digits of a digest.
const DIGITS: usize = 16;

/// What a drill comes to.
#[derive(Drop)]
pub struct Summary {
    /// The number of the drill.
    pub number: u32,
    /// The device that was lost.
    pub lost: u32,
    /// What the plan costs by which the image was rebuilt.
    pub cost: u32,
    /// The digest of the bytes of the rebuilt image behind its head.
    pub image: u64,
    /// The digest of the replies, joined in the order of the reads.
    pub replies: u64,
}

/// Writes the seven lines of a drill. Takes no memory.
#[tactic(auto, unfolding(crate::specs::Summaries::summary_text))]
pub fn print_summary<K: Sink>(summary: &Summary, out: &mut K) -> Result<(), Failed>
    ensures puts { Puts (K.held out.old) (K.held out.new) result (summary_text summary.now) }
    ensures cause { HasCause (K.faults out.old) (K.faults out.new) result }
{
    let (mut number, mut lost, mut cost) = (Buffer::new(), Buffer::new(), Buffer::new());
    let (mut stripes, mut replies) = (Buffer::new(), Buffer::new());
    put_pieces(
        out,
        &[
            b"drill ",
            number.format(summary.number).as_bytes(),
            b"\nlost ",
            lost.format(summary.lost).as_bytes(),
            b"\nleast cost ",
            cost.format(summary.cost).as_bytes(),
            b"\nstripes ",
            stripes.format(STRIPES).as_bytes(),
            b"\nreplies ",
            replies.format(READS).as_bytes(),
            b"\nimage ",
            &digits_of(summary.image),
            b"\nreply ",
            &digits_of(summary.replies),
            b"\n",
        ],
    )
}

/// A digest as sixteen lower-case hexadecimal digits.
fn digits_of(digest: u64) -> [u8; DIGITS]
    ensures { result ≡ digest_text digest }
{
    let bytes = digest.to_be_bytes();
    let mut digits = [0; DIGITS];
    let _ = hex::encode_to_slice(bytes.as_slice(), &mut digits);
    digits
}

//! The head of a stream.

ghost use Rattle.std.specs.Prelude.{◌≡◌, ◌+◌, ◌*◌, ◌≤◌, Some, drop, min, IfOk, OnOk};
ghost use Rattle.std.specs.Option.{ForSome};
ghost use Rattle.mr_image.specs.Heads.{number_at};
ghost use Rattle.mr_image.specs.declared.limits.TheConstants.{HEAD_BYTES, SYMBOL_LIMIT};
ghost use Rattle.mr_steps.specs.Steps.{Gives, HasReadCause, IsPastWords};
ghost use Rattle.mr_scatter_run.specs.Tasks.{head_given, stream_head};

use mr_bits::Shape;
use mr_form::{ImageHead, ImageKind};
use mr_image::{HEAD_BYTES, SYMBOL_LIMIT};
use mr_io::Source;
use mr_scatter::fill;
use mr_steps::Fault;

/// The bytes of a head.
const HEAD: usize = HEAD_BYTES as usize;

/// The head of the image that a source gives, for a code of this shape. What is left behind the head is not looked at.
pub(crate) fn read_stream_head<S: Source>(source: &mut S, shape: Shape) -> Result<ImageHead, Fault>
    ensures given { ForSome (S.left source.old)
        (λ left. Gives (λ head. head) result (stream_head shape left)) }
    ensures rest { OnOk result (ForSome (S.left source.old)
        (λ left. S.left source.new ≡ Some (drop HEAD_BYTES left))) }
    ensures devices { IfOk result (λ head. head.devices ≡ shape.devices) }
    ensures cause { HasReadCause (S.faults source.old) (S.faults source.new) result }
    ensures past_words { IsPastWords result }
{
    let mut bytes = [0; HEAD];
    if fill(source, &mut bytes)? < HEAD {
        return Err(Fault::BadImage {
            kind: ImageKind::Head,
        });
    }
    head_in(&bytes, shape)
}

/// The head that these bytes spell, for a file of the length that their own numbers name.
fn head_in(bytes: &[u8; 32], shape: Shape) -> Result<ImageHead, Fault>
    ensures given { Gives (λ head. head) result (head_given shape bytes.now) }
    ensures devices { IfOk result (λ head. head.devices ≡ shape.devices) }
    ensures cause { HasReadCause 0 0 result }
    ensures past_words { IsPastWords result }
{
    let head = ImageHead::read(bytes, shape, named_length(bytes, shape))?;
    Ok(head)
}

/// The length that a file with the numbers of this head has, where its symbols are not too large; some length
/// where they are.
fn named_length(head: &[u8; 32], shape: Shape) -> u64
    ensures named { result ≡ HEAD_BYTES + number_at 20 head.now
        * (shape.devices * shape.symbols_per_device) * min (number_at 16 head.now) SYMBOL_LIMIT }
    ensures some { HEAD_BYTES ≤ result }
{
    let bytes = read_number(head, 16).min(SYMBOL_LIMIT);
    let stripes = read_number(head, 20);
    HEAD_BYTES + u64::from(stripes) * u64::from(shape.symbols()) * u64::from(bytes)
}

/// The number of the four bytes from `at` on, the lowest first.
#[tactic(auto, unfolding(mr_image::specs::Heads::number_at))]
fn read_number(head: &[u8; 32], at: usize) -> u32
    requires { at + 4 ≤ 32 }
    ensures { result ≡ number_at at head.now }
{
    let mut number = [0; 4];
    number.copy_from_slice(&head[at..at + 4]);
    u32::from_le_bytes(number)
}

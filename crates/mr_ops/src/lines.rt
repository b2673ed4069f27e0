//! The line at the front of a script.

ghost use Rattle.std.specs.Prelude.{◌≡◌, ◌≢◌, ℕ, ◌<◌, ◌≤◌, List, ◌∷◌, ◌++◌, length, codes, decimal, IfOk, IfSome, IfNone, IsErrOf};
ghost use Rattle.mr_model.specs.Code.{most_columns};
ghost use Rattle.mr_ops.specs.Ops.{BeginsWithNone, IsOpOf, op_line};

use crate::ops::Op;
use crate::payloads::read_payload;
use crate::unread::Unread;
use mr_image::ImageHead;
use mr_mend::next_ask;
use mr_text::{read_number, split_at_byte};
use std::alloc::Global;

/// The ask of the line at the front, and what is left behind its line feed. `Line` exactly where that line is of none.
pub(crate) fn next_op<'a>(
    alloc: Global,
    left: &'a [u8],
    head: &ImageHead,
    k: u32,
) -> Result<(Op, &'a [u8]), Unread>
    requires { k ≤ most_columns }
    ensures text { IfOk result (λ next. left.now ≡ op_line next.0 ++ next.1.now) }
    ensures in_range { IfOk result (λ next. IsOpOf head.now k next.0) }
    ensures shorter { IfOk result (λ next. length next.1.now < length left.now) }
    ensures none { IsErrOf result Unread.Line → BeginsWithNone head.now k left.now }
{
    if left.len() <= 2 || left[1] != b' ' {
        return Err(Unread::Line);
    }
    match left[0] {
        b'r' => next_read(&left[2..], head, k).ok_or(Unread::Line),
        b'w' => next_write(alloc, &left[2..], head, k),
        _ => Err(Unread::Line),
    }
}

/// The ask of a line that begins with `r` and a space, behind these.
fn next_read<'a>(rest: &'a [u8], head: &ImageHead, _k: u32) -> Option<(Op, &'a [u8])>
    requires { 0 < length rest.now }
    ensures text { IfSome result (λ next.
        codes "r " ++ rest.now ≡ op_line next.0 ++ next.1.now) }
    ensures in_range { IfSome result (λ next. IsOpOf head.now _k next.0) }
    ensures shorter { IfSome result (λ next. length next.1.now < length rest.now) }
    ensures none { IfNone result (BeginsWithNone head.now _k (codes "r " ++ rest.now)) }
{
    let (ask, later) = next_ask(rest, head)?;
    let op = Op::Read {
        stripe: ask.stripe,
        symbol: ask.symbol,
    };
    Some((op, later))
}

/// The ask of a line that begins with `w` and a space, behind these.
fn next_write<'a>(
    alloc: Global,
    rest: &'a [u8],
    head: &ImageHead,
    k: u32,
) -> Result<(Op, &'a [u8]), Unread>
    requires { k ≤ most_columns }
    ensures text { IfOk result (λ next.
        codes "w " ++ rest.now ≡ op_line next.0 ++ next.1.now) }
    ensures in_range { IfOk result (λ next. IsOpOf head.now k next.0) }
    ensures shorter { IfOk result (λ next. length next.1.now < length rest.now) }
    ensures none { IsErrOf result Unread.Line
        → BeginsWithNone head.now k (codes "w " ++ rest.now) }
{
    let size = k as usize * head.bytes() as usize;
    let Some((stripe, text)) = next_stripe(rest, head) else {
        return Err(Unread::Line);
    };
    let Some((digits, later)) = split_line(text, 2 * size) else {
        return Err(Unread::Line);
    };
    match read_payload(alloc, digits) {
        Ok(payload) => Ok((Op::Write { stripe, payload }, later)),
        Err(unread) => Err(unread),
    }
}

/// The stripe of the image whose number stands before the first space, and what stands behind that.
fn next_stripe<'a>(text: &'a [u8], head: &ImageHead) -> Option<(u32, &'a [u8])>
    ensures text { IfSome result (λ next. text.now ≡ decimal next.0 ++ (codes " " ++ next.1.now)) }
    ensures low { IfSome result (λ next. next.0 < head.now.stripes) }
    ensures shorter { IfSome result (λ next. length next.1.now < length text.now) }
    ensures none { IfNone result ((stripe : ℕ) (more : List ℕ)
        → stripe < head.now.stripes → text.now ≢ decimal stripe ++ (codes " " ++ more)) }
{
    let _within_the_limits = head.bytes();
    let (number, rest) = split_at_byte(text, b' ')?;
    let stripe = read_number(number)?;
    if stripe < head.stripes() {
        Some((stripe, rest))
    } else {
        None
    }
}

/// What stands before a line feed at this place, and what stands behind it.
fn split_line(text: &[u8], place: usize) -> Option<(&[u8], &[u8])>
    ensures text { IfSome result (λ split.
        text.now ≡ split.0.now ++ (codes "\n" ++ split.1.now)) }
    ensures long { IfSome result (λ split. length split.0.now ≡ place) }
    ensures shorter { IfSome result (λ split. length split.1.now < length text.now) }
    ensures none { IfNone result ((line more : List ℕ)
        → length line ≡ place → text.now ≢ line ++ (codes "\n" ++ more)) }
{
    if place < text.len() && text[place] == b'\n' {
        Some((&text[..place], &text[place + 1..]))
    } else {
        None
    }
}

//! The reading of a script: one ask on each line.

ghost use Rattle.std.specs.Prelude.{◌≡◌, ℕ, ◌+◌, ◌*◌, ◌<◌, ◌≤◌, ◌++◌, count_by, length, All, IfOk, IsErrOf};
ghost use Rattle.mr_bits.specs.declared.errors.Large.{Large};
ghost use Rattle.mr_mend.specs.declared.limits.TheConstants.{REPLY_LIMIT};
ghost use Rattle.mr_ops.specs.declared.scripts.TheConstants.{OPS_LIMIT};
ghost use Rattle.mr_model.specs.Code.{most_columns};
ghost use Rattle.mr_ops.specs.Ops.{HasFirstBadLine, HasLargeReplies, IsOpOf, is_read, ops_text};

use crate::lines::next_op;
use crate::ops::Op;
use crate::unread::Unread;
use mr_bits::{Large, What};
use mr_image::ImageHead;
use mr_mend::{REPLY_LIMIT, ScriptFault};
use std::alloc::Global;

/// The most bytes of a script of reads and writes.
pub const OPS_LIMIT: usize = 16_777_216;

/// The asks of a script, in order. On each line stands `r`, the number of a stripe of the image and the number of a symbol
/// of a stripe, or `w`, the number of a stripe and a payload of `k` symbols as two lower-case hexadecimal digits for each
/// byte; one space stands between them. The last line has its line feed too. An empty script asks for nothing.
///
/// It answers `Line` at the first line that is not of its form, and then `Large` with `ReplyBytes` and the bytes of the
/// replies to all reads where these are above 67,108,864. It goes through the bytes once.
pub fn read_ops(
    alloc: Global,
    bytes: &[u8],
    head: &ImageHead,
    k: u32,
) -> Result<Vec<Op>, ScriptFault>
    requires bytes { length bytes.now ≤ OPS_LIMIT }
    requires columns { k ≤ most_columns }
    ensures text { IfOk result (λ ops. bytes.now ≡ ops_text ops.items) }
    ensures in_range { IfOk result (λ ops. All (IsOpOf head.now k) ops.items) }
    ensures few { IfOk result (λ ops. length ops.items ≤ length bytes.now) }
    ensures small { IfOk result (λ ops.
        count_by is_read ops.items * head.now.symbol_bytes ≤ REPLY_LIMIT) }
    ensures bad_line { (line : ℕ) → IsErrOf result (ScriptFault.Line line)
        → HasFirstBadLine head.now k bytes.now line }
    ensures large { (large : Large) → IsErrOf result (ScriptFault.Large large)
        → HasLargeReplies head.now k bytes.now large }
{
    let ops = read_lines(alloc, bytes, head, k)?;
    let number = reads_in(&ops) * u64::from(head.bytes());
    if number > REPLY_LIMIT {
        return Err(ScriptFault::Large(Large {
            what: What::ReplyBytes,
            number,
        }));
    }
    Ok(ops)
}

/// The ask of each line, or the first line that is of none.
fn read_lines(alloc: Global, bytes: &[u8], head: &ImageHead, k: u32) -> Result<Vec<Op>, ScriptFault>
    requires bytes { length bytes.now ≤ OPS_LIMIT }
    requires columns { k ≤ most_columns }
    ensures text { IfOk result (λ ops. bytes.now ≡ ops_text ops.items) }
    ensures in_range { IfOk result (λ ops. All (IsOpOf head.now k) ops.items) }
    ensures few { IfOk result (λ ops. length ops.items ≤ length bytes.now) }
    ensures bad_line { (line : ℕ) → IsErrOf result (ScriptFault.Line line)
        → HasFirstBadLine head.now k bytes.now line }
    ensures small { (large : Large) → IsErrOf result (ScriptFault.Large large) → ⊥ }
{
    let mut ops = Vec::new(alloc);
    let mut left = bytes;
    while !left.is_empty() {
        let line = ops.len() as u32 + 1;
        let (op, rest) = match next_op(alloc, left, head, k) {
            Ok(next) => next,
            Err(Unread::Line) => return Err(ScriptFault::Line { line }),
            Err(Unread::Memory) => return Err(ScriptFault::Memory),
        };
        ops.push(op)?;
        left = rest;
    }
    Ok(ops)
}

/// How many of these asks read.
fn reads_in(ops: &[Op]) -> u64
    requires { length ops.now ≤ OPS_LIMIT }
    ensures count { result ≡ count_by is_read ops.now }
    ensures few { result ≤ length ops.now }
{
    let mut count = 0;
    for op in ops {
        if op.is_read() {
            count += 1;
        }
    }
    count
}

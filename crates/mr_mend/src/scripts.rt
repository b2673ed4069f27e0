//! The reading of a script: one read on each line.

ghost use Rattle.std.specs.Prelude.{◌≡◌, ◌≢◌, ℕ, ◌==◌, ◌+◌, ◌<◌, ◌≤◌, ◌⊎◌, List, ◌++◌, Some, Ok, Err, length, All, IfOk, IfErr, IfSome, IfNone, IsErrOf, MatchOption};
ghost use Rattle.mr_text.specs.Lines.{pieces};
ghost use Rattle.mr_bits.specs.declared.errors.Large.{Large};
ghost use Rattle.mr_mend.specs.declared.asks.Ask.{Ask as AnAsk};
ghost use Rattle.mr_mend.specs.Scripts.{HasFirstBadLine, HasLargeReplies, IsInRange, ask_line, ask_of, asks_from, asks_of, ask_before, script_limit, script_text};

use crate::asks::{Ask, ScriptFault};
use crate::limits::REPLY_LIMIT;
use mr_bits::{Large, What};
use mr_image::ImageHead;
use mr_text::{read_number, split_at_byte};
use std::alloc::Global;

/// The reads that a script asks for, in order: on each line the number of a stripe of the image, one space, and the
/// number of a symbol of a stripe. The last line has its line feed too. An empty script asks for nothing.
///
/// It answers `Line` at the first line that is not of its form, and then `Large` with `ReplyBytes` and the bytes of all
/// replies where these are above 67,108,864. It goes through the bytes once.
pub fn read_script(alloc: Global, bytes: &[u8], head: &ImageHead) -> Result<Vec<Ask>, ScriptFault>
    requires { length bytes.now ≤ script_limit }
    ensures asks { IfOk result (λ asks. asks_of head.now bytes.now ≡ Ok asks.items) }
    ensures fault { IfErr result (λ fault.
        (fault ≡ ScriptFault.Memory) ⊎ (asks_of head.now bytes.now ≡ Err fault)) }

    // What these say of the bytes: they are the text of the reads, or what is wrong with them.
    ensures text { IfOk result (λ asks. bytes.now ≡ script_text asks.items) }
    ensures in_range { IfOk result (λ asks. All (IsInRange head.now) asks.items) }
    ensures bad_line { (line : ℕ) → IsErrOf result (ScriptFault.Line line)
        → HasFirstBadLine head.now bytes.now line }
    ensures large { (large : Large) → IsErrOf result (ScriptFault.Large large)
        → HasLargeReplies head.now bytes.now large }
{
    let size = u64::from(head.bytes());
    let asks = read_lines(alloc, bytes, head)?;
    let number = asks.len() as u64 * size;
    if number > REPLY_LIMIT {
        return Err(ScriptFault::Large(Large {
            what: What::ReplyBytes,
            number,
        }));
    }
    Ok(asks)
}

/// The read of each line, or the first line that is none.
fn read_lines(alloc: Global, bytes: &[u8], head: &ImageHead) -> Result<Vec<Ask>, ScriptFault>
    requires { length bytes.now ≤ script_limit }
    ensures asks { IfOk result (λ asks.
        asks_from head.now 1 (pieces 10 bytes.now) ≡ Ok asks.items) }
    ensures fault { IfErr result (λ fault.
        (fault ≡ ScriptFault.Memory) ⊎ (asks_from head.now 1 (pieces 10 bytes.now) ≡ Err fault)) }
    ensures in_range { IfOk result (λ asks. All (IsInRange head.now) asks.items) }
    ensures few { IfOk result (λ asks. length asks.items ≤ length bytes.now) }
{
    let mut asks = Vec::new(alloc);
    let mut left = bytes;
    while !left.is_empty() {
        let line = asks.len() as u32 + 1;
        let (ask, rest) = next_ask(left, head).ok_or(ScriptFault::Line { line })?;
        asks.push(ask)?;
        left = rest;
    }
    Ok(asks)
}

/// The read of the line at the front, and what is left behind its line feed, or None where that line is none.
/// It takes no memory.
pub fn next_ask<'a>(left: &'a [u8], head: &ImageHead) -> Option<(Ask, &'a [u8])>
    requires { 0 < length left.now }
    ensures value { (n : ℕ) → MatchOption result
        (asks_from head.now n (pieces 10 left.now) ≡ Err (ScriptFault.Line n))
        (λ next. asks_from head.now n (pieces 10 left.now)
        ≡ ask_before n (Some next.0) (asks_from head.now (n + 1) (pieces 10 next.1.now))) }
    ensures in_range { IfSome result (λ next. IsInRange head.now next.0) }
    ensures shorter { IfSome result (λ next. length next.1.now < length left.now) }

    // What these say of the bytes: they begin with the line of that read, or with the line of none.
    ensures text { IfSome result (λ next. left.now ≡ ask_line next.0 ++ next.1.now) }
    ensures none { IfNone result ((ask : AnAsk) (more : List ℕ) → IsInRange head.now ask
        → left.now ≢ ask_line ask ++ more) }
{
    let _within_the_limits = head.bytes();
    let (line, rest) = split_at_byte(left, b'\n')?;
    let ask = read_ask(line, head)?;
    Some((ask, rest))
}

/// The read that a line without its line feed spells.
fn read_ask(line: &[u8], head: &ImageHead) -> Option<Ask>
    ensures value { result ≡ ask_of head.now line.now }
    ensures in_range { IfSome result (IsInRange head.now) }
{
    let (stripe_text, symbol_text) = split_at_byte(line, b' ')?;
    let stripe = read_number(stripe_text)?;
    let symbol = read_number(symbol_text)?;
    if stripe < head.stripes() && symbol < head.symbols() {
        Some(Ask {
            stripe,
            symbol: symbol as u8,
        })
    } else {
        None
    }
}

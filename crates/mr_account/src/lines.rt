//! The lines of asks and of stripes, put to a sink.

ghost use Rattle.std.specs.Prelude.{◌≡◌, ◌*◌, ◌++◌, Some, codes, flat_map, length};
ghost use Rattle.hex.specs.Hex.{encode_lower};
ghost use Rattle.mr_io.specs.Counts.{HasCause};
ghost use Rattle.mr_io.specs.Taking.{Puts};
ghost use Rattle.mr_account.specs.Lines.{ask_line, entry_text, history_front, history_text, read_front, write_line};

use crate::slots::Slot;
use itoa::Buffer;
use mr_history::Entry;
use mr_io::{Failed, Sink, put_all, put_pieces};
use mr_ops::Op;
use mr_plan::lines::{Line, append};

/// Puts the line of an ask that was made: `read`, the stripe, the symbol, `place`, the place, and the bytes of the reply as
/// two lower-case hexadecimal digits each; or `write`, the stripe, `place` and the place.
///
/// `digits` has two bytes for each byte of the reply. After `Failed` the sink took a front of the line that is not all. It
/// takes no memory.
pub(crate) fn put_ask<K: Sink>(
    out: &mut K,
    op: &Op,
    slot: &Slot,
    digits: &mut [u8],
) -> Result<(), Failed>
    requires { length digits.old ≡ 2 * length slot.now.reply.items }
    ensures puts { Puts (K.held out.old) (K.held out.new) result
        (ask_line (Some op.now) slot.now.place slot.now.reply.items) }
    ensures cause { HasCause (K.faults out.old) (K.faults out.new) result }
{
    match op {
        Op::Read { stripe, symbol } => {
            let front = read_front(*stripe, *symbol, slot.place);
            put_read(out, &front, &slot.reply, digits)
        }
        Op::Write { stripe, payload: _ } => put_all(out, &write_line(*stripe, slot.place)),
    }
}

/// Puts the line of a stripe that an ask names: `history`, the stripe, and for each entry of its history a space and the
/// number of the ask, or a space and `mend`.
///
/// After `Failed` the sink took a front of the line that is not all. It takes no memory.
pub(crate) fn put_history<K: Sink>(
    out: &mut K,
    stripe: u32,
    history: &[Entry],
) -> Result<(), Failed>
    ensures puts { Puts (K.held out.old) (K.held out.new) result
        (history_text stripe history.now) }
    ensures cause { HasCause (K.faults out.old) (K.faults out.new) result }
{
    put_all(out, &history_front(stripe))?;
    put_entries(out, history)?;
    put_all(out, b"\n")
}

/// Puts the front of the line of a read, and the reply.
fn put_read<K: Sink>(
    out: &mut K,
    front: &[u8],
    reply: &[u8],
    digits: &mut [u8],
) -> Result<(), Failed>
    requires { length digits.old ≡ 2 * length reply.now }
    ensures puts { Puts (K.held out.old) (K.held out.new) result
        (front.now ++ encode_lower reply.now ++ codes "\n") }
    ensures cause { HasCause (K.faults out.old) (K.faults out.new) result }
{
    let _ = hex::encode_to_slice(reply, digits);
    put_line(out, front, digits)
}

/// Puts the front of a line, and its digits.
fn put_line<K: Sink>(out: &mut K, front: &[u8], digits: &[u8]) -> Result<(), Failed>
    ensures puts { Puts (K.held out.old) (K.held out.new) result
        (front.now ++ digits.now ++ codes "\n") }
    ensures cause { HasCause (K.faults out.old) (K.faults out.new) result }
{
    put_pieces(out, &[front, digits, b"\n"])
}

/// Puts the texts of the entries.
fn put_entries<K: Sink>(out: &mut K, history: &[Entry]) -> Result<(), Failed>
    ensures puts { Puts (K.held out.old) (K.held out.new) result
        (flat_map entry_text history.now) }
    ensures cause { HasCause (K.faults out.old) (K.faults out.new) result }
{
    for entry in history {
        put_all(out, &entry_text(*entry))?;
    }
    Ok(())
}

/// The front of the line of a read.
#[tactic(auto, unfolding(crate::specs::Lines::read_front))]
fn read_front(stripe: u32, symbol: u8, place: u32) -> Line
    ensures { result.items ≡ read_front stripe symbol place }
{
    let mut line = Line::new();
    let mut digits = Buffer::new();
    append(&mut line, b"read ");
    append(&mut line, digits.format(stripe).as_bytes());
    append(&mut line, b" ");
    append(&mut line, digits.format(symbol).as_bytes());
    append(&mut line, b" place ");
    append(&mut line, digits.format(place).as_bytes());
    line.push(b' ');
    line
}

/// The line of a write.
#[tactic(auto, unfolding(crate::specs::Lines::write_line))]
fn write_line(stripe: u32, place: u32) -> Line
    ensures { result.items ≡ write_line stripe place }
{
    let mut line = Line::new();
    let mut digits = Buffer::new();
    append(&mut line, b"write ");
    append(&mut line, digits.format(stripe).as_bytes());
    append(&mut line, b" place ");
    append(&mut line, digits.format(place).as_bytes());
    line.push(b'\n');
    line
}

/// The front of the line of a stripe.
#[tactic(auto, unfolding(crate::specs::Lines::history_front))]
fn history_front(stripe: u32) -> Line
    ensures { result.items ≡ history_front stripe }
{
    let mut line = Line::new();
    let mut digits = Buffer::new();
    append(&mut line, b"history ");
    append(&mut line, digits.format(stripe).as_bytes());
    line
}

/// A space, and the number of an ask or `mend`.
#[tactic(auto, unfolding(crate::specs::Lines::entry_text))]
fn entry_text(entry: Entry) -> Line
    ensures { result.items ≡ entry_text entry }
{
    let mut line = Line::new();
    match entry {
        Entry::Ask { number } => {
            let mut digits = Buffer::new();
            line.push(b' ');
            append(&mut line, digits.format(number).as_bytes());
        }
        Entry::Mend => append(&mut line, b" mend"),
    }
    line
}

//! The lines of replies: one for each read.

ghost use Rattle.std.specs.Prelude.{◌≡◌, ◌+◌, ◌*◌, ◌≤◌, ◌++◌, decimal, length, take, IfOk, OnErr};
ghost use Rattle.arrayvec.specs.ArrayVec.{array_vec_len};
ghost use Rattle.mr_io.specs.Counts.{HasCause};
ghost use Rattle.mr_io.specs.Taking.{Puts, TakesPart};
ghost use Rattle.mr_mend.specs.Replies.{PutsFront, buffer_lines, line_room, reply_front, reply_line};

use crate::asks::Ask;
use crate::limits::LINE_FRAME;
use arrayvec::ArrayVec;
use itoa::Buffer;
use mr_image::ImageHead;
use mr_io::{Failed, Sink, put_all};

/// Room for the front of a line: `reply `, a number of up to ten digits, a space, one of up to three, and a space.
const ROOM: usize = 31;

/// Puts the line of each reply: `reply `, the stripe, the symbol, and the bytes of the symbol as two lower-case hexadecimal
/// digits each. The replies stand one after another in `replies`, in the order of the asks, each of the bytes of one symbol.
///
/// The lines are gathered in `lines`, which has room for one at least: two bytes for each byte of a symbol, and
/// `LINE_FRAME` more.
/// They are put where there is no room for another, and at the end. It takes no memory. After `Failed` the sink took a
/// front of the lines that is not all.
pub fn print_replies<K: Sink>(
    out: &mut K,
    asks: &[Ask],
    replies: &[u8],
    head: &ImageHead,
    lines: &mut [u8],
) -> Result<(), Failed>
    requires replies { length replies.now ≡ length asks.now * head.now.symbol_bytes }
    requires lines { line_room head.now ≤ length lines.old }
    ensures puts { Puts (K.held out.old) (K.held out.new) result
        (buffer_lines head.now.symbol_bytes asks.now replies.now) }
    ensures cause { HasCause (K.faults out.old) (K.faults out.new) result }
{
    let size = head.bytes() as usize;
    let mut gathered = 0;
    for (k, ask) in asks.iter().enumerate() {
        let at = k * size;
        gathered = put_where_full(out, lines, gathered, 2 * size + LINE_FRAME)?;
        gathered += write_line(*ask, &replies[at..at + size], &mut lines[gathered..]);
    }
    put_all(out, &lines[..gathered])
}

/// Puts the first `gathered` bytes of `lines` where `room` more have no place behind them. It says how many bytes are then
/// gathered.
fn put_where_full<K: Sink>(
    out: &mut K,
    lines: &[u8],
    gathered: usize,
    room: usize,
) -> Result<usize, Failed>
    requires gathered { gathered ≤ length lines.now }
    requires room { room ≤ length lines.now }
    ensures free { IfOk result (λ left. left + room ≤ length lines.now) }
    ensures put { IfOk result (λ left.
        PutsFront (K.held out.old) (K.held out.new) (take gathered lines.now)
        (take left lines.now)) }
    ensures cut { OnErr result
        (TakesPart (K.held out.old) (K.held out.new) (take gathered lines.now)) }
    ensures cause { HasCause (K.faults out.old) (K.faults out.new) result }
{
    if room <= lines.len() - gathered {
        return Ok(gathered);
    }
    put_all(out, &lines[..gathered])?;
    Ok(0)
}

/// Makes the front of `line` that line, and says where it ends.
fn write_line(ask: Ask, symbol: &[u8], line: &mut [u8]) -> usize
    requires { 2 * length symbol.now + LINE_FRAME ≤ length line.old }
    ensures line { take result line.new ≡ reply_line ask symbol.now }
    ensures within { result ≤ length line.new }
{
    let front = front_of(ask);
    let at = front.len();
    let end = at + 2 * symbol.len();
    line[..at].copy_from_slice(&front);
    let _ = hex::encode_to_slice(symbol, &mut line[at..end]);
    line[end] = b'\n';
    end + 1
}

/// The front of a line.
#[tactic(auto, unfolding(crate::specs::Replies::reply_front))]
fn front_of(ask: Ask) -> ArrayVec<u8, ROOM>
    ensures { result.items ≡ reply_front ask }
{
    let mut digits = Buffer::new();
    let mut front = ArrayVec::new();
    append(&mut front, b"reply ");
    append(&mut front, digits.format(ask.stripe).as_bytes());
    append(&mut front, b" ");
    append(&mut front, digits.format(ask.symbol).as_bytes());
    append(&mut front, b" ");
    front
}

/// Appends bytes that fit.
fn append(front: &mut ArrayVec<u8, ROOM>, bytes: &[u8])
    requires { array_vec_len front.old + length bytes.now ≤ ROOM }
    ensures items { front.new.items ≡ front.old.items ++ bytes.now }
    ensures len { array_vec_len front.new ≡ array_vec_len front.old + length bytes.now }
{
    let _ = front.try_extend_from_slice(bytes);
}

//! The lines of a plan text, each built in a fixed buffer; other texts list members by the same calls.

ghost use Rattle.std.specs.Prelude.{◌≡◌, ◌+◌, ◌≤◌, ◌++◌, ◌^◌, ◌<◌, [], ◌∷◌, length, decimal};
ghost use Rattle.arrayvec.specs.ArrayVec.{array_vec_len};
ghost use Rattle.mr_plan.specs.PlanText.{head_text, set_text, recipe_text, members_text, line_of};

use crate::kinds::Kind;
use crate::recipes::Recipe;
use arrayvec::ArrayVec;
use itoa::Buffer;
use mr_bits::{MOST_SYMBOLS, Mask};

/// Room for a line: 128 members of a space and up to three digits each, and up to 24 bytes beside them.
pub const LINE_ROOM: usize = 536;

/// A line of a text.
pub type Line = ArrayVec<u8, LINE_ROOM>;

/// The first line.
pub(crate) fn head_line(kind: Kind) -> &'static [u8]
    ensures { result.now ≡ line_of (head_text kind) }
{
    match kind {
        Kind::Least => b"plan 1 least\n",
        Kind::Spent => b"plan 1 spent\n",
        Kind::Given => b"plan 1 given\n",
    }
}

/// The line of the set.
pub(crate) fn set_line(set: Mask) -> Line
    ensures { result.items ≡ line_of (set_text set) }
{
    let mut line = Line::new();
    append(&mut line, b"set");
    append_members(&mut line, set);
    line.push(b'\n');
    line
}

/// The line of a recipe.
pub(crate) fn recipe_line(recipe: &Recipe) -> Line
    requires { recipe.now.symbol < MOST_SYMBOLS }
    ensures { result.items ≡ line_of (recipe_text recipe.now) }
{
    let mut line = Line::new();
    append_number(&mut line, recipe.symbol());
    append(&mut line, b" =");
    append_members(&mut line, recipe.sources());
    line.push(b'\n');
    line
}

/// Appends a space and its number for each member. It takes no memory.
pub fn append_members(line: &mut Line, set: Mask)
    requires { array_vec_len line.old + 512 ≤ LINE_ROOM }
    ensures all { line.new.items ≡ line.old.items ++ members_text set }
    ensures room { array_vec_len line.new ≤ array_vec_len line.old + 512 }
{
    for symbol in set.symbols() {
        line.push(b' ');
        append_number(line, symbol);
    }
}

/// Appends a number.
fn append_number(line: &mut Line, number: u8)
    requires { array_vec_len line.old + 3 ≤ LINE_ROOM }
    ensures all { line.new.items ≡ line.old.items ++ decimal number }
    ensures room { array_vec_len line.new ≤ array_vec_len line.old + 3 }
{
    let mut buffer = Buffer::new();
    append(line, buffer.format(number).as_bytes());
}

/// Appends bytes that fit. It takes no memory.
pub fn append(line: &mut Line, bytes: &[u8])
    requires { array_vec_len line.old + length bytes.now ≤ LINE_ROOM }
    ensures { line.new.items ≡ line.old.items ++ bytes.now }
{
    let _ = line.try_extend_from_slice(bytes);
}

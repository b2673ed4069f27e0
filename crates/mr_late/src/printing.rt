//! The text of a table: a line for each row.

ghost use Rattle.std.specs.Prelude.{All, ◌≡◌, ◌∷◌, ◌++◌, [], ◌^◌, ◌<◌, codes, decimal, flat_map, length, slice_index};
ghost use Rattle.mr_front.specs.Searches.{set_of};
ghost use Rattle.mr_io.specs.Counts.{HasCause};
ghost use Rattle.mr_io.specs.Taking.{Puts};
ghost use Rattle.mr_steps.specs.Faults.{joined};
ghost use Rattle.mr_model.specs.Members.{members};
ghost use Rattle.mr_table.specs.Rows.{IsRow};
ghost use Rattle.mr_late.specs.Tables.{CanPrint, IsWithin, answer_text, line_of, listed, loss_text, row_text};

use crate::tabled::Tabled;
use itoa::Buffer;
use mr_bits::{Mask, Matrix};
use mr_eq::Found;
use mr_io::{Failed, Sink, put_all, put_pieces};
use mr_steps::ChoiceLine;
use mr_table::{JobAnswer, Row};

/// Writes the line of each row. Takes no memory.
pub(crate) fn print_rows<K: Sink>(tabled: &Tabled, rows: &[Row], out: &mut K) -> Result<(), Failed>
    requires table { CanPrint tabled.now }
    requires rows { All (IsRow tabled.now.matrix tabled.now.budget) rows.now }
    ensures puts { Puts (K.held out.old) (K.held out.new) result
        (flat_map (row_text tabled.now.matrix tabled.now.budget) rows.now) }
    ensures cause { HasCause (K.faults out.old) (K.faults out.new) result }
{
    for row in rows {
        print_row(tabled, *row, out)?;
    }
    Ok(())
}

/// Writes the line of a row: its loss, and what that costs.
fn print_row<K: Sink>(tabled: &Tabled, row: Row, out: &mut K) -> Result<(), Failed>
    requires table { CanPrint tabled.now }
    requires row { IsRow tabled.now.matrix tabled.now.budget row }
    ensures puts { Puts (K.held out.old) (K.held out.new) result
        (row_text tabled.now.matrix tabled.now.budget row) }
    ensures cause { HasCause (K.faults out.old) (K.faults out.new) result }
{
    let devices = tabled.losses[row.job as usize];
    print_line(tabled, devices, row.answer, out)
}

/// Writes the line of a loss of these devices.
fn print_line<K: Sink>(
    tabled: &Tabled,
    devices: Mask,
    answer: JobAnswer,
    out: &mut K,
) -> Result<(), Failed>
    requires { IsWithin (2 ^ length tabled.now.matrix.rows) answer }
    ensures puts { Puts (K.held out.old) (K.held out.new) result
        (loss_text devices ++ answer_text tabled.now.matrix tabled.now.budget answer) }
    ensures cause { HasCause (K.faults out.old) (K.faults out.new) result }
{
    print_loss(devices, out)?;
    print_answer(&tabled.matrix, tabled.budget, answer, out)
}

/// Writes `loss`, the numbers of the devices, joined by commas, and a space.
fn print_loss<K: Sink>(devices: Mask, out: &mut K) -> Result<(), Failed>
    ensures puts { Puts (K.held out.old) (K.held out.new) result (loss_text devices) }
    ensures cause { HasCause (K.faults out.old) (K.faults out.new) result }
{
    put_all(out, b"loss")?;
    print_devices(devices, out)?;
    put_all(out, b" ")
}

/// Writes the numbers of the devices: the first behind a space, and each other behind a comma.
fn print_devices<K: Sink>(devices: Mask, out: &mut K) -> Result<(), Failed>
    ensures puts { Puts (K.held out.old) (K.held out.new) result (listed 32 (members devices)) }
    ensures cause { HasCause (K.faults out.old) (K.faults out.new) result }
{
    let mut before = b' ';
    for device in devices.symbols() {
        print_device(before, device, out)?;
        before = b',';
    }
    Ok(())
}

/// Writes a byte and the number of a device.
fn print_device<K: Sink>(before: u8, device: u8, out: &mut K) -> Result<(), Failed>
    ensures puts { Puts (K.held out.old) (K.held out.new) result (before ∷ decimal device) }
    ensures cause { HasCause (K.faults out.old) (K.faults out.new) result }
{
    let mut digits = Buffer::new();
    put_pieces(out, &[&[before], digits.format(device).as_bytes()])
}

/// Writes what a loss costs: the line of its plan, or the symbol that is not determined.
fn print_answer<K: Sink>(
    matrix: &Matrix,
    budget: u32,
    answer: JobAnswer,
    out: &mut K,
) -> Result<(), Failed>
    requires { IsWithin (2 ^ length matrix.now.rows) answer }
    ensures puts { Puts (K.held out.old) (K.held out.new) result
        (answer_text matrix.now budget answer) }
    ensures cause { HasCause (K.faults out.old) (K.faults out.new) result }
{
    match answer {
        JobAnswer::Plan(found) => line_of(matrix, budget, found).print(out),
        JobAnswer::Undetermined { symbol } => print_undetermined(symbol, out),
    }
}

/// The line of what was found.
fn line_of(matrix: &Matrix, budget: u32, found: Found) -> ChoiceLine
    requires { set_of found < 2 ^ length matrix.now.rows }
    ensures { result ≡ line_of matrix.now budget found }
{
    match found {
        Found::Least { set, work } => ChoiceLine::Least {
            cost: matrix.cost(set),
            work,
        },
        Found::Spent { set } => ChoiceLine::Spent {
            cost: matrix.cost(set),
            budget,
        },
    }
}

fn print_undetermined<K: Sink>(symbol: u8, out: &mut K) -> Result<(), Failed>
    ensures puts { Puts (K.held out.old) (K.held out.new) result
        (joined (codes "undetermined symbol " ∷ decimal symbol ∷ codes "\n" ∷ [])) }
    ensures cause { HasCause (K.faults out.old) (K.faults out.new) result }
{
    let mut digits = Buffer::new();
    let symbol = digits.format(symbol).as_bytes();
    put_pieces(out, &[b"undetermined symbol ", symbol, b"\n"])
}

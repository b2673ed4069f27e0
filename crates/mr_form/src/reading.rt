ghost use Rattle.std.specs.Prelude.{◌≡◌, ◌≤◌, length, drop, IfOk, IfErr, Ok, Some, None};
ghost use Rattle.mr_model.specs.Code.{Code, most_symbols, most_columns};
ghost use Rattle.mr_bits.specs.Matrices.{IsMatrixCode, IsPriceList};
ghost use Rattle.mr_form.specs.FirstFaults.{IsFirstFault};
ghost use Rattle.mr_form.specs.MatrixText.{matrix_of, matrix_text, head_fault, head_of, lines, line_at, price_fault, prices_of, row_fault, row_of, read_body, read_rows};

use crate::faults::{LineKind, MatrixFault};
use crate::heads::{Heading, Version, read_head};
use crate::lines::take_line;
use crate::prices::{Prices, read_prices};
use crate::rows::read_row;
use mr_bits::{MOST_SYMBOLS, Mask, Matrix, Shape};

/// The matrix whose text `bytes` are, or the first fault of the text.
///
/// The lines before a bad line begin the text of a matrix, and with it they begin none. Takes no
/// memory.
pub fn read_matrix(bytes: &[u8]) -> Result<Matrix, MatrixFault>
    ensures value { result ≡ matrix_of bytes.now }
    ensures read { IfOk result (λ m. bytes.now ≡ matrix_text m) }
    ensures spelled { (m : Code) → IsMatrixCode m → bytes.now ≡ matrix_text m → result ≡ Ok m }
    ensures first { IfErr result (IsFirstFault bytes.now) }
    ensures limits { (m : Code) → matrix_of bytes.now ≡ Ok m → IsMatrixCode m }
{
    match first_line(bytes) {
        Ok((head, body)) => {
            let shape = Shape::new(head.n, head.w, head.k)?;
            read_body(body, head.version, shape)
        }
        Err(kind) => Err(MatrixFault::Bad { line: 1, kind }),
    }
}

/// What the first line names, and what is left behind it, or what is wrong with that line.
fn first_line(bytes: &[u8]) -> Result<(Heading, &[u8]), LineKind>
    ensures ok { IfOk result (λ next. (head_fault (lines bytes.now) ≡ None)
        × (head_of (line_at (lines bytes.now) 0) ≡ Some next.0)
        × (lines next.1.now ≡ drop 1 (lines bytes.now))) }
    ensures err { IfErr result (λ kind. head_fault (lines bytes.now) ≡ Some kind) }
{
    let (line, body) = take_line(bytes)?;
    match read_head(line) {
        Some(head) => Ok((head, body)),
        None => Err(LineKind::Head),
    }
}

/// The matrix of this shape that the lines behind the head tell, or the first fault.
fn read_body(body: &[u8], version: Version, shape: Shape) -> Result<Matrix, MatrixFault>
    ensures { result ≡ read_body version shape (lines body.now) }
{
    let _symbols = shape.symbols();
    match version {
        Version::One => read_rows(body, shape, &[1; MOST_SYMBOLS][..shape.n() as usize], 2),
        Version::Two => match price_line(body, shape.n()) {
            Ok((prices, rows)) => read_rows(rows, shape, &prices, 3),
            Err(kind) => Err(MatrixFault::Bad { line: 2, kind }),
        },
    }
}

/// The prices on the line at the front of what is left, and what is left behind it, or what is
/// wrong with that line.
fn price_line(left: &[u8], devices: u32) -> Result<(Prices, &[u8]), LineKind>
    requires some { 1 ≤ devices }
    requires few { devices ≤ most_symbols }
    ensures ok { IfOk result (λ next. (price_fault devices (lines left.now) ≡ None)
        × (next.0.items ≡ prices_of (line_at (lines left.now) 0))
        × (lines next.1.now ≡ drop 1 (lines left.now))) }
    ensures err { IfErr result (λ kind. price_fault devices (lines left.now) ≡ Some kind) }
{
    let (line, rest) = take_line(left)?;
    match read_prices(line, devices) {
        Some(prices) => Ok((prices, rest)),
        None => Err(LineKind::Price),
    }
}

/// The matrix of this shape and these prices whose rows are the lines of `body`, or the first
/// fault. Row 0 is line `first` of the text.
fn read_rows(body: &[u8], shape: Shape, prices: &[u32], first: u32) -> Result<Matrix, MatrixFault>
    requires price_count { length prices.now ≡ shape.devices }
    requires prices { IsPriceList prices.now }
    requires first { first ≤ 3 }
    ensures { result ≡ read_rows shape prices.now first (lines body.now) }
{
    let symbols = shape.symbols();
    let mut rows = [Mask::EMPTY; MOST_SYMBOLS];
    let mut left = body;
    for i in 0..symbols {
        match next_row(left, shape.k()) {
            Ok(next) => {
                let (row, rest) = next;
                rows[i as usize] = row;
                left = rest;
            }
            Err(kind) => return Err(MatrixFault::Bad {
                line: first + i,
                kind,
            }),
        }
    }
    if left.is_empty() {
        Ok(Matrix::priced(shape, &rows[..symbols as usize], prices))
    } else {
        Err(MatrixFault::Bad {
            line: first + symbols,
            kind: LineKind::Extra,
        })
    }
}

/// The row on the line at the front of what is left, and what is left behind it, or what is wrong
/// with that line.
fn next_row(left: &[u8], columns: u32) -> Result<(Mask, &[u8]), LineKind>
    requires { columns ≤ most_columns }
    ensures ok { IfOk result (λ next. (row_fault columns (lines left.now) 0 ≡ None)
        × (next.0 ≡ row_of (line_at (lines left.now) 0))
        × (lines next.1.now ≡ drop 1 (lines left.now))) }
    ensures err { IfErr result (λ kind. row_fault columns (lines left.now) 0 ≡ Some kind) }
{
    let (line, rest) = take_line(left)?;
    match read_row(line, columns) {
        Some(row) => Ok((row, rest)),
        None => Err(LineKind::Row),
    }
}

ghost use Rattle.std.specs.Prelude.{◌≡◌, ◌≤◌, ◌++◌, ◌∷◌, flat_map, decimal};
ghost use Rattle.mr_model.specs.Code.{most_columns};
ghost use Rattle.mr_io.specs.Counts.{HasCause};
ghost use Rattle.mr_io.specs.Taking.{Puts};
ghost use Rattle.mr_form.specs.MatrixText.{ended, head_text, row_text, version_for, version_text, price_lines, space, matrix_text};

use crate::heads::Version;
use crate::prices::are_ones;
use arrayvec::ArrayVec;
use itoa::Buffer;
use mr_bits::{Mask, Matrix, Shape};
use mr_io::{Failed, Sink, put_all, put_pieces};

/// Puts the text of a matrix: of version 1 where each device has the price 1, else of version 2.
///
/// After `Failed` the sink took a front of it that is not all. Takes no memory.
pub fn print_matrix<K: Sink>(matrix: &Matrix, out: &mut K) -> Result<(), Failed>
    ensures puts { Puts (K.held out.old) (K.held out.new) result (matrix_text matrix.now) }
    ensures cause { HasCause (K.faults out.old) (K.faults out.new) result }
{
    print_head(version_for(matrix.prices()), matrix.shape(), out)?;
    print_body(matrix, out)
}

/// The version of the text of a matrix with these prices.
fn version_for(prices: &[u32]) -> Version
    ensures { result ≡ version_for prices.now }
{
    if are_ones(prices) {
        Version::One
    } else {
        Version::Two
    }
}

/// Puts the first line, `matrix V n w k`.
fn print_head<K: Sink>(version: Version, shape: Shape, out: &mut K) -> Result<(), Failed>
    ensures puts { Puts (K.held out.old) (K.held out.new) result
        (ended (head_text version shape.devices shape.symbols_per_device shape.columns)) }
    ensures cause { HasCause (K.faults out.old) (K.faults out.new) result }
{
    let (mut n, mut w, mut k) = (Buffer::new(), Buffer::new(), Buffer::new());
    put_pieces(
        out,
        &[
            b"matrix ".as_slice(),
            version_word(version),
            b" ".as_slice(),
            n.format(shape.n()).as_bytes(),
            b" ".as_slice(),
            w.format(shape.w()).as_bytes(),
            b" ".as_slice(),
            k.format(shape.k()).as_bytes(),
            b"\n".as_slice(),
        ],
    )
}

/// The word of a version.
fn version_word(version: Version) -> &'static [u8]
    ensures { result.now ≡ version_text version }
{
    match version {
        Version::One => b"1",
        Version::Two => b"2",
    }
}

/// Puts the lines behind the head.
fn print_body<K: Sink>(matrix: &Matrix, out: &mut K) -> Result<(), Failed>
    ensures puts { Puts (K.held out.old) (K.held out.new) result
        (flat_map ended (price_lines matrix.now.prices)
        ++ flat_map (λ row. ended (row_text matrix.now.columns row)) matrix.now.rows) }
    ensures cause { HasCause (K.faults out.old) (K.faults out.new) result }
{
    print_prices(matrix.prices(), out)?;
    print_rows(matrix, out)
}

/// Puts the line of the prices where one of them is not 1.
fn print_prices<K: Sink>(prices: &[u32], out: &mut K) -> Result<(), Failed>
    ensures puts { Puts (K.held out.old) (K.held out.new) result
        (flat_map ended (price_lines prices.now)) }
    ensures cause { HasCause (K.faults out.old) (K.faults out.new) result }
{
    if are_ones(prices) {
        return Ok(());
    }
    put_all(out, b"price")?;
    print_numbers(prices, out)?;
    put_all(out, b"\n")
}

/// Puts a space and the number for each price.
fn print_numbers<K: Sink>(prices: &[u32], out: &mut K) -> Result<(), Failed>
    ensures puts { Puts (K.held out.old) (K.held out.new) result
        (flat_map (λ price. space ∷ decimal price) prices.now) }
    ensures cause { HasCause (K.faults out.old) (K.faults out.new) result }
{
    for price in prices {
        let mut buffer = Buffer::new();
        put_pieces(out, &[b" ".as_slice(), buffer.format(*price).as_bytes()])?;
    }
    Ok(())
}

/// Puts a line for each symbol, upwards.
fn print_rows<K: Sink>(matrix: &Matrix, out: &mut K) -> Result<(), Failed>
    ensures puts { Puts (K.held out.old) (K.held out.new) result
        (flat_map (λ row. ended (row_text matrix.now.columns row)) matrix.now.rows) }
    ensures cause { HasCause (K.faults out.old) (K.faults out.new) result }
{
    let shape = matrix.shape();
    for i in 0..shape.symbols() {
        let line = row_line(matrix.row(i as u8), shape.k());
        put_all(out, line.as_slice())?;
    }
    Ok(())
}

/// The line of a row of this many columns, with its line feed.
fn row_line(row: Mask, columns: u32) -> ArrayVec<u8, 129>
    requires { columns ≤ most_columns }
    ensures { result.items ≡ ended (row_text columns row) }
{
    let mut line = ArrayVec::new();
    for column in 0..columns {
        let bit = if row.contains(column as u8) {
            b'1'
        } else {
            b'0'
        };
        line.push(bit);
    }
    line.push(b'\n');
    line
}

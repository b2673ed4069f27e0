//! One stripe: its symbols of data are read, and its codeword is made of them.

ghost use Rattle.std.specs.Prelude.{◌≡◌, ℕ, ◌+◌, ◌-◌, ◌*◌, ◌^◌, ◌<◌, ◌≤◌, false, true, drop, length, replicate, take, IfSome, OnErr, OnOk};
ghost use Rattle.std.specs.List.{range_with_len, flat_map};
ghost use Rattle.mr_model.specs.Codewords.{codeword};
ghost use Rattle.mr_io.specs.Counts.{HasCause};
ghost use Rattle.mr_io.specs.Sights.{sight_with};
ghost use Rattle.mr_encode.specs.Data.{symbols_in, IsSystematic};

use mr_bits::{Mask, Matrix};
use mr_image::ImageHead;
use mr_io::{Eye, Failed};
use mr_kern::XorKernel;

/// What encodes: the matrix of the code, the head of the image, the kernel that adds bytes, and whether
/// the symbols of data stand first in each stripe.
#[derive(Drop)]
pub(crate) struct Encoder<'a> {
    pub(crate) matrix: &'a Matrix,
    pub(crate) head: &'a ImageHead,
    pub(crate) kernel: &'a XorKernel,
    pub(crate) is_systematic: bool,
    ghost systematic: { is_systematic ≡ true → IsSystematic matrix.now },
}

/// Whether the symbols of data stand first in each stripe, in order.
pub(crate) fn is_systematic(matrix: &Matrix) -> bool
    ensures yes { result ≡ true → IsSystematic matrix.now }
    ensures only { IsSystematic matrix.now → result ≡ true }
{
    let shape = matrix.shape();
    if shape.k() > shape.symbols() {
        return false;
    }
    for column in 0..shape.k() as u8 {
        if matrix.row(column) != Mask::EMPTY.with(column) {
            return false;
        }
    }
    true
}

/// Makes `stripe`, whatever it held, the codeword of the symbols of data of the stripe of this number.
/// They are read by one call, straight to their places where they stand first, and otherwise to
/// `columns`.
pub(crate) fn encode_stripe<E: Eye>(
    eye: &mut E,
    encoder: &Encoder,
    number: u32,
    columns: &mut [u8],
    stripe: &mut [u8],
) -> Result<(), Failed>
    requires data { IfSome (E.sight eye.old).bytes (λ bytes.
        number * (encoder.now.matrix.now.columns * encoder.now.head.now.symbol_bytes)
        + encoder.now.matrix.now.columns * encoder.now.head.now.symbol_bytes ≤ length bytes) }
    requires columns { encoder.now.is_systematic ≡ false → length columns.old
        ≡ encoder.now.matrix.now.columns * encoder.now.head.now.symbol_bytes }
    requires stripe { length stripe.old
        ≡ length encoder.now.matrix.now.rows * encoder.now.head.now.symbol_bytes }
    ensures made { OnOk result (IfSome (E.sight eye.old).bytes (λ bytes. stripe.new
        ≡ flat_map (codeword encoder.now.matrix.now encoder.now.head.now.symbol_bytes
        (symbols_in encoder.now.head.now.symbol_bytes encoder.now.matrix.now.columns
        (take (encoder.now.matrix.now.columns * encoder.now.head.now.symbol_bytes)
        (drop (number * (encoder.now.matrix.now.columns * encoder.now.head.now.symbol_bytes)) bytes))))
        (range_with_len 0 (length encoder.now.matrix.now.rows)))) }
    ensures taken { OnOk result (E.sight eye.new ≡ sight_with (E.sight eye.old)
        (encoder.now.matrix.now.columns * encoder.now.head.now.symbol_bytes)) }
    ensures none { OnErr result (E.sight eye.new ≡ E.sight eye.old) }
    ensures cause { HasCause (E.faults eye.old) (E.faults eye.new) result }
{
    let data = encoder.matrix.shape().k() as usize * encoder.head.bytes() as usize;
    let at = u64::from(number) * data as u64;
    if encoder.is_systematic {
        let (front, rest) = stripe.split_at_mut(data);
        eye.read_at(at, front)?;
        encode_symbols(encoder, encoder.matrix.shape().k() as u8, front, rest);
    } else {
        eye.read_at(at, columns)?;
        encode_symbols(encoder, 0, columns, stripe);
    }
    Ok(())
}

/// Makes the symbols from number `first` on those of the codeword of the symbols of data, one for each
/// column.
fn encode_symbols(encoder: &Encoder, first: u8, columns: &[u8], symbols: &mut [u8])
    requires first { first ≤ length encoder.now.matrix.now.rows }
    requires columns { length columns.now
        ≡ encoder.now.matrix.now.columns * encoder.now.head.now.symbol_bytes }
    requires symbols { length symbols.old
        ≡ (length encoder.now.matrix.now.rows - first) * encoder.now.head.now.symbol_bytes }
    ensures { symbols.new
        ≡ flat_map (codeword encoder.now.matrix.now encoder.now.head.now.symbol_bytes
        (symbols_in encoder.now.head.now.symbol_bytes encoder.now.matrix.now.columns columns.now))
        (range_with_len first (length encoder.now.matrix.now.rows - first)) }
{
    let Encoder {
        matrix,
        head,
        kernel,
        ..
    } = *encoder;
    let size = head.bytes() as usize;
    let count = matrix.shape().symbols() as u8;
    for symbol in first..count {
        let at = usize::from(symbol - first) * size;
        encode_symbol(matrix, kernel, symbol, columns, &mut symbols[at..at + size]);
    }
}
/// Makes `symbol`, whatever it held, that of number `i` in the codeword of these symbols of data: the XOR of those at the
/// columns of its row. The first of them is copied, so a row of one column is a copy alone.
fn encode_symbol(matrix: &Matrix, kernel: &XorKernel, i: u8, columns: &[u8], symbol: &mut [u8])
    requires number { i < length matrix.now.rows }
    requires columns { length columns.now ≡ matrix.now.columns * length symbol.old }
    ensures { symbol.new ≡ codeword matrix.now (length symbol.old)
        (symbols_in (length symbol.old) matrix.now.columns columns.now) i }
{
    let _within_the_limits = matrix.shape();
    let mut rest = matrix.row(i).symbols();
    let Some(first) = rest.next() else {
        return clear(symbol);
    };
    let size = symbol.len();
    symbol.copy_from_slice(symbol_at(columns, first, size));
    for column in rest {
        kernel.xor_into(symbol, symbol_at(columns, column, size));
    }
}

/// The symbol of this number of those of `size` bytes that stand one after another.
fn symbol_at(symbols: &[u8], number: u8, size: usize) -> &[u8]
    requires { number * size + size ≤ length symbols.now }
    ensures { result.now ≡ take size (drop (number * size) symbols.now) }
{
    let at = usize::from(number) * size;
    &symbols[at..at + size]
}

/// Makes each byte zero.
fn clear(bytes: &mut [u8])
    ensures { bytes.new ≡ replicate (length bytes.old) 0 }
{
    bytes.fill(0);
}

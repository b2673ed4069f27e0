ghost use Rattle.std.specs.Prelude.{◌≡◌, ℕ, ◌-◌, ◌*◌, ◌/◌, ◌^◌, ◌<◌, ◌≤◌, length, slice_index, All};
ghost use Rattle.mr_model.specs.Code.{code_of, priced_code, dimensions, row, row_sum, cost, device_symbols, most_symbols};
ghost use Rattle.mr_model.specs.Rotations.{rotated};
ghost use Rattle.mr_bits.specs.Matrices.{padded, greatest_cost, IsMatrixCode, IsPriceList};

use crate::masks::Mask;
use crate::shapes::Shape;
use std::marker::Model;

/// The most symbols that a matrix may have. It has no more devices.
pub const MOST_SYMBOLS: usize = 128;

/// The greatest price of a device.
pub const GREATEST_PRICE: u32 = 1000;

/// A code's generator matrix over bits: a shape, for each symbol the set of the columns of its row,
/// and for each device what it costs to read one of its symbols, from 1 to 1,000.
#[derive(Clone, Copy, PartialEq, Eq, Debug)]
pub struct Matrix {
    shape: Shape,
    rows: [Mask; MOST_SYMBOLS],
    prices: [u32; MOST_SYMBOLS],
}

impl Model for Matrix {
    ghost use Rattle.std.specs.Prelude.{take};
    ghost use Rattle.mr_model.specs.Code.{Code, priced_code, dimensions};
    ghost use Rattle.mr_bits.specs.Matrices.{symbol_count, IsMatrix, padded};

    ghost Value = { Code };

    ghost view = { λ m. priced_code m.shape (take (symbol_count m.shape) m.rows)
        (take m.shape.devices m.prices) };

    ghost invariant = { λ m. IsMatrix m.shape m.rows m.prices };

    ghost inverse = { λ m. record {
      shape = dimensions m;
      rows = padded m.rows;
      prices = padded m.prices;
    } };

    ghost inverse_ok = { λ m h i. record {
      shape = m.shape;
      rows = h.unused i;
      prices = h.unused_prices i;
    } };
}

impl Matrix {
    /// The matrix of this shape and these rows, one for each symbol,
    /// upwards. Each device has the price 1.
    ///
    /// Each row has columns of the shape alone.
    pub fn new(shape: Shape, rows: &[Mask]) -> Matrix
        requires count { length rows.now ≡ shape.devices * shape.symbols_per_device }
        requires columns { All (λ r. r < 2 ^ shape.columns) rows.now }
        ensures { result ≡ code_of shape rows.now }
    {
        let _symbols = shape.symbols();
        let ones = [1; MOST_SYMBOLS];
        Matrix::priced(shape, rows, &ones[..shape.n() as usize])
    }

    /// The matrix of this shape, these rows, one for each symbol, and
    /// these prices, one for each device, upwards.
    ///
    /// Each row has columns of the shape alone, and each price is from 1 to 1,000.
    pub fn priced(shape: Shape, rows: &[Mask], prices: &[u32]) -> Matrix
        requires count { length rows.now ≡ shape.devices * shape.symbols_per_device }
        requires columns { All (λ r. r < 2 ^ shape.columns) rows.now }
        requires price_count { length prices.now ≡ shape.devices }
        requires prices { IsPriceList prices.now }
        ensures { result ≡ priced_code shape rows.now prices.now }
    {
        let symbols = shape.symbols() as usize;
        Matrix {
            shape,
            rows: room_of(&rows[..symbols]),
            prices: price_room_of(&prices[..shape.n() as usize]),
        }
    }

    /// The matrix whose devices have moved on by `r`: the rows of each device are those of the
    /// device `r` before it, round about. Prices stay with the devices.
    pub fn rotated(&self, r: u32) -> Matrix
        requires { r < self.now.devices }
        ensures code { result ≡ rotated self.now r }
        ensures matrix { IsMatrixCode result }
    {
        let symbols = self.shape.symbols() as usize;
        let mut rows = self.rows;
        rows[..symbols].rotate_right((r * self.shape.w()) as usize);
        Matrix {
            shape: self.shape,
            rows,
            prices: self.prices,
        }
    }

    /// What it costs to read one symbol of a device: a price from 1 to 1,000.
    pub fn price(&self, device: u32) -> u32
        requires { device < self.now.devices }
        ensures { result ≡ slice_index self.now.prices device }
    {
        self.prices[device as usize]
    }

    /// The prices of the devices, upwards, each from 1 to 1,000.
    pub fn prices(&self) -> &[u32]
        ensures { result.now ≡ self.now.prices }
    {
        &self.prices[..self.shape.n() as usize]
    }

    /// The shape.
    pub fn shape(&self) -> Shape
        ensures shape { result ≡ dimensions self.now }
        ensures code { IsMatrixCode self.now }
    {
        self.shape
    }

    /// The columns of symbol `i`.
    pub fn row(&self, i: u8) -> Mask
        requires { i < length self.now.rows }
        ensures { result ≡ row self.now i }
    {
        self.rows[usize::from(i)]
    }

    /// The XOR of the rows of the symbols in `set`.
    pub fn row_sum(&self, set: Mask) -> Mask
        requires { set < 2 ^ length self.now.rows }
        ensures { result ≡ row_sum self.now set }
    {
        let mut sum = Mask::EMPTY;
        for symbol in set.symbols() {
            sum = sum.xor(self.row(symbol));
        }
        sum
    }

    /// What it costs to read the symbols of `set`: the sum of the
    /// prices of their devices, at most 128,000.
    pub fn cost(&self, set: Mask) -> u32
        requires { set < 2 ^ length self.now.rows }
        ensures cost { result ≡ cost self.now set }
        ensures few { result ≤ greatest_cost }
    {
        let _within_the_limits = self.shape();
        let mut total = 0;
        for member in set.symbols() {
            let price = self.price(self.device_of(member));
            total += price;
        }
        total
    }

    /// The set of the symbols of a device.
    pub fn symbols_of_device(&self, device: u32) -> Mask
        requires { device < self.now.devices }
        ensures { result ≡ device_symbols self.now device }
    {
        let w = self.shape.w();
        Mask::of(u128::MAX >> (128 - w) << (device * w))
    }

    /// The device on which symbol `i` stands.
    pub fn device_of(&self, i: u8) -> u32
        requires { i < length self.now.rows }
        ensures { result ≡ i / self.now.symbols_per_device }
    {
        u32::from(i) / self.shape.w()
    }

    /// The set of all symbols.
    pub fn all(&self) -> Mask
        ensures { result ≡ 2 ^ length self.now.rows - 1 }
    {
        Mask::of(u128::MAX >> (128 - self.shape.symbols()))
    }
}

/// The prices, and zeros behind them.
fn price_room_of(prices: &[u32]) -> [u32; MOST_SYMBOLS]
    requires { length prices.now ≤ most_symbols }
    ensures { result ≡ padded prices.now }
{
    let mut room = [0; MOST_SYMBOLS];
    for (i, price) in prices.iter().enumerate() {
        room[i] = *price;
    }
    room
}

/// The rows, and empty rows behind them.
fn room_of(rows: &[Mask]) -> [Mask; MOST_SYMBOLS]
    requires { length rows.now ≤ most_symbols }
    ensures { result ≡ padded rows.now }
{
    let mut room = [Mask::EMPTY; MOST_SYMBOLS];
    for (i, row) in rows.iter().enumerate() {
        room[i] = *row;
    }
    room
}

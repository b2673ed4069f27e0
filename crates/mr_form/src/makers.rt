ghost use Rattle.std.specs.Prelude.{◌≡◌, ◌+◌, ◌-◌, ◌*◌, ◌<◌, true, slice_index, Some, None, if◌then◌else◌};
ghost use Rattle.mr_model.specs.Sets.{has};
ghost use Rattle.mr_model.specs.Code.{code_of};
ghost use Rattle.mr_bits.specs.Matrices.{symbol_count};
ghost use Rattle.mr_form.specs.Layouts.{rdp_of, evenodd_of, is_size, data_devices, layout_rows, layout_shape};

use mr_bits::{MOST_SYMBOLS, Mask, Matrix, Shape};

/// The matrix of row-diagonal parity for the prime `p`, or None where `p` is not 3, 5, 7 or 11.
///
/// There are `p + 1` devices of `p - 1` symbols: data, row parity, diagonal parity. From Corbett
/// and others, Row-Diagonal Parity for Double Disk Failure Correction, FAST 2004.
#[tactic(auto, unfolding(crate::specs::Layouts::rdp_of))]
pub fn rdp(p: u32) -> Option<Matrix>
    ensures { result ≡ rdp_of p }
{
    if Layout::Rdp.is_size(p) {
        Some(Layout::Rdp.matrix(p))
    } else {
        None
    }
}

/// The matrix of EVENODD for the prime `p`, or None where `p` is not 3, 5 or 7.
///
/// There are `p + 2` devices of `p - 1` symbols: data, row parity, diagonal parity. From Blaum and
/// others, EVENODD, IEEE Transactions on Computers 44(2), 1995.
#[tactic(auto, unfolding(crate::specs::Layouts::evenodd_of))]
pub fn evenodd(p: u32) -> Option<Matrix>
    ensures { result ≡ evenodd_of p }
{
    if Layout::EvenOdd.is_size(p) {
        Some(Layout::EvenOdd.matrix(p))
    } else {
        None
    }
}

/// A published code for two lost devices, made for a prime.
#[derive(Clone, Copy)]
pub(crate) enum Layout {
    Rdp,
    EvenOdd,
}

impl Layout {
    /// Whether the code is made for `p`.
    fn is_size(self, p: u32) -> bool
        ensures { result ≡ is_size self p }
    {
        match self {
            Layout::Rdp => p == 3 || p == 5 || p == 7 || p == 11,
            Layout::EvenOdd => p == 3 || p == 5 || p == 7,
        }
    }

    /// How many devices hold data. Behind them stand row parity and diagonal parity.
    fn data_devices(self, p: u32) -> u32
        requires { is_size self p ≡ true }
        ensures { result ≡ data_devices self p }
    {
        match self {
            Layout::Rdp => p - 1,
            Layout::EvenOdd => p,
        }
    }

    fn matrix(self, p: u32) -> Matrix
        requires { is_size self p ≡ true }
        ensures { result ≡ code_of (layout_shape self p) (layout_rows self p) }
    {
        let data = self.data_devices(p);
        let shape = Shape::new(data + 2, p - 1, data * (p - 1)).unwrap();
        let symbols = shape.symbols();
        let mut rows = [Mask::EMPTY; MOST_SYMBOLS];
        for symbol in 0..symbols {
            rows[symbol as usize] = self.row(p, symbol);
        }
        Matrix::new(shape, &rows[..symbols as usize])
    }

    /// The columns of a symbol.
    fn row(self, p: u32, symbol: u32) -> Mask
        requires size { is_size self p ≡ true }
        requires symbol { symbol < symbol_count (layout_shape self p) }
        ensures { result ≡ slice_index (layout_rows self p) symbol }
    {
        let mut row = Mask::EMPTY;
        for column in 0..self.data_devices(p) * (p - 1) {
            if self.has_column(p, symbol, column) {
                row = row.with(column as u8);
            }
        }
        row
    }

    /// Whether a column is in the row of a symbol. The data symbol of the column is row `column %
    /// w` of device `column / w`.
    ///
    /// In row-diagonal parity it comes into the parity of a diagonal by itself and by the row
    /// parity of its row, on device `p - 1`, and twice is not at all. In EVENODD the cells of
    /// diagonal `p - 1` are in each such parity.
    fn has_column(self, p: u32, symbol: u32, column: u32) -> bool
        requires size { is_size self p ≡ true }
        requires symbol { symbol < symbol_count (layout_shape self p) }
        requires column { column < (layout_shape self p).columns }
        ensures { result ≡ has (slice_index (layout_rows self p) symbol) column }
    {
        let w = p - 1;
        let (row, device) = (symbol % w, symbol / w);
        let (cell_row, cell_device) = (column % w, column / w);
        let diagonal = (cell_row + cell_device) % p;
        let data = self.data_devices(p);
        if device < data {
            column == symbol
        } else if device == data {
            cell_row == row
        } else {
            match self {
                Layout::Rdp => (diagonal == row) != ((cell_row + p - 1) % p == row),
                Layout::EvenOdd => diagonal == row || diagonal == p - 1,
            }
        }
    }
}

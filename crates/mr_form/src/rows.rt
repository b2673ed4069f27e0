ghost use Rattle.std.specs.Prelude.{◌≡◌, ◌≤◌, Some, None, if◌then◌else◌};
ghost use Rattle.mr_model.specs.Code.{most_columns};
ghost use Rattle.mr_form.specs.MatrixText.{is_row, row_of};

use mr_bits::Mask;

/// The columns at which a line of `columns` bytes `0` and `1` has a `1`, or None where it is no
/// such line.
pub fn read_row(line: &[u8], columns: u32) -> Option<Mask>
    requires { columns ≤ most_columns }
    ensures { result ≡ (if is_row columns line.now then Some (row_of line.now) else None) }
{
    if line.len() != columns as usize {
        return None;
    }
    let mut row = Mask::EMPTY;
    for (column, byte) in line.iter().enumerate() {
        match byte {
            b'0' => {}
            b'1' => row = row.with(column as u8),
            _ => return None,
        }
    }
    Some(row)
}

ghost use Rattle.std.specs.Prelude.{◌≡◌, ℕ, ◌^◌, ◌<◌, ◌≤◌, true, length, slice_index, bit_and, count_ones};
ghost use Rattle.mr_model.specs.Code.{Code, cost, greatest_price, symbol_prices};
ghost use Rattle.mr_model.specs.Planes.{IsPlane, ArePlanes};

use arrayvec::ArrayVec;
use mr_bits::{Mask, Matrix};

/// The planes of the prices of a matrix: for each bit, the highest first, the symbols whose price
/// has it.
pub(crate) fn planes_of(matrix: &Matrix) -> ArrayVec<Mask, 10>
    ensures { ArePlanes matrix.now result.items }
{
    let bits = bits_of(matrix);
    let mut planes = ArrayVec::new();
    for place in 0..bits {
        planes.push(plane_of(matrix, bits - 1 - place));
    }
    planes
}

/// How many bits the prices have.
fn bits_of(matrix: &Matrix) -> u32
    ensures few { result ≤ 10 }
    ensures high { (i : ℕ) → slice_index (symbol_prices matrix.now) i < 2 ^ result }
{
    u32::BITS - greatest_of(matrix).leading_zeros()
}

/// A price that no symbol's is above.
fn greatest_of(matrix: &Matrix) -> u32
    ensures few { result ≤ greatest_price }
    ensures high { (i : ℕ) → slice_index (symbol_prices matrix.now) i ≤ result }
{
    let shape = matrix.shape();
    let mut greatest = 0;
    for symbol in 0..shape.symbols() {
        greatest = matrix.price(symbol / shape.w()).max(greatest);
    }
    greatest
}

/// The symbols whose price has a bit.
fn plane_of(matrix: &Matrix, bit: u32) -> Mask
    requires { bit < 10 }
    ensures { IsPlane (symbol_prices matrix.now) bit result }
{
    let shape = matrix.shape();
    let mut plane = Mask::EMPTY;
    for symbol in 0..shape.symbols() {
        if matrix.price(symbol / shape.w()) >> bit & 1 == 1 {
            plane = plane.with(symbol as u8);
        }
    }
    plane
}

/// What it costs to read the symbols of `set`, by the planes of the prices: the members in each are
/// counted once.
pub(crate) fn cost_by(planes: &[Mask], set: Mask) -> u32
    requires { length planes.now ≤ 10 }
    ensures { (m : Code) → ArePlanes m planes.now → result ≡ cost m set }
{
    if planes.len() == 1 {
        return members_in(planes[0], set);
    }
    let mut cost = 0;
    for plane in planes {
        cost = cost * 2 + members_in(*plane, set);
    }
    cost
}

/// How many members of `set` are in a plane.
fn members_in(plane: Mask, set: Mask) -> u32
    ensures number { result ≡ count_ones (bit_and set plane) }
    ensures few { result ≤ 128 }
{
    set.common(plane).count()
}

/// Whether there is one plane, and that plane.
pub(crate) fn only_of(planes: &[Mask]) -> (bool, Mask)
    ensures { result.0 ≡ true → (m : Code) (u : ℕ) → ArePlanes m planes.now
        → count_ones (bit_and u result.1) ≡ cost m u }
{
    if planes.len() == 1 {
        (true, planes[0])
    } else {
        (false, Mask::EMPTY)
    }
}

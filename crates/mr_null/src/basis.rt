ghost use Rattle.std.specs.Prelude.{◌≡◌, ℕ, ◌^◌, ◌<◌, ◌≤◌, ◌&&◌, length, count_ones, nat_lt, if◌then◌else◌, IfOk, IfErr, OnOk};
ghost use Rattle.std.specs.Int.{bit_at};
ghost use Rattle.mr_model.specs.Sets.{within, often};
ghost use Rattle.mr_model.specs.Code.{kept, dropped, combination, generator, most_columns, nulls, is_null};
ghost use Rattle.mr_null.specs.declared.nulls.NullsError.TheVariants.{TooMany, Memory};
ghost use Rattle.mr_model.specs.Members.{members};

use crate::nulls::{Nulls, NullsError, double, only_empty};
use crate::pivots::{Combined, Pivot, reduced};
use arrayvec::ArrayVec;
use mr_bits::{MOST_SYMBOLS, Mask, Matrix};
use std::alloc::Global;
use std::marker::Model;

/// A set of symbols of a matrix, worked through once: its members, taken upwards, are kept where
/// their rows are no sums of rows kept before.
#[derive(Drop)]
pub struct Basis {
    matrix: Matrix,
    set: Mask,
    kept: Mask,
    pivots: ArrayVec<Pivot, MOST_SYMBOLS>,
}

impl Model for Basis {
    ghost use Rattle.mr_model.specs.Code.{Spanned};
    ghost use Rattle.mr_null.specs.Elimination.{IsBasis};

    ghost Value = { Spanned };

    ghost view = { λ b. record { code = b.matrix; set = b.set } };

    ghost invariant = { λ b. IsBasis b.matrix b.set b.kept b.pivots.items };
}

impl Basis {
    /// Works through the members of `set`, which are symbols of the matrix.
    pub fn of(matrix: &Matrix, set: Mask) -> Basis
        requires { set < 2 ^ length matrix.now.rows }
        ensures { result ≡ record { code = matrix.now; set = set } }
    {
        let mut kept = Mask::EMPTY;
        let mut pivots = ArrayVec::new();
        for symbol in set.symbols() {
            let row = Combined {
                sum: matrix.row(symbol),
                members: Mask::EMPTY.with(symbol),
            };
            let rest = reduced(&pivots, row);
            if !rest.sum.is_empty() {
                pivots.push(Pivot {
                    column: lowest(rest.sum),
                    combined: rest,
                });
                kept = kept.with(symbol);
            }
        }
        Basis {
            matrix: *matrix,
            set,
            kept,
            pivots,
        }
    }

    /// The matrix.
    pub fn matrix(&self) -> &Matrix
        ensures { result.now ≡ self.now.code }
    {
        &self.matrix
    }

    /// The set that was worked through.
    pub fn set(&self) -> Mask
        ensures { result ≡ self.now.set }
    {
        self.set
    }

    /// The members that are kept.
    pub fn kept(&self) -> Mask
        ensures { result ≡ kept self.now.code self.now.set }
    {
        self.kept
    }

    /// How many members are not kept.
    pub fn d(&self) -> u32
        ensures number { result ≡ count_ones (dropped self.now.code self.now.set) }
        ensures listed { result ≡ length (members (dropped self.now.code self.now.set)) }
    {
        self.set.minus(self.kept).count()
    }

    /// The set of kept members whose rows add up to `target`. It is None exactly where no subset of
    /// the set has that sum.
    pub fn combination(&self, target: Mask) -> Option<Mask>
        ensures { result ≡ combination self.now.code self.now.set target }
    {
        let nothing = Combined {
            sum: target,
            members: Mask::EMPTY,
        };
        let rest = reduced(&self.pivots, nothing);
        rest.sum.is_empty().then_some(rest.members)
    }
}

impl Basis {
    /// All subsets of the set whose rows add up to nothing, 2 to the power of `d` in number.
    ///
    /// Let the members not kept be f_0, f_1 and so on, upwards, and let g_i be f_i together with
    /// the combination of its row. Then item `x` of the list is the XOR of the g_i for the ones `i`
    /// of `x`. It answers `TooMany` exactly where there are more than `most`, and `Memory` where
    /// the allocator refuses.
    pub fn nulls(&self, alloc: Global, most: u32) -> Result<Nulls, NullsError>
        ensures list { IfOk result (λ n. n ≡ nulls self.now.code self.now.set) }
        ensures each_once { IfOk result (λ n. (x : ℕ) → often n x ≡
            (if within x self.now.set && is_null self.now.code x then 1 else 0)) }
        ensures few { OnOk result (2 ^ count_ones (dropped self.now.code self.now.set) ≤ most) }
        ensures too_many { let d = count_ones (dropped self.now.code self.now.set) in
            IfErr result (λ e. e ≡ (if nat_lt most (2 ^ d) then TooMany d else Memory)) }
    {
        let d = self.d();
        if is_above(d, most) {
            return Err(NullsError::TooMany { d });
        }
        let mut masks = only_empty(alloc)?;
        for symbol in self.set.minus(self.kept).symbols() {
            double(&mut masks, self.generator(symbol))?;
        }
        Ok(Nulls::of(masks))
    }

    /// A member that is not kept, together with the combination of its row.
    pub fn generator(&self, symbol: u8) -> Mask
        requires { bit_at self.now.set symbol ≡ 1 }
        ensures { result ≡ generator self.now.code self.now.set symbol }
    {
        let equation = self.combination(self.matrix.row(symbol));
        equation
            .unwrap_or(Mask::EMPTY)
            .xor(Mask::EMPTY.with(symbol))
    }
}

/// Whether 2 to the power of `d` is above `most`.
fn is_above(d: u32, most: u32) -> bool
    ensures { result ≡ nat_lt most (2 ^ d) }
{
    d >= u32::BITS || most < 1 << d
}

/// The least column of a sum that is not empty.
fn lowest(sum: Mask) -> u8
    requires some { sum ≡ 0 → ⊥ }
    ensures in_range { result < most_columns }
    ensures member { bit_at sum result ≡ 1 }
{
    sum.number().trailing_zeros() as u8
}

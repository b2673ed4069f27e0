ghost use Rattle.std.specs.Prelude.{◌≡◌, ℕ, ◌^◌, ◌<◌, ◌≤◌, ◌/◌, length, bit_and, bit_or, count_ones, fold, max, nat_lt, IfOk, IfErr, OnOk, Some, true, if◌then◌else◌};
ghost use Rattle.std.specs.Int.{bit_at};
ghost use Rattle.mr_model.specs.Members.{members};
ghost use Rattle.mr_model.specs.Code.{cost, dropped, has_equation, kept_equation, nulls, plain, undetermined};
ghost use Rattle.mr_model.specs.Laws.{IsLean};
ghost use Rattle.mr_bits.specs.Matrices.{greatest_cost};
ghost use Rattle.mr_eq.specs.Problems.{Loss, IsLoss, IsUndetermined, target_at, problem_of, base_list};

use crate::planes::{cost_by, only_of, planes_of};
use arrayvec::ArrayVec;
use mr_bits::{Mask, Matrix};
use mr_null::{Basis, Nulls, NullsError};
use std::alloc::Global;
use std::marker::Model;
use thiserror::Error;

/// A target that has no equation among the survivors.
#[derive(Clone, Copy, Debug, PartialEq, Eq, Error)]
#[error("symbol {symbol} is not determined")]
pub struct Undetermined {
    /// The least such target.
    pub symbol: u8,
}

/// A loss that is determined: a matrix, the symbols that survive, and the targets, each of which is
/// the XOR of some of the survivors.
///
/// The targets are counted upwards; the place of a target in that order is its level, from 0.
#[derive(Drop)]
pub struct Problem {
    matrix: Matrix,
    avail: Mask,
    targets: Mask,
    kept: Mask,
    bases: ArrayVec<Mask, 128>,
    planes: ArrayVec<Mask, 10>,
}

impl Model for Problem {
    ghost use Rattle.mr_eq.specs.Problems.{Loss, IsProblem};

    ghost Value = { Loss };

    ghost view = { λ p. record { code = p.matrix; avail = p.avail; targets = p.targets } };

    ghost invariant = { λ p.
        IsProblem (record { code = p.matrix; avail = p.avail; targets = p.targets })
        p.kept p.bases.items p.planes.items };
}

impl Problem {
    /// The problem of reading the `targets` from the symbols `avail`. Both are sets of symbols of
    /// the matrix, with no common member.
    ///
    /// It answers `Undetermined` exactly where a target has no equation within `avail`, and names
    /// the least such target. Of that target there are two lists of data, of any size but 0, whose
    /// codewords agree on `avail` and differ there, so no reading of the survivors could tell it.
    pub fn new(matrix: &Matrix, avail: Mask, targets: Mask) -> Result<Problem, Undetermined>
        requires avail_below { avail < 2 ^ length matrix.now.rows }
        requires targets_below { targets < 2 ^ length matrix.now.rows }
        requires apart { bit_and avail targets ≡ 0 }
        ensures value { result ≡ problem_of matrix.now avail targets }
        ensures accepted { IfOk result (λ _. (t : ℕ) → bit_at targets t ≡ 1
            → has_equation matrix.now avail t ≡ true) }
        ensures refused { IfErr result (λ e. IsUndetermined matrix.now avail targets e.symbol) }
    {
        let _within_limits = matrix.shape();
        let basis = Basis::of(matrix, avail);
        let bases = bases_of(matrix, &basis, targets)?;
        Ok(Problem {
            matrix: *matrix,
            avail,
            targets,
            kept: basis.kept(),
            bases,
            planes: planes_of(matrix),
        })
    }

    /// The targets.
    pub fn targets(&self) -> Mask
        ensures targets { result ≡ self.now.targets }
        ensures loss { IsLoss self.now }
    {
        self.targets
    }

    /// How many targets there are, which is how many levels.
    pub fn levels(&self) -> u8
        ensures { result ≡ length (members self.now.targets) }
    {
        self.bases.len() as u8
    }

    /// How many survivors are not kept: their number less the rank of their rows.
    pub fn d(&self) -> u32
        ensures number { result ≡ count_ones (dropped self.now.code self.now.avail) }
        ensures listed { result ≡ length (members (dropped self.now.code self.now.avail)) }
    {
        self.avail.minus(self.kept).count()
    }

    /// The union of the equations that the targets have within the kept survivors. The targets are
    /// determined by it, its rows are independent, and it is the union of its recipes.
    pub fn plain(&self) -> Mask
        ensures value { result ≡ plain self.now.code self.now.avail self.now.targets }
        ensures lean { IsLean self.now.code self.now.avail self.now.targets result }
    {
        union_of(&self.bases)
    }

    /// The equation of the target of a level within the kept survivors.
    pub fn base(&self, level: u8) -> Mask
        requires { level < length (members self.now.targets) }
        ensures { result ≡ kept_equation self.now.code self.now.avail (target_at self.now level) }
    {
        self.bases[usize::from(level)]
    }

    /// What it costs to read the symbols of `set`: the sum of their prices, at most 128,000.
    pub fn cost(&self, set: Mask) -> u32
        ensures cost { result ≡ cost self.now.code set }
        ensures few { result ≤ greatest_cost }
    {
        cost_by(&self.planes, set)
    }

    /// Whether one plane tells what each set costs, and that plane.
    pub(crate) fn only_plane(&self) -> (bool, Mask)
        ensures { result.0 ≡ true
            → (u : ℕ) → count_ones (bit_and u result.1) ≡ cost self.now.code u }
    {
        only_of(&self.planes)
    }

    /// The mean price of a survivor, rounded down; 0 where there is no survivor.
    pub(crate) fn mean_price(&self) -> u32
        ensures { result ≡ cost self.now.code self.now.avail / max 1 (count_ones self.now.avail) }
    {
        self.cost(self.avail) / self.avail.count().max(1)
    }

    /// The sets of survivors whose sum is zero, where they are at most `most`.
    pub(crate) fn nulls(&self, alloc: Global, most: u32) -> Result<Nulls, NullsError>
        ensures list { IfOk result (λ n. n ≡ nulls self.now.code self.now.avail) }
        ensures few { OnOk result (2 ^ count_ones (dropped self.now.code self.now.avail) ≤ most) }
        ensures too_many { let d = count_ones (dropped self.now.code self.now.avail) in
            IfErr result (λ e. e ≡
            (if nat_lt most (2 ^ d) then NullsError.TooMany d else NullsError.Memory)) }
    {
        Basis::of(&self.matrix, self.avail).nulls(alloc, most)
    }

    /// The same problem again.
    pub fn copy(&self) -> Problem
        ensures { result ≡ self.now }
    {
        Problem {
            matrix: self.matrix,
            avail: self.avail,
            targets: self.targets,
            kept: self.kept,
            bases: copy_of(&self.bases),
            planes: planes_of(&self.matrix),
        }
    }
}

/// The same sets again.
fn copy_of(sets: &[Mask]) -> ArrayVec<Mask, 128>
    requires { length sets.now ≤ 128 }
    ensures { result.items ≡ sets.now }
{
    let mut copy = ArrayVec::new();
    for set in sets {
        copy.push(*set);
    }
    copy
}

/// The union of some sets.
fn union_of(sets: &[Mask]) -> Mask
    ensures { result ≡ fold bit_or 0 sets.now }
{
    sets.iter()
        .fold(Mask::EMPTY, |union, set| union.union(*set))
}

/// The equation of each target within the kept symbols of the basis, by level, or the least target
/// that has none.
fn bases_of(
    matrix: &Matrix,
    basis: &Basis,
    targets: Mask,
) -> Result<ArrayVec<Mask, 128>, Undetermined>
    requires same { basis.now.code ≡ matrix.now }
    requires targets_below { targets < 2 ^ length matrix.now.rows }
    ensures bases { IfOk result (λ bases.
        bases.items ≡ base_list matrix.now basis.now.set targets) }
    ensures determined { IfOk result (λ _.
        undetermined matrix.now basis.now.set targets ≡ None) }
    ensures least { IfErr result (λ e.
        undetermined matrix.now basis.now.set targets ≡ Some e.symbol) }
{
    let mut bases = ArrayVec::new();
    for symbol in targets.symbols() {
        let Some(base) = basis.combination(matrix.row(symbol)) else {
            return Err(Undetermined { symbol });
        };
        bases.push(base);
    }
    Ok(bases)
}

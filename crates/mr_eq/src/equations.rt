ghost use Rattle.std.specs.Prelude.{◌≡◌, ℕ, ◌^◌, ◌<◌, ◌≤◌, ◌/◌, Ok, true, length, slice_index, bit_and, bit_xor, count_ones, max, nat_lt, IfOk, IfErr, OnOk, if◌then◌else◌};
ghost use Rattle.mr_model.specs.Members.{members};
ghost use Rattle.mr_model.specs.Code.{cost, dropped, is_equation, kept_equation};
ghost use Rattle.mr_model.specs.Search.{cheapest_within};
ghost use Rattle.mr_bits.specs.Matrices.{greatest_cost};
ghost use Rattle.mr_eq.specs.Problems.{Loss, IsLoss, target_at};
ghost use Rattle.mr_eq.specs.Equations.{IsEarlier, IsEquationAt, StandsOnce, width_of, equations_at, is_better, priced_at};

use crate::problems::Problem;
use mr_bits::{Mask, NoMemory};
use mr_null::{Nulls, NullsError};
use rayon::prelude::*;
use std::alloc::Global;
use std::marker::Model;
use std::thread::Threads;

/// How few equations are worth a thread of their own.
const LEAST_PIECE: usize = 16_384;

/// The equations of the targets of a problem. Those of one target are its equation within the kept
/// survivors, XORed with each set of survivors whose sum is zero, so each target has as many of
/// them.
#[derive(Drop)]
pub struct Equations {
    problem: Problem,
    nulls: Nulls,
}

impl Model for Equations {
    ghost use Rattle.mr_eq.specs.Problems.{Loss};
    ghost use Rattle.mr_eq.specs.Equations.{IsListed};

    ghost Value = { Loss };

    ghost view = { λ e. e.problem };

    ghost invariant = { λ e. IsListed e.problem e.nulls };
}

impl Equations {
    /// The equations of the targets of `problem`, where each target has at most `most`.
    ///
    /// It answers `TooMany` with the `d` of the problem exactly where 2 to the power of `d` is
    /// above `most`, and otherwise `Memory` where the allocator refused.
    pub fn of(alloc: Global, problem: &Problem, most: u32) -> Result<Equations, NullsError>
        ensures problem { IfOk result (λ e. e ≡ problem.now) }
        ensures few { let d = count_ones (dropped problem.now.code problem.now.avail) in
            OnOk result (2 ^ d ≤ most) }
        ensures too_many { let d = count_ones (dropped problem.now.code problem.now.avail) in
            IfErr result (λ e. e ≡
            (if nat_lt most (2 ^ d) then NullsError.TooMany d else NullsError.Memory)) }
    {
        let nulls = problem.nulls(alloc, most)?;
        Ok(Equations {
            problem: problem.copy(),
            nulls,
        })
    }

    /// How many equations each target has.
    pub fn width(&self) -> u32
        ensures width { result ≡ width_of self.now }
        ensures power { result ≡ 2 ^ count_ones (dropped self.now.code self.now.avail) }
        ensures loss { IsLoss self.now }
    {
        self.nulls.len()
    }

    /// An equation of the target of a level. Each equation of that target stands at one index, and
    /// at no other.
    pub fn get(&self, level: u8, index: u32) -> Mask
        requires level { level < length (members self.now.targets) }
        requires index { index < width_of self.now }
        ensures value { result ≡ slice_index (equations_at self.now level) index }
        ensures many { length (equations_at self.now level) ≡ width_of self.now }
        ensures equation { IsEquationAt self.now level result }
        ensures each_once { (x : ℕ) → IsEquationAt self.now level x
            → StandsOnce (equations_at self.now level) x }
    {
        self.nulls.get(index).xor(self.problem.base(level))
    }

    /// A set of survivors whose sum is zero. XORed with the base of a level it is the equation of that
    /// level at the same index.
    pub fn null(&self, index: u32) -> Mask
        requires { index < width_of self.now }
        ensures { (level : ℕ) → level < length (members self.now.targets)
            → slice_index (equations_at self.now level) index ≡ bit_xor result
            (kept_equation self.now.code self.now.avail (target_at self.now level)) }
    {
        self.nulls.get(index)
    }

    /// The equation of the target of a level within the kept survivors.
    pub fn base(&self, level: u8) -> Mask
        requires { level < length (members self.now.targets) }
        ensures { result ≡ kept_equation self.now.code self.now.avail (target_at self.now level) }
    {
        self.problem.base(level)
    }

    /// Whether one plane tells what each set costs, and that plane: a set of symbols. A set then costs
    /// as much as it has members in common with it. It is so where all prices are 1.
    pub fn only_plane(&self) -> (bool, Mask)
        ensures { result.0 ≡ true
            → (u : ℕ) → count_ones (bit_and u result.1) ≡ cost self.now.code u }
    {
        self.problem.only_plane()
    }

    /// The mean price of a survivor, rounded down; 0 where there is no survivor.
    pub fn mean_price(&self) -> u32
        ensures { result ≡ cost self.now.code self.now.avail / max 1 (count_ones self.now.avail) }
    {
        self.problem.mean_price()
    }

    /// What it costs to read the symbols of `set`: the sum of their prices, at most 128,000.
    pub fn cost(&self, set: Mask) -> u32
        ensures cost { result ≡ cost self.now.code set }
        ensures few { result ≤ greatest_cost }
    {
        self.problem.cost(set)
    }

    /// The least equation of the target of a level by cost, and of those of equal cost the least by
    /// its number.
    pub fn least(&self, level: u8) -> Mask
        requires { level < length (members self.now.targets) }
        ensures { result ≡ cheapest_within self.now.avail (cost self.now.code)
            (is_equation self.now.code (target_at self.now level)) }
    {
        let width = self.width();
        let mut least = self.get(level, 0);
        for index in 1..width {
            let other = self.get(level, index);
            if self.is_better(other, least) {
                least = other;
            }
        }
        least
    }

    /// The answer of `least`, where pieces of the equations are looked through by threads. Fewer than
    /// twice 16,384 equations are looked through by this thread alone. It takes no memory.
    pub fn least_split<T: Threads + Sync>(
        &self,
        rt: &T,
        _alloc: Global,
        level: u8,
    ) -> Result<Mask, NoMemory>
        requires { level < length (members self.now.targets) }
        ensures { result ≡ Ok (cheapest_within self.now.avail (cost self.now.code)
            (is_equation self.now.code (target_at self.now level))) }
    {
        let width = self.width();
        let first = self.priced(level, 0);
        let (_cost, least) = (0..width)
            .into_par_iter()
            .with_min_len(LEAST_PIECE)
            .map(
                |index: u32| -> (u32, Mask)
                    requires level { level < length (members self.now.targets) }
                    requires index { index < width_of self.now }
                    ensures { result ≡ priced_at self.entry.now level index }
                { self.priced(level, index) },
            )
            .reduce(
                rt,
                || -> (u32, Mask)
                    ensures { result ≡ first }
                { first },
                |x: (u32, Mask), y: (u32, Mask)| -> (u32, Mask)
                    ensures { IsEarlier x y result }
                { earlier(x, y) },
            );
        Ok(least)
    }

    /// An equation of the target of a level, with its cost before it.
    fn priced(&self, level: u8, index: u32) -> (u32, Mask)
        requires level { level < length (members self.now.targets) }
        requires index { index < width_of self.now }
        ensures { result ≡ priced_at self.now level index }
    {
        let equation = self.get(level, index);
        (self.cost(equation), equation)
    }

    /// Whether `x` is cheaper than `y`, or as cheap and the lesser number.
    fn is_better(&self, x: Mask, y: Mask) -> bool
        ensures { result ≡ is_better (cost self.now.code) x y }
    {
        let (this, other) = (self.cost(x), self.cost(y));
        this < other || this == other && x < y
    }
}

/// The cheaper of two sets, each behind its cost, and of two that cost the same the lesser number.
fn earlier(x: (u32, Mask), y: (u32, Mask)) -> (u32, Mask)
    ensures { IsEarlier x y result }
{
    if y.0 < x.0 || y.0 == x.0 && y.1 < x.1 {
        y
    } else {
        x
    }
}

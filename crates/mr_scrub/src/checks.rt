ghost use Rattle.std.specs.Prelude.{◌≡◌, ℕ, ◌^◌, ◌<◌, ◌≤◌, length, slice_index};
ghost use Rattle.mr_bits.specs.Matrices.{IsMatrixCode};
ghost use Rattle.mr_scrub.specs.Stripes.{checks_of};

use arrayvec::ArrayVec;
use mr_bits::{MOST_SYMBOLS, Mask, Matrix};
use mr_null::Basis;
use std::marker::Model;

/// The checks of a matrix: sets of symbols whose XOR is nothing in each codeword, at most 128.
#[derive(Drop)]
pub struct Checks {
    matrix: Matrix,
    sets: ArrayVec<Mask, MOST_SYMBOLS>,
}

impl Model for Checks {
    ghost use Rattle.mr_model.specs.Code.{Code};
    ghost use Rattle.mr_scrub.specs.Stripes.{AreChecks};

    ghost Value = { Code };

    ghost view = { λ c. c.matrix };

    ghost invariant = { λ c. AreChecks c.matrix c.sets.items };
}

impl Checks {
    /// The checks of `matrix`: for each symbol upwards whose row is a sum of kept rows, that symbol together with
    /// the kept ones of that sum. It takes no memory.
    pub fn of(matrix: &Matrix) -> Checks
        ensures { result ≡ matrix.now }
    {
        let basis = Basis::of(matrix, matrix.all());
        let mut sets = ArrayVec::new();
        for symbol in basis.set().minus(basis.kept()).symbols() {
            sets.push(basis.generator(symbol));
        }
        Checks {
            matrix: *matrix,
            sets,
        }
    }

    /// How many checks there are.
    pub fn len(&self) -> u32
        ensures number { result ≡ length (checks_of self.now) }
        ensures few { result ≤ MOST_SYMBOLS }
        ensures matrix { IsMatrixCode self.now }
    {
        let _within_the_limits = self.matrix.shape();
        self.sets.len() as u32
    }

    /// Check `x`, counted from 0: the set of its symbols.
    pub fn get(&self, x: u32) -> Mask
        requires { x < length (checks_of self.now) }
        ensures value { result ≡ slice_index (checks_of self.now) x }
        ensures symbols { result < 2 ^ length self.now.rows }
    {
        self.sets[x as usize]
    }

    /// The matrix that the checks are of.
    pub fn matrix(&self) -> &Matrix
        ensures { result.now ≡ self.now }
    {
        &self.matrix
    }
}

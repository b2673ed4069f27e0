ghost use Rattle.std.specs.Prelude.{◌≡◌, ℕ, ◌^◌, ◌<◌, length};
ghost use Rattle.mr_model.specs.Laws.{IsLean};
ghost use Rattle.mr_model.specs.Plans.{IsValidPlan};
ghost use Rattle.mr_plan.specs.Plans.{IsPlan, plan_of, survivors};

use crate::kinds::Kind;
use crate::recipes::Recipe;
use arrayvec::ArrayVec;
use mr_bits::{MOST_SYMBOLS, Mask, Matrix};
use mr_null::Basis;
use std::marker::Model;

/// A plan of a rebuild: the set of survivors to read, and a recipe for each lost symbol.
///
/// The recipes stand strictly upwards by symbol, each symbol below `MOST_SYMBOLS`.
#[derive(PartialEq, Eq, Debug, Drop)]
pub struct Plan {
    kind: Kind,
    set: Mask,
    recipes: ArrayVec<Recipe, MOST_SYMBOLS>,
}

impl Model for Plan {
    ghost use Rattle.mr_plan.specs.Plans.{PlanParts, IsPlan};

    ghost Value = { PlanParts };

    ghost view = { λ p. record { kind = p.kind; set = p.set; recipes = p.recipes.items } };

    ghost invariant = { λ p.
        IsPlan (record { kind = p.kind; set = p.set; recipes = p.recipes.items }) };

    ghost inverse = { λ p.
        record { kind = p.kind; set = p.set; recipes = record { items = p.recipes } } };
}

impl Plan {
    /// The plan that reads `set` for the lost symbols: the recipe of each is its one equation within `set`.
    ///
    /// The set is one of survivors, has independent rows and an equation of each lost symbol, and is the union
    /// of these equations.
    pub fn of(matrix: &Matrix, lost: Mask, set: Mask, kind: Kind) -> Plan
        requires lost { lost < 2 ^ length matrix.now.rows }
        requires set { IsLean matrix.now (survivors matrix.now lost) lost set }
        ensures made { result ≡ plan_of matrix.now lost set kind }
        ensures valid { IsValidPlan matrix.now (survivors matrix.now lost) lost
            result.set result.recipes }
    {
        // Contracts see a set as a number; this call tells the proof that it is below 2^128.
        let _number = set.number();
        let basis = Basis::of(matrix, set);
        let mut recipes = ArrayVec::new();
        for symbol in lost.symbols() {
            let sources = basis.combination(matrix.row(symbol)).unwrap_or(Mask::EMPTY);
            recipes.push(Recipe::new(symbol, sources));
        }
        Plan { kind, set, recipes }
    }

    /// The plan of these parts.
    pub(crate) fn of_parts(kind: Kind, set: Mask, recipes: ArrayVec<Recipe, MOST_SYMBOLS>) -> Plan
        requires { IsPlan (record { kind = kind; set = set; recipes = recipes.items }) }
        ensures { result ≡ record { kind = kind; set = set; recipes = recipes.items } }
    {
        Plan { kind, set, recipes }
    }

    /// The same plan, as one that was handed in.
    pub fn given(self) -> Plan
        ensures { result ≡ record self { kind = Kind.Given } }
    {
        Plan {
            kind: Kind::Given,
            set: self.set,
            recipes: self.recipes,
        }
    }

    /// How the set was found.
    pub fn kind(&self) -> Kind
        ensures { result ≡ self.now.kind }
    {
        self.kind
    }

    /// The symbols to read.
    pub fn set(&self) -> Mask
        ensures { result ≡ self.now.set }
    {
        self.set
    }

    /// The recipes, strictly upwards by symbol.
    pub fn recipes(&self) -> &[Recipe]
        ensures all { result.now ≡ self.now.recipes }
        ensures in_range { IsPlan self.now }
    {
        self.recipes.as_slice()
    }
}

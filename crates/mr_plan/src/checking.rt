//! The checker of plans.

ghost use Rattle.std.specs.Prelude.{◌≡◌, ◌↔◌, ℕ, ◌^◌, ◌<◌, not, map, length, All, IsOk, IfErr};
ghost use Rattle.std.specs.Option.{option_map};
ghost use Rattle.mr_model.specs.Sets.{has, find_member};
ghost use Rattle.mr_model.specs.Members.{members};
ghost use Rattle.mr_model.specs.Plans.{IsValidPlan};
ghost use Rattle.mr_plan.specs.Plans.{survivors};
ghost use Rattle.mr_plan.specs.Faults.{IsFirstFault};
ghost use Rattle.mr_plan.specs.Checks.{first_fault, survivor_fault, symbol_fault, recipes_fault, recipe_fault, spare_fault, expected_fault, is_needed, sound_unless};

use crate::errors::{Why, Wrong};
use crate::plans::Plan;
use crate::recipes::Recipe;
use mr_bits::{Mask, Matrix};

/// Whether the plan is valid for the matrix and the lost symbols, which are symbols of the matrix.
///
/// It answers the first fault in this order, with its symbol: the least member of the set that is no survivor; the
/// first place at which the lost symbols and the recipes' symbols differ; the first recipe that has a source outside
/// the set or does not add up to the row of its symbol; the least member of the set that stands in no recipe. What
/// comes before it in the order holds. Takes no memory.
pub fn check(matrix: &Matrix, lost: Mask, plan: &Plan) -> Result<(), Wrong>
    requires { lost < 2 ^ length matrix.now.rows }
    ensures first { result ≡ sound_unless (first_fault matrix.now lost plan.now) }
    ensures fault { IfErr result (IsFirstFault matrix.now lost plan.now) }
    ensures valid { IsOk result
        ↔ IsValidPlan matrix.now (survivors matrix.now lost) lost plan.now.set plan.now.recipes }
{
    check_in_order(matrix, lost, plan)
}

/// The first fault of the plan.
fn check_in_order(matrix: &Matrix, lost: Mask, plan: &Plan) -> Result<(), Wrong>
    requires { lost < 2 ^ length matrix.now.rows }
    ensures { result ≡ sound_unless (first_fault matrix.now lost plan.now) }
{
    let set = plan.set();
    check_survivors(matrix, lost, set)?;
    check_symbols(lost, plan.recipes())?;
    check_recipes(matrix, set, plan.recipes())?;
    check_spare(set, plan.recipes())
}

/// Whether each member of the set survives.
fn check_survivors(matrix: &Matrix, lost: Mask, set: Mask) -> Result<(), Wrong>
    ensures { result ≡ sound_unless (survivor_fault matrix.now lost set) }
{
    match least_outside(set, matrix.all().minus(lost)) {
        Some(symbol) => Err(Wrong {
            symbol,
            why: Why::NotSurvivor,
        }),
        None => Ok(()),
    }
}

/// Whether there is one recipe for each lost symbol, upwards.
fn check_symbols(lost: Mask, recipes: &[Recipe]) -> Result<(), Wrong>
    ensures { result
        ≡ sound_unless (symbol_fault (members lost) (map (λ r. r.symbol) recipes.now)) }
{
    let mut expected = lost.symbols();
    for recipe in recipes {
        check_symbol(expected.next(), recipe.symbol())?;
    }
    match expected.next() {
        Some(symbol) => Err(Wrong {
            symbol,
            why: Why::Missing,
        }),
        None => Ok(()),
    }
}

/// Whether the symbol of a recipe is the lost symbol at its place, if there is one.
fn check_symbol(expected: Option<u8>, symbol: u8) -> Result<(), Wrong>
    ensures { result ≡ sound_unless (expected_fault expected symbol) }
{
    match expected {
        Some(lost) if lost == symbol => Ok(()),
        Some(lost) if lost < symbol => Err(Wrong {
            symbol: lost,
            why: Why::Missing,
        }),
        _ => Err(Wrong {
            symbol,
            why: Why::Stray,
        }),
    }
}

/// Whether each recipe is within the set, and adds up to the row of its symbol.
fn check_recipes(matrix: &Matrix, set: Mask, recipes: &[Recipe]) -> Result<(), Wrong>
    requires set { set < 2 ^ length matrix.now.rows }
    requires symbols { All (λ r. r.symbol < length matrix.now.rows) recipes.now }
    ensures { result ≡ sound_unless (recipes_fault matrix.now set recipes.now) }
{
    for recipe in recipes {
        check_recipe(matrix, set, recipe)?;
    }
    Ok(())
}

/// Whether a recipe is within the set, and adds up to the row of its symbol.
fn check_recipe(matrix: &Matrix, set: Mask, recipe: &Recipe) -> Result<(), Wrong>
    requires set { set < 2 ^ length matrix.now.rows }
    requires symbol { recipe.now.symbol < length matrix.now.rows }
    ensures { result ≡ sound_unless (recipe_fault matrix.now set recipe.now) }
{
    let symbol = recipe.symbol();
    let sources = recipe.sources();
    if !sources.within(set) {
        return Err(Wrong {
            symbol,
            why: Why::Outside,
        });
    }
    if matrix.row_sum(sources) != matrix.row(symbol) {
        return Err(Wrong {
            symbol,
            why: Why::Sum,
        });
    }
    Ok(())
}

/// Whether each member of the set stands in a recipe.
fn check_spare(set: Mask, recipes: &[Recipe]) -> Result<(), Wrong>
    ensures { result ≡ sound_unless (spare_fault set recipes.now) }
{
    match least_outside(set, needed(recipes)) {
        Some(symbol) => Err(Wrong {
            symbol,
            why: Why::Spare,
        }),
        None => Ok(()),
    }
}

/// The union of the recipes.
fn needed(recipes: &[Recipe]) -> Mask
    ensures { (i : ℕ) → has result i ≡ is_needed recipes.now i }
{
    let mut union = Mask::EMPTY;
    for recipe in recipes {
        union = union.union(recipe.sources());
    }
    union
}

/// The least member of a set that is not among others.
fn least_outside(set: Mask, others: Mask) -> Option<u8>
    ensures { result ≡ find_member set (λ i. not (has others i)) }
{
    set.minus(others).symbols().next()
}

//! Why a plan is refused.

use thiserror::Error;

/// What is wrong with a plan.
#[derive(Clone, Copy, PartialEq, Eq, Debug)]
pub enum Why {
    /// A member of the set is lost, or is no symbol of the matrix.
    NotSurvivor,
    /// A lost symbol has no recipe.
    Missing,
    /// A recipe is of a symbol that is not lost.
    Stray,
    /// A recipe has a source outside the set.
    Outside,
    /// The sources of a recipe do not add up to the row of its symbol.
    Sum,
    /// A member of the set stands in no recipe.
    Spare,
}

/// The first fault of a plan that is not valid, and the symbol at which it is.
#[derive(Clone, Copy, PartialEq, Eq, Debug, Error)]
#[error("the plan is wrong at symbol {symbol}")]
pub struct Wrong {
    /// The symbol.
    pub symbol: u8,
    /// What is wrong there.
    pub why: Why,
}

/// The first line of a plan text that is not of its form, counted from 1.
#[derive(Clone, Copy, PartialEq, Eq, Debug, Error)]
#[error("line {line} of the plan text is not of its form")]
pub struct PlanLine {
    /// The number of the line.
    pub line: u32,
}

//! The words of `leastplan MATRIX LOST [--workers W] [--budget C]`, read in the grammar of `mr_words`.
#![tactic(auto)]

mod budgets;
mod words;

pub use budgets::{GREATEST_BUDGET, read_budget};
pub use words::{LeastWords, read_least};

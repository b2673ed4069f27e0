//! The top call of the commands that may wait, of which `table` is one: words and files in, an
//! answer out.
#![tactic(auto)]

mod late;
mod printing;
mod tabled;
mod words;

pub use late::run_waiting;
pub use words::{DEFAULT_TABLE_BUDGET, TABLE_BUDGET_LIMIT, TableWords, read_late_words};

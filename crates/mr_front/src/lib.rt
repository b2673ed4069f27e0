//! The graph of masks by layers, and the search for the cheapest set on one thread.
#![tactic(auto)]

mod children;
mod cost_lists;
mod frontier;
mod layers;
mod masks;
mod row;
mod rows;
mod search;
mod waiting;

pub use children::expand;
pub use frontier::Frontier;
pub use layers::Layer;
pub use masks::Masks;
pub use row::Made;
pub use rows::Rows;
pub use search::{search_one, work_with};

//! Stripes that several callers read, write and mend, each under a lock of its own, on a table of atomic words.
//!
//! A caller draws a ticket of a stripe, looks until its ticket is served, makes its call on the stripe, and then serves the
//! next ticket. What all steps keep is the rule in `specs/Rule`: each stripe has a history, and is what an object of one
//! thread makes of it. No step takes memory.
#![tactic(auto)]

mod locks;
mod rule;
mod view;

pub use locks::{LockSeat, Locks};
pub use view::LockView;

//! The top call of `arrays`: images from device files, and back to them.
#![tactic(auto)]

mod top;

pub use mr_scatter_run::Lent;
pub use top::run;

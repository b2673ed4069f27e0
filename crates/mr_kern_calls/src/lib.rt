//! Tests of the kernel by each of three functions for blocks, one of which, for tests alone, goes downwards.
#![tactic(auto)]

mod downwards;
#[cfg(test)]
mod tests;

pub use downwards::block_downwards;

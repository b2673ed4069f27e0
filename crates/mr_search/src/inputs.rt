use mr_bound::Bound;
use mr_eq::{Equations, Problem};
use mr_front::Layer;
use std::alloc::Global;

/// What a search is asked: the problem, and the most work that it may take.
#[derive(Drop)]
pub(crate) struct Question<'a> {
    pub alloc: Global,
    pub problem: &'a Problem,
    pub budget: u32,
}

/// What a search goes by: the problem, and its equations.
#[derive(Drop)]
pub(crate) struct Inputs<'a> {
    pub alloc: Global,
    pub problem: &'a Problem,
    pub equations: &'a Equations,
}

/// What the workers go by at a layer: the bound from which they draw its masks, and whether the
/// children are of the last level.
#[derive(Drop)]
pub(crate) struct Task<'a> {
    pub bound: &'a Bound,
    pub equations: &'a Equations,
    pub layer: &'a Layer,
    pub last: bool,
}

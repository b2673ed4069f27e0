use crate::jobs::Jobs;
use mr_bits::{Mask, Matrix};
use std::alloc::Global;

/// What the workers go by: the matrix, the budget of each search, the devices that are lost in each
/// job, and the queue of the jobs.
#[derive(Drop)]
pub(crate) struct Task<'a> {
    pub alloc: Global,
    pub matrix: &'a Matrix,
    pub budget: u32,
    pub losses: &'a Vec<Mask>,
    pub jobs: &'a Jobs,
}

use crate::asks::Ask;
use mr_board::Board;
use mr_eq::Singles;
use mr_image::ImageHead;
use mr_kern::XorKernel;
use mr_plan::Plans;

/// What all workers of a rebuild go by.
#[derive(Drop)]
pub(crate) struct Task<'a, G> {
    /// The board on which they meet.
    pub board: &'a Board,
    /// The head of the image.
    pub head: &'a ImageHead,
    /// The plans of the stripes.
    pub plans: &'a Plans,
    /// The single equations of the lost symbols, for each rotation in use.
    pub singles: &'a [Singles],
    /// The reads that are asked for.
    pub asks: &'a [Ask],
    /// The kernel that adds bytes.
    pub kernel: &'a XorKernel,
    /// The gate that they pass.
    pub gate: &'a G,
}

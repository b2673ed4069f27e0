//! What a rebuild goes by.

use crate::asks::Ask;
use mr_image::ImageHead;
use mr_kern::XorKernel;
use mr_plan::Plans;

/// What a rebuild goes by: the head of the image, the plans of its stripes, the reads of its script, and the kernel that adds bytes.
#[derive(Drop)]
pub struct Rebuild<'a> {
    /// The head of the image.
    pub head: &'a ImageHead,
    /// The plans of the stripes, each of which has a recipe for each lost symbol.
    pub plans: &'a Plans,
    /// The reads that are asked for while the image is rebuilt.
    pub asks: &'a [Ask],
    /// The kernel that adds bytes.
    pub kernel: &'a XorKernel,
}

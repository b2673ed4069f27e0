use crate::checks::Checks;
use mr_bits::Matrix;
use mr_image::ImageHead;
use mr_kern::XorKernel;

/// What a scrub goes by: the matrix of the code, the head of the image, and the kernel that adds bytes.
#[derive(Drop)]
pub struct Scrub<'a> {
    /// The matrix.
    pub matrix: &'a Matrix,
    /// The head.
    pub head: &'a ImageHead,
    /// The kernel.
    pub kernel: &'a XorKernel,
}

/// What scans the parts of an image: the checks of the codes of its stripes, which take turns, the head and the kernel.
#[derive(Drop)]
pub(crate) struct Scanner<'a> {
    pub checks: &'a [Checks],
    pub head: &'a ImageHead,
    pub kernel: &'a XorKernel,
}

/// Whole stripes of an image.
#[derive(Drop)]
pub(crate) struct Part<'a> {
    /// The number of the first.
    pub first: u32,
    /// The bytes of all.
    pub bytes: &'a [u8],
}

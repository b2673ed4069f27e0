use mr_bits::{Mask, Matrix};
use mr_image::ImageHead;
use mr_kern::XorKernel;
use mr_mend::Ask;
use mr_plan::Plan;
use std::alloc::Global;

/// What of an image cannot be read: the symbols of lost devices in each stripe, and sectors besides.
#[derive(Drop)]
pub struct Damage<'a> {
    /// The matrix of the code.
    pub matrix: &'a Matrix,
    /// The head of the image, of either version.
    pub head: &'a ImageHead,
    /// The symbols of the lost devices.
    pub lost: Mask,
    /// Symbols besides, upwards by stripe and then by symbol.
    pub sectors: &'a [Ask],
}

/// What the patching of an image goes by.
#[derive(Drop)]
pub struct Patching<'a, G> {
    /// What cannot be read.
    pub damage: Damage<'a>,
    /// The memory of the plans that are made.
    pub alloc: Global,
    /// The kernel that adds bytes.
    pub kernel: &'a XorKernel,
    /// The gate that is passed at `Planned`, once for each plan that is made.
    pub gate: &'a G,
}

/// A stripe, and the plan by which it is mended.
#[derive(Drop)]
pub(crate) struct Planned<'a> {
    pub stripe: u32,
    pub plan: &'a Plan,
}

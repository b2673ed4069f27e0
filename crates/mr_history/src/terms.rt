//! What calls on the stripes of an image go by.

use mr_bits::Matrix;
use mr_image::ImageHead;
use mr_ops::Op;
use mr_plan::Plans;
use std::collections::VecDeque;
use std::snapshot::Snapshot;

/// What calls on the stripes of an image go by. Contracts see it by `names_of`.
#[derive(Drop)]
pub struct Terms {
    /// The head of the image.
    pub head: ImageHead,
    /// The matrix of the code, whose devices move on by one with each stripe of an image of version 2.
    pub matrix: Matrix,
    /// The plans of the stripes.
    pub plans: Plans,
    /// The bytes of the stripes as they were read, for contracts alone.
    pub image: Snapshot<VecDeque<Vec<u8>>>,
    /// What is asked of the stripes.
    pub ops: Vec<Op>,
}

impl Terms {
    ghost use Rattle.std.specs.Prelude.{◌≡◌, ◌<◌, Some, length, slice_get};
    ghost use Rattle.mr_history.specs.Histories.{names_of, stripe_of};

    /// The ask of this number.
    pub fn op(&self, number: u32) -> &Op
        requires { number < length (names_of self.now).ops }
        ensures { slice_get (names_of self.now).ops number ≡ Some result.now }
    {
        &self.ops[number as usize]
    }

    /// The stripe of the ask of this number.
    pub fn stripe(&self, number: u32) -> u32
        requires { number < length (names_of self.now).ops }
        ensures { result ≡ stripe_of (names_of self.now) number }
    {
        self.op(number).stripe()
    }
}

//! What is to be rebuilt.

use mr_eq::Singles;
use mr_image::ImageHead;
use mr_mend::Ask;
use mr_plan::Plans;
use mr_steps::ChoiceLine;

/// What is to be rebuilt, and by what.
#[derive(Drop)]
pub struct Order {
    /// The head of the image.
    pub head: ImageHead,
    /// The plan of each rotation in use.
    pub plans: Plans,
    /// How each of them was found, in their order.
    pub lines: Vec<ChoiceLine>,
    /// The single equations of the lost symbols for the code of each rotation in use. Without `live` none is looked at.
    pub singles: Vec<Singles>,
    /// The reads of the script.
    pub asks: Vec<Ask>,
    /// How many menders there are and, with `live`, how many readers, from 1 to 64.
    pub workers: u32,
    /// Whether the reads are served beside the menders, or after them.
    pub live: bool,
}

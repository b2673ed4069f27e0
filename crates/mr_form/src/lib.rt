//! The texts of matrices, with the exact place of the first fault, and the makers of two published
//! codes; and by its public names the head of an image file, which stands with its definitions in
//! the crate below.
#![tactic(auto)]

mod faults;
mod heads;
mod lines;
mod makers;
mod prices;
mod printing;
mod reading;
mod rows;

pub use faults::{LineKind, MatrixFault};
pub use makers::{evenodd, rdp};
pub use mr_image::{HeadFault, ImageHead, ImageKind};
pub use printing::print_matrix;
pub use reading::read_matrix;

//! The image file of the codewords of a data file, made stripe by stripe.
#![tactic(auto)]

mod encoding;
mod stripes;

pub use encoding::encode;

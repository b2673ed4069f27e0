//! Tests of the scrub: the checks of a code, the scan of stripes, and what is told of whole images. There is nothing here
//! but tests.
#![tactic(auto)]

#[cfg(test)]
mod tests;

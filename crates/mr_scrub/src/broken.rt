use mr_bits::Mask;

/// A stripe that is no codeword, and the first check of its code that its symbols break.
#[derive(Clone, Copy, PartialEq, Eq, Debug)]
pub struct Broken {
    /// The number of the stripe.
    pub stripe: u32,
    /// The symbols of the check, whose XOR is not zero bytes.
    pub check: Mask,
}

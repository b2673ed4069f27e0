/// A pattern of a stripe: its symbols that cannot be read, and the rotation of its code.
#[derive(Clone, Copy, PartialEq, Eq, Hash, Debug)]
pub struct Pattern {
    /// By how many devices the code has moved on.
    pub rotation: u32,
    /// The number of the set of these symbols.
    pub lost: u128,
}

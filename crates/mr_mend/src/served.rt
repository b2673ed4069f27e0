//! How an ask is served, and where its reply stands.

/// How an ask was served.
#[derive(Clone, Copy, PartialEq, Eq, Debug)]
pub enum How {
    /// The symbol survives, and was read.
    Direct,
    /// The symbol is lost, its stripe was seen done, and the board has it.
    Rebuilt,
    /// The symbol is lost, its stripe was not done, and the symbols of its single equation were read and added.
    Degraded,
}

/// An ask's place in the script, from 0, and room for its reply.
#[derive(Drop)]
pub struct Slot {
    /// The number of the ask.
    pub number: u32,
    /// The bytes of one symbol.
    pub bytes: Vec<u8>,
}

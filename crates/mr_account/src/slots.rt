//! What is told of an ask.

/// An ask, and what came of it once it was made.
#[derive(Drop)]
pub struct Slot {
    /// Its number among all asks.
    pub number: u32,
    /// Its place in the history of its stripe, from 0.
    pub place: u32,
    /// The reply to it, of the bytes of one symbol. That to a write is of no account.
    pub reply: Vec<u8>,
}

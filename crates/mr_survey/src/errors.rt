use thiserror::Error;

/// A stripe whose symbols that can be read do not determine one that fails.
#[derive(Clone, Copy, Debug, PartialEq, Eq, Error)]
#[error("in stripe {stripe} symbol {symbol} is not determined")]
pub struct UndeterminedIn {
    /// The first such stripe.
    pub stripe: u32,
    /// The least such symbol of it.
    pub symbol: u8,
}

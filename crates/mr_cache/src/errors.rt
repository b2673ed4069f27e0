use thiserror::Error;

/// Why there is no plan of a pattern.
#[derive(Clone, Copy, PartialEq, Eq, Debug, Error)]
pub enum PlanError {
    /// The symbols that can be read do not determine this one, the least of which that is so.
    #[error("symbol {symbol} is not determined")]
    Undetermined {
        /// The symbol.
        symbol: u8,
    },
    /// There was no memory.
    #[error("out of memory")]
    Memory,
}

//! The codes that have a maker.

/// A code that has a maker.
#[derive(Clone, Copy, Debug, Drop, PartialEq, Eq)]
pub enum Code {
    /// Row-diagonal parity.
    Rdp,
    /// EVENODD.
    Evenodd,
}

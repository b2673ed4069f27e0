//! The numbers of the form of an image.

/// How many bytes stand before the first symbol.
pub const HEAD_BYTES: u64 = 32;

/// The most bytes of a symbol.
pub const SYMBOL_LIMIT: u32 = 65_536;

/// The most bytes of all symbols.
pub const IMAGE_LIMIT: u64 = 268_435_456;

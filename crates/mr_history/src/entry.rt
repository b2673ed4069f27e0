//! The calls of a history.

/// A call that was made on a stripe.
#[derive(Clone, Copy, PartialEq, Eq, Debug)]
pub enum Entry {
    /// An ask.
    Ask {
        /// Its number among all asks.
        number: u32,
    },
    /// The stripe was mended, or was whole already.
    Mend,
}

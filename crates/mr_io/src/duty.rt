//! What an eye is for.

/// What an eye is for: the bytes that it takes are added up by this.
#[derive(Clone, Copy, Debug, PartialEq, Eq)]
pub enum Duty {
    /// The text of a matrix, a plan or the like.
    Text,
    /// The head of an image.
    Head,
    /// The reads that mend an image.
    Mend,
    /// The reads of a live reader.
    Live,
    /// The reads that copy what stands.
    Copy,
}

use mr_bits::Large;
use thiserror::Error;

/// What is wrong with an image.
#[derive(Clone, Copy, Debug, PartialEq, Eq, Error)]
pub enum ImageKind {
    /// The file has fewer than 32 bytes, or its first 32 have not the marks of a head.
    #[error("head")]
    Head,
    /// The devices, or the symbols of each, are not those of the matrix.
    #[error("shape")]
    Shape,
    /// The bytes of a symbol are none, or no multiple of 8.
    #[error("bytes")]
    Bytes,
    /// The file's length is not that of its head and its symbols.
    #[error("length")]
    Length,
    /// The image is of version 2, and a plan was handed in: such an
    /// image has a plan for each rotation.
    #[error("planned")]
    Planned,
    /// The image is of version 2 already.
    #[error("version")]
    Version,
}

/// Why bytes are not the head of an image: the first fault.
#[derive(Clone, Copy, Debug, PartialEq, Eq, Error)]
pub enum HeadFault {
    /// The image is not of its form.
    #[error("image {0}")]
    Bad(ImageKind),
    /// A symbol has more than 65,536 bytes, or else all symbols have more than 268,435,456.
    #[error("{0}")]
    Large(Large),
}

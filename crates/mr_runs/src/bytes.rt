//! The bytes that tables of tests name.

use mr_bits::NoMemory;
use std::alloc::Global;

/// The bytes of a file, of a script or of an answer.
#[derive(Clone, Copy)]
pub enum Bytes {
    /// Those of a text.
    Text(&'static str),
    /// These.
    Raw(&'static [u8]),
    /// The first, and then each of the second eight times: a head, and a byte for each symbol of eight.
    Image(&'static [u8], &'static [u8]),
}

impl Bytes {
    /// The bytes one by one.
    pub fn listed(&self, alloc: Global) -> Result<Vec<u8>, NoMemory> {
        match self {
            Bytes::Text(text) => Ok(Vec::from_slice(alloc, text.as_bytes())?),
            Bytes::Raw(bytes) => Ok(Vec::from_slice(alloc, bytes)?),
            Bytes::Image(head, symbols) => image_of(alloc, head, symbols),
        }
    }
}

/// The head, and then each symbol's byte eight times.
pub fn image_of(alloc: Global, head: &[u8], symbols: &[u8]) -> Result<Vec<u8>, NoMemory> {
    let mut bytes = Vec::from_slice(alloc, head)?;
    for symbol in symbols {
        bytes.extend_from_slice(&[*symbol; 8])?;
    }
    Ok(bytes)
}

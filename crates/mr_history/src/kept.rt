//! A stripe in memory with its history.

ghost use Rattle.std.specs.Prelude.{◌≡◌, ℕ, ◌≤◌, ◌<◌, [], false, length, IfOk, vec_capacity};

use crate::entry::Entry;
use mr_image::ImageHead;
use std::alloc::{AllocError, Global};

/// A stripe in memory, with the calls that were made on it. As long as it is not whole, it has the bytes that were read.
#[derive(Drop)]
pub struct KeptStripe {
    pub(crate) bytes: Vec<u8>,
    pub(crate) whole: bool,
    pub(crate) history: Vec<Entry>,
}

impl KeptStripe {
    ghost use Rattle.std.specs.Prelude.{◌+◌, ◌*◌};
    ghost use Rattle.mr_kept.specs.Kept.{symbol_in};

    /// A stripe of these bytes as they were read, which has memory for so many calls.
    pub fn of(alloc: Global, bytes: Vec<u8>, calls: usize) -> Result<KeptStripe, AllocError>
        ensures bytes { IfOk result (λ kept. kept.bytes.items ≡ bytes.items) }
        ensures lost { IfOk result (λ kept. kept.whole ≡ false) }
        ensures history { IfOk result (λ kept. kept.history.items ≡ []) }
        ensures room { IfOk result (λ kept. calls ≤ vec_capacity kept.history) }
    {
        let history = Vec::with_capacity(alloc, calls)?;
        Ok(KeptStripe {
            bytes,
            whole: false,
            history,
        })
    }

    /// The calls that were made on it, in order.
    pub fn history(&self) -> &[Entry]
        ensures { result.now ≡ self.now.history.items }
    {
        &self.history
    }

    /// The bytes of symbol `number`, where it has that many symbols of this head.
    pub fn symbol(&self, head: &ImageHead, number: u8) -> &[u8]
        requires { number * head.now.symbol_bytes + head.now.symbol_bytes
            ≤ length self.now.bytes.items }
        ensures { result.now ≡ symbol_in head.now.symbol_bytes self.now.bytes.items number }
    {
        let size = head.bytes() as usize;
        let at = usize::from(number) * size;
        &self.bytes[at..at + size]
    }
}

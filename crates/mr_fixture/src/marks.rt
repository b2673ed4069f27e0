//! Numbers that workers set and see.

use std::sync::atomic::AtomicU64;
use std::sync::atomic::Ordering::SeqCst;

/// A number that workers set and see.
pub struct Mark(AtomicU64);

impl Mark {
    /// The mark with this number.
    pub fn new(number: u64) -> Mark {
        Mark(AtomicU64::new(number))
    }

    /// Sets the number.
    pub fn set(&self, number: u64) {
        self.0.store(number, SeqCst);
    }

    /// The number.
    pub fn get(&self) -> u64 {
        self.0.load(SeqCst)
    }
}

impl Drop for Mark {
    fn drop(self) {
        let Self(_) = self;
    }
}

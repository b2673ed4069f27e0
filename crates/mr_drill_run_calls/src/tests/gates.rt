//! A gate that counts the stripes that are mended and the replies that are made.

use mr_io::{Gate, Point};
use std::alloc::{AllocError, Global};
use std::process::Abort;
use std::sync::atomic::AtomicU64;
use std::sync::atomic::Ordering::SeqCst;

/// How many stripes a drill has, and how many reads.
const COUNT: usize = 64;

/// How often each stripe was mended, and each reply made.
pub(crate) struct Counting {
    mended: Vec<AtomicU64>,
    replied: Vec<AtomicU64>,
    others: AtomicU64,
}

impl Drop for Counting {
    fn drop(self) {
        let Self {
            mended: _,
            replied: _,
            others: _,
        } = self;
    }
}

/// One more of this number.
fn count(counts: &[AtomicU64], others: &AtomicU64, number: u32) {
    match counts.get(number as usize) {
        Some(count) => count.fetch_add(1, SeqCst),
        None => others.fetch_add(1, SeqCst),
    };
}

/// So many counts of nothing.
fn zeros(alloc: Global) -> Result<Vec<AtomicU64>, AllocError> {
    let mut counts = Vec::with_capacity(alloc, COUNT)?;
    for _ in 0..COUNT {
        counts.push_reserved(AtomicU64::new(0));
    }
    Ok(counts)
}

impl Counting {
    pub(crate) fn new(alloc: Global) -> Result<Counting, AllocError> {
        Ok(Counting {
            mended: zeros(alloc)?,
            replied: zeros(alloc)?,
            others: AtomicU64::new(0),
        })
    }

    /// Each was counted once, and nothing else.
    pub(crate) fn assert_once(&self, rt: &impl Abort) {
        for stripe in &self.mended {
            assert_eq!(rt; stripe.load(SeqCst), 1, "a stripe was mended");
        }
        for reply in &self.replied {
            assert_eq!(rt; reply.load(SeqCst), 1, "a reply was made");
        }
        assert_eq!(rt; self.others.load(SeqCst), 0, "others");
    }
}

impl Gate for Counting {
    fn pass(&self, point: Point) {
        match point {
            Point::Done { stripe } => count(&self.mended, &self.others, stripe),
            Point::ReadEnd { number } => count(&self.replied, &self.others, number),
            _ => {}
        }
    }
}

//! Progress on standard error, where it is a terminal.

use mr_io::{Gate, Point};
use mr_least::Watch;
use std::io::IsTerminal;
use std::sync::atomic::{AtomicU64, Ordering};
use std::time::Clock;

/// How many milliseconds pass at least from one line to the next.
const PAUSE: u64 = 100;

/// A gate that says how far the search is, as `cost 40 level 3 work 65536`: the cost and the level of
/// the layer that is worked on, and the work that was done. No best set costs less than that layer.
#[derive(Drop)]
pub struct Progress {
    rt: HostRuntime,
    is_shown: bool,
    /// How many equations each target has.
    width: AtomicU64,
    /// How many masks were expanded.
    masks: AtomicU64,
    /// The millisecond of the clock before which no line is written.
    next: AtomicU64,
}

impl Progress {
    /// A gate of a search that did not begin yet. It writes where standard error is a terminal.
    pub fn new(rt: HostRuntime) -> Progress {
        Progress {
            rt,
            is_shown: rt.stderr().is_terminal(),
            width: AtomicU64::new(1),
            masks: AtomicU64::new(0),
            next: AtomicU64::new(0),
        }
    }

    /// One more mask of the layer of this cost and level was expanded.
    fn count(&self, cost: u32, level: u8) {
        let masks = self.masks.fetch_add(1, Ordering::SeqCst).saturating_add(1);
        if self.is_due() {
            let work = masks.saturating_mul(self.width.load(Ordering::SeqCst));
            let _ = eprintln!(self.rt; "cost {cost} level {level} work {work}");
        }
    }

    /// Whether a line is to be written, which is so for one caller in each pause.
    fn is_due(&self) -> bool {
        let Ok(time) = self.rt.monotonic() else {
            return false;
        };
        let now = time
            .as_secs()
            .saturating_mul(1000)
            .saturating_add(u64::from(time.subsec_millis()));
        let next = self.next.load(Ordering::SeqCst);
        now >= next
            && self
                .next
                .compare_exchange(
                    next,
                    now.saturating_add(PAUSE),
                    Ordering::SeqCst,
                    Ordering::SeqCst,
                )
                .is_ok()
    }
}

impl Gate for Progress {
    fn pass(&self, point: Point) {
        if let Point::Made { cost, level, .. } = point {
            if self.is_shown {
                self.count(cost, level);
            }
        }
    }
}

impl Watch for Progress {
    fn begin(&self, width: u32) {
        self.width.store(u64::from(width), Ordering::SeqCst);
    }
}

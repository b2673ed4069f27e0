//! The bytes taken, by duty.

ghost use Rattle.std.specs.Prelude.{◌≡◌};
ghost use Rattle.mr_io.specs.TotalsBy.{total_of, totals_with};

use crate::counts::add_count;
use crate::duty::Duty;

/// The bytes taken by eyes that were retired, a number for each duty. Each stops at 2^64 - 1.
#[derive(Clone, Copy, Debug, PartialEq, Eq)]
pub struct Totals {
    pub text: u64,
    pub head: u64,
    pub mend: u64,
    pub live: u64,
    pub copy: u64,
}

impl Totals {
    /// No bytes of any duty.
    pub const NONE: Totals = Totals {
        text: 0,
        head: 0,
        mend: 0,
        live: 0,
        copy: 0,
    };

    /// The total of a duty.
    pub fn of(self, duty: Duty) -> u64
        ensures { result ≡ total_of self duty }
    {
        match duty {
            Duty::Text => self.text,
            Duty::Head => self.head,
            Duty::Mend => self.mend,
            Duty::Live => self.live,
            Duty::Copy => self.copy,
        }
    }

    /// The totals after `bytes` more of a duty.
    pub fn with(self, duty: Duty, bytes: u64) -> Totals
        ensures { result ≡ totals_with self duty bytes }
    {
        let mut totals = self;
        match duty {
            Duty::Text => totals.text = add_count(self.text, bytes),
            Duty::Head => totals.head = add_count(self.head, bytes),
            Duty::Mend => totals.mend = add_count(self.mend, bytes),
            Duty::Live => totals.live = add_count(self.live, bytes),
            Duty::Copy => totals.copy = add_count(self.copy, bytes),
        }
        totals
    }
}

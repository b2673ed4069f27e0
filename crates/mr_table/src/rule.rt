//! The rule of the queue of jobs, and what each kind of step tells its pass.
ghost use Rattle.mr_table.specs.Rule.{Kept, first_view, Pushed, Took, LeavesWith, kept_view, split_view, joined_view, spent_view};

use crate::view::JobView;
use crossbeam_queue::protocol::{Join, Lesson, Outcome, Protocol, Split};

/// The rule that each step keeps.
pub struct JobRule;

impl Protocol<u32, JobView> for JobRule {
    ghost holds = { Kept };

    ghost first = { first_view 0 };
}

/// A push of the number of the next job, by a pass that has all parts.
pub(crate) struct Push;

impl Outcome<u32, JobView> for Push {
    ghost then = { Pushed };
}

/// A pop. It finds a job that no pass took before, or no job.
pub(crate) struct Take;

impl Outcome<u32, JobView> for Take {
    ghost then = { Took };
}

impl Lesson<u32, JobView> for Take {
    ghost fact = { LeavesWith };
}

/// A split of a pass.
pub(crate) struct Cut;

impl Split<JobView> for Cut {
    ghost left = { kept_view };

    ghost right = { split_view };
}

/// A join of two passes.
pub(crate) struct Union;

impl Join<JobView> for Union {
    ghost both = { joined_view };

    ghost spent = { spent_view };
}

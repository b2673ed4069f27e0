ghost use Rattle.std.specs.Prelude.{◌≡◌, ◌<◌, IfOk, OnOk, IfSome, IfNone, MatchResult};
ghost use Rattle.crossbeam_queue.specs.SegTies.{IsSegPassOf};
ghost use Rattle.mr_counts.specs.Numbers.{AreEachBelow};
ghost use Rattle.mr_table.specs.Rule.{first_view, pushed_view, kept_view, split_view, joined_view, IsWhole, Took};
ghost use Rattle.mr_table.specs.Passes.{pass_view, count_of, IsPassOf};

use crate::pass::JobPass;
use crate::rule::{Cut, JobRule, Push, Take, Union};
use crate::view::JobView;
use crossbeam_queue::RuledSegQueue;
use mr_bits::NoMemory;
use std::alloc::Global;
use std::sync::Wait;

/// Jobs that wait in a queue, by number. Each is taken once.
///
/// They are shared by `&`. Each thread takes jobs with a pass of its own; none of these calls takes
/// memory but `new`.
pub struct Jobs {
    pub(crate) queue: RuledSegQueue<u32, JobView, JobRule>,
    pub(crate) count: u32,
}

impl Drop for Jobs {
    fn drop(self) {
        let Self { queue, count: _ } = self;
        queue.destroy();
    }
}

impl Jobs {
    /// The jobs with the numbers below `count`, in order, and their first pass, from which 4,095
    /// others can be split off.
    pub fn new<R: Wait>(rt: &R, alloc: Global, count: u32) -> Result<(Jobs, JobPass), NoMemory>
        ensures count { IfOk result (λ made. count_of made.0 ≡ count) }
        ensures pass { IfOk result (λ made. IsPassOf made.0 made.1) }
        ensures view { IfOk result (λ made. pass_view made.1 ≡ first_view count) }
    {
        let (queue, seat) = RuledSegQueue::with_rule(alloc)?;
        let jobs = Jobs { queue, count };
        let mut pass = JobPass { seat };
        for number in 0..count {
            jobs.push(rt, &mut pass, number)?;
        }
        Ok((jobs, pass))
    }

    /// Pushes the next job.
    fn push<R: Wait>(&self, rt: &R, pass: &mut JobPass, number: u32) -> Result<(), NoMemory>
        requires pass { IsSegPassOf self.now.queue pass.old.seat }
        requires whole { IsWhole (pass_view pass.old) }
        requires number { (pass_view pass.old).pushed ≡ number }
        ensures pass { IsSegPassOf self.now.queue pass.new.seat }
        ensures pushed { OnOk result (pass_view pass.new ≡ pushed_view (pass_view pass.old)) }
    {
        self.queue
            .push_as::<Push, R>(rt, &mut pass.seat, number)
            .map_err(|_| NoMemory)
    }

    /// A pass for another thread. It has taken nothing, and none can be split off from it. Always
    /// `Ok`.
    pub fn split<R: Wait>(&self, _rt: &R, pass: &mut JobPass) -> Result<JobPass, NoMemory>
        requires pass { IsPassOf self.now pass.old }
        requires left { 0 < (pass_view pass.old).left }
        ensures pass { IsPassOf self.now pass.new }
        ensures kept { pass_view pass.new ≡ kept_view (pass_view pass.old) }
        ensures other { MatchResult result (λ other. IsPassOf self.now other
            × (pass_view other ≡ split_view (pass_view pass.old))) (λ _. ⊥) }
    {
        let seat = self.queue.another::<Cut>(&mut pass.seat);
        Ok(JobPass { seat })
    }

    /// The pass takes in what another knows.
    pub fn join<R: Wait>(&self, _rt: &R, pass: &mut JobPass, other: JobPass)
        requires pass { IsPassOf self.now pass.old }
        requires other { IsPassOf self.now other }
        ensures pass { IsPassOf self.now pass.new }
        ensures joined { pass_view pass.new ≡ joined_view (pass_view pass.old) (pass_view other) }
    {
        let JobPass { seat } = other;
        self.queue.absorb::<Union>(&mut pass.seat, seat);
    }

    /// The first job that waits, which no pass took before, or `None` where none waits. Where a
    /// pass that has all parts is answered `None`, it took each job once.
    pub fn take<R: Wait>(&self, rt: &R, pass: &mut JobPass) -> Option<u32>
        requires { IsPassOf self.now pass.old }
        ensures pass { IsPassOf self.now pass.new }
        ensures some { IfSome result (λ job. Took (pass_view pass.old) job (pass_view pass.new)) }
        ensures none { IfNone result (pass_view pass.new ≡ pass_view pass.old) }
        ensures each { IfNone result (IsWhole (pass_view pass.new)
            → AreEachBelow (pass_view pass.new).taken (count_of self.now)) }
    {
        self.queue.pop_as::<Take, R>(rt, &mut pass.seat)
    }
}

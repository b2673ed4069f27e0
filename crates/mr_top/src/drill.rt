//! The command `drill`.

ghost use Rattle.mr_steps.specs.Steps.{Gives, HasReadCauses, IsPastWords};
ghost use Rattle.mr_top.specs.Drill.{drill_given};
ghost use Rattle.mr_top.specs.Replies.{output_of};
ghost use Rattle.std.specs.Prelude.{ℕ};

use crate::reply::Reply;
use mr_drill_run::run_drill;
use mr_io::Gate;
use mr_kern::XorKernel;
use mr_steps::Fault;
use std::alloc::Global;
use std::thread::Threads;

/// The summary of the drill of this number. It uses no file and no script, and is refused for want of memory alone.
pub(crate) fn drill<T: Threads + Sync, G: Gate + Sync>(
    rt: &T,
    alloc: Global,
    gate: &G,
    kernel: &XorKernel,
    number: u32,
) -> Result<Reply, Fault>
    ensures given { Gives output_of result (drill_given number) }
    ensures cause { (files script : ℕ) → HasReadCauses files files script script result }
    ensures past_words { IsPastWords result }
{
    let summary = run_drill(rt, alloc, gate, kernel, number)?;
    Ok(Reply::Drill { summary })
}

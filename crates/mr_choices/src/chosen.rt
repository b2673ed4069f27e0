//! Plans with the lines that say how each was found.

ghost use Rattle.std.specs.Prelude.{◌≡◌, [], ◌∷◌, IfOk};

use mr_bits::NoMemory;
use mr_plan::{Plan, Plans};
use mr_steps::ChoiceLine;
use std::alloc::Global;

/// A plan, and how it was found.
#[derive(Drop)]
pub struct ChosenPlan {
    /// The plan.
    pub plan: Plan,
    /// The line of the report that says how.
    pub line: ChoiceLine,
}

/// The plans of all rotations in use, and how each was found.
#[derive(Drop)]
pub struct ChosenPlans {
    /// The plans, from rotation 0 on.
    pub plans: Plans,
    /// The lines of the report that say how, one for each plan in their order.
    pub lines: Vec<ChoiceLine>,
}

impl ChosenPlans {
    /// One plan for all stripes.
    pub fn of_one(alloc: Global, chosen: ChosenPlan) -> Result<ChosenPlans, NoMemory>
        ensures plans { IfOk result (λ made. made.plans ≡ chosen.plan ∷ []) }
        ensures lines { IfOk result (λ made. made.lines.items ≡ chosen.line ∷ []) }
    {
        let ChosenPlan { plan, line } = chosen;
        Ok(ChosenPlans {
            plans: Plans::new(vec![in alloc; plan]?),
            lines: vec![in alloc; line]?,
        })
    }
}

/// What a search goes by: the runtime whose threads it starts, the gate that they pass, the memory, the budget of each
/// search, and the number of its threads, from 1 to 64.
#[derive(Drop)]
pub struct Choosing<'a, T, G> {
    /// The runtime.
    pub rt: &'a T,
    /// The gate.
    pub gate: &'a G,
    /// The memory.
    pub alloc: Global,
    /// The most work of one search.
    pub budget: u32,
    /// How many threads one search has, from 1 to 64.
    pub workers: u32,
}

ghost use Rattle.std.specs.Prelude.{◌≡◌, Ok, All};
ghost use Rattle.mr_cache.specs.Planning.{plan_of_pattern};

use crate::errors::PlanError;
use crate::patterns::Pattern;
use crate::planning::make_plan;
use lru::LruCache;
use mr_bits::{Matrix, NoMemory};
use mr_plan::Plan;
use std::alloc::Global;
use std::num::NonZeroUsize;

/// The most plans that a cache may hold.
pub const MOST_PLANS: u32 = 64;

/// Whether a plan was there, or was made.
#[derive(Clone, Copy, PartialEq, Eq, Debug)]
pub enum Served {
    /// It was in the cache.
    Kept,
    /// It was made, and is in the cache now.
    Made,
}

/// The plans of patterns of one matrix within one budget, the most recently used first.
#[derive(Drop)]
pub struct PlanCache {
    matrix: Matrix,
    budget: u32,
    kept: LruCache<Pattern, Plan>,
    ghost right: { All (λ e. plan_of_pattern matrix budget e.0 ≡ Ok e.1) kept.entries },
}

impl PlanCache {
    ghost use Rattle.std.specs.Prelude.{◌≡◌, ◌^◌, ◌<◌, ◌≤◌, ℕ, [], length, IfOk, OnOk, slice_index_or};
    ghost use Rattle.mr_plan.specs.Plans.{PlanParts};
    ghost use Rattle.mr_cache.specs.declared.patterns.Pattern.{Pattern as APattern};
    ghost use Rattle.mr_cache.specs.declared.cache.TheConstants.{MOST_PLANS};
    ghost use Rattle.mr_cache.specs.Cache.{entries, HasInFront, IsCache, IsSameCache, Serves};

    /// A cache without plans, for at most `most` of them.
    pub fn new(
        alloc: Global,
        matrix: &Matrix,
        budget: u32,
        most: u32,
    ) -> Result<PlanCache, NoMemory>
        requires { (1 ≤ most) × (most ≤ MOST_PLANS) }
        ensures { IfOk result (IsCache matrix.now budget most []) }
    {
        let capacity = NonZeroUsize::new(most as usize).unwrap();
        Ok(PlanCache {
            matrix: *matrix,
            budget,
            kept: LruCache::new(alloc, capacity)?,
        })
    }

    /// Sees to it that the plan of the pattern stands in front, where it was kept or is made now.
    ///
    /// A plan that was kept moves to the front, and the others stay in their order. A plan that is made comes before all
    /// others, and a full cache lets go of the last. `Undetermined` names the least symbol of the pattern that the others
    /// do not determine, and `Memory` is want of memory for a plan that was not kept; after either the cache is as before.
    pub fn get(&mut self, alloc: Global, pattern: Pattern) -> Result<Served, PlanError>
        requires rotation { pattern.rotation < self.old.matrix.devices }
        requires lost { pattern.lost < 2 ^ length self.old.matrix.rows }
        ensures serves { Serves self.old pattern result (entries self.new) }
        ensures front { OnOk result (HasInFront self.new pattern) }
        ensures same { IsSameCache self.old self.new }
    {
        if self.kept.get(&pattern).is_some() {
            return Ok(Served::Kept);
        }
        let plan = make_plan(alloc, &self.matrix, self.budget, pattern)?;
        match self.kept.put(pattern, plan) {
            Ok(_) => Ok(Served::Made),
            Err(_) => Err(PlanError::Memory),
        }
    }

    /// The plan that stands in front.
    pub fn front(&self) -> &Plan
        requires { 0 < length (entries self.now) }
        ensures { (d : APattern × PlanParts) → result.now ≡ (slice_index_or (entries self.now) 0 d).1 }
    {
        let (_, plan) = self.kept.peek_mru().unwrap();
        plan
    }
}

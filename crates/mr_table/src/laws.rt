//! Laws of the rule of a queue of jobs, each as the contract of a function that does nothing else.
ghost use Rattle.std.specs.Prelude.{◌≡◌, ℕ, ◌<◌, List};
ghost use mathlib.Core.Option.{some};
ghost use lib.ListN.{get_elem?};
ghost use Rattle.mr_counts.specs.Shares.{whole_share};
ghost use Rattle.mr_table.specs.Rule.{IsKept, IsSpent, IsWhole, share_of};
ghost use Rattle.mr_table.specs.Laws.{AreTakenOnce, HaveAllParts};
ghost use Rattle.mr_table.specs.declared.view.JobView.{JobView};

/// Where the rule holds, all passes that are not spent know how many jobs were pushed.
pub fn passes_know_the_jobs()
    ensures { (pushed : ℕ) (items : List ℕ) (views : List JobView) → IsKept pushed items views
        → (id : ℕ) (v : JobView) → get_elem? views id ≡ some v → 0 < v.parts → v.pushed ≡ pushed }
{}

/// Where the rule holds and a pass has all parts, so that it may push, every other pass is spent.
pub fn a_whole_pass_is_alone()
    ensures { (pushed : ℕ) (items : List ℕ) (views : List JobView) → IsKept pushed items views
        → (id : ℕ) (v : JobView) → get_elem? views id ≡ some v → IsWhole v
        → (other : ℕ) (w : JobView) → (other ≡ id → ⊥) → get_elem? views other ≡ some w
        → IsSpent w }
{}

/// Where the rule holds, each job that was pushed is in the queue or was taken by one pass, once,
/// and no other number is there.
pub fn jobs_are_taken_once()
    ensures { (pushed : ℕ) (items : List ℕ) (views : List JobView) → IsKept pushed items views
        → AreTakenOnce pushed items views }
{}

/// Where the rule holds, the passes have all parts together, and each that is not spent has one at
/// least.
pub fn passes_have_all_parts()
    ensures { (pushed : ℕ) (items : List ℕ) (views : List JobView) → IsKept pushed items views
        → HaveAllParts views }
{}

//! A law of the rule of a bound, as the contract of a function that does nothing else.
ghost use Rattle.std.specs.Prelude.{ℕ, List};
ghost use Rattle.mr_counts.specs.Numbers.{AreShared};
ghost use Rattle.mr_eq.specs.Problems.{Loss};
ghost use Rattle.mr_bound.specs.Rule.{IsKept};
ghost use Rattle.mr_bound.specs.declared.view.BoundView.{BoundView};

/// Where the rule holds, the number of draws is how many numbers all seats drew, each number below
/// it was drawn by one seat, once, and no other number was drawn.
pub fn numbers_are_drawn_once()
    ensures { (p : Loss) (chunks cost drawn : ℕ) (views : List BoundView)
        → IsKept p chunks cost drawn views → AreShared (λ (v : BoundView). v.draws) views drawn }
{}

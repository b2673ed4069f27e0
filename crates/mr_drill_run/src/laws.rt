//! What is proved of the plan of a drill. A call does nothing: its contract is the law.

ghost use Rattle.std.specs.Prelude.{◌≡◌, ℕ};
ghost use Rattle.mr_choices.specs.Chosen.{choice_for, plan_by};
ghost use Rattle.mr_eq.specs.Laws.{IsFirstSmallest};
ghost use Rattle.mr_model.specs.Search.{chosen};
ghost use Rattle.mr_plan.specs.declared.kinds.Kind.{Kind};
ghost use Rattle.mr_steps.specs.Losses.{loss_of};
ghost use Rattle.mr_drill_run.specs.Drills.{drill_code, lost_symbols};

use crate::codes::code_of_drills;
use crate::running::BUDGET;

/// Whatever the number of a drill: its plan is least, so no set of survivors that determines the lost symbols costs less.
pub fn cost_is_least()
    ensures kind { (number : ℕ) → let lost = lost_symbols number in
        (plan_by drill_code lost (choice_for drill_code lost BUDGET)).kind ≡ Kind.Least }
    ensures least { (number : ℕ) → let lost = lost_symbols number in
        IsFirstSmallest (loss_of drill_code lost)
        (chosen (choice_for drill_code lost BUDGET)) }
{
    let code = code_of_drills();
    let _within_the_limits = code.shape();
}

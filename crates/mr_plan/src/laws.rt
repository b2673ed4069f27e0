//! What is proved of all plans and their texts. A call does nothing: its contract is the law.

ghost use Rattle.std.specs.Prelude.{◌≡◌, ℕ, List, Ok};
ghost use Rattle.mr_plan.specs.Plans.{PlanParts, IsPlan};
ghost use Rattle.mr_plan.specs.PlanText.{plan_text};
ghost use Rattle.mr_plan.specs.Readings.{read_plan};

/// Printing and reading are inverse: the text of a plan is read as that plan, what is read as a plan is the text of
/// that plan, and two plans with one text are one.
pub fn printing_and_reading_are_inverse()
    ensures read_back { (plan : PlanParts) → IsPlan plan → read_plan (plan_text plan) ≡ Ok plan }
    ensures plan { (bytes : List ℕ) (plan : PlanParts) → read_plan bytes ≡ Ok plan → IsPlan plan }
    ensures spelled { (bytes : List ℕ) (plan : PlanParts)
        → read_plan bytes ≡ Ok plan → bytes ≡ plan_text plan }
    ensures one_text { (p q : PlanParts) → IsPlan p → IsPlan q → plan_text p ≡ plan_text q → p ≡ q }
{}

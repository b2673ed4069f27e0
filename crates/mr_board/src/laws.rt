//! Laws of the rule of a board and of its right words, each as the contract of a function that does nothing
//! else.
ghost use Rattle.std.specs.Prelude.{ℕ, List};
ghost use Rattle.mr_counts.specs.Numbers.{AreShared};
ghost use Rattle.mr_image.specs.Images.{Layout, IsLayout};
ghost use Rattle.mr_plan.specs.Plans.{PlanParts};
ghost use Rattle.mr_plan.specs.PlanLists.{ArePlans};
ghost use Rattle.mr_board.specs.Terms.{BoardTerms};
ghost use Rattle.mr_board.specs.Rule.{IsKept, drawn};
ghost use Rattle.mr_board.specs.Laws.{DoneAreSeen, AreSettled, StandAtPlaces};
ghost use Rattle.mr_board.specs.declared.view.PassView.{PassView};

/// Where the rule holds, the number of draws is how many numbers all passes drew, each number below it was
/// drawn by one pass, once, and no other number was drawn.
pub fn numbers_are_drawn_once()
    ensures { (terms : BoardTerms) (words : List ℕ) (views : List PassView)
        → IsKept terms words views → AreShared (λ (v : PassView). v.draws) views (drawn words) }
{}

/// Where the rule holds, the words of a stripe that is done are right, and the pass that drew it saw it
/// done.
pub fn done_stripes_are_right_and_seen()
    ensures { (terms : BoardTerms) (words : List ℕ) (views : List PassView)
        → IsKept terms words views → DoneAreSeen terms words views }
{}

/// Where the rule holds, each stripe that a pass drew is one that it saw done, one that it gave up, or its
/// open stripe; and no stripe that was given up is done.
pub fn drawn_stripes_are_settled()
    ensures { (terms : BoardTerms) (words : List ℕ) (views : List PassView)
        → IsKept terms words views → AreSettled terms words views }
{}

/// Where an image is told, the right words are those of the lost symbols of the mended image: stripe by
/// stripe, in each level by level, eight bytes each.
pub fn right_words_stand_at_their_places()
    ensures { (l : Layout) (plans : List PlanParts) (bytes : List ℕ) → IsLayout l → ArePlans plans
        → StandAtPlaces l plans bytes }
{}

//! What is proved of surveys. A call does nothing: its contract is the law.

ghost use Rattle.mr_patch.specs.Damages.{DamageParts, IsDamage};
ghost use Rattle.mr_survey.specs.Surveys.{FindsFirst};

/// What a survey finds is the first stripe that is not determined, with its least symbol, and it finds none exactly where
/// all stripes are determined.
pub fn the_first_stripe_is_found()
    ensures { (d : DamageParts) → IsDamage d → FindsFirst d }
{}

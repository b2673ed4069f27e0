//! Laws of lists of numbers, each as the contract of a function that does nothing else.
ghost use Rattle.std.specs.Prelude.{◌≡◌, ◌↔◌, ◌<◌, ℕ, List, Contains, length};
ghost use Rattle.mr_counts.specs.Numbers.{AreEachBelow, AreShared, WeighAsBelow};

/// Where the items of lists weigh together what the numbers below a count weigh, however numbers
/// are weighed, there are as many items as that count, and each number below it stands in one of
/// the lists, once, and no other number does.
pub fn weighed_as_below_is_shared()
    ensures { (lists : List (List ℕ)) (n : ℕ) → WeighAsBelow (λ l. l) lists n
        → AreShared (λ l. l) lists n }
{}

/// Where each number below a count stands in a list once, and no other number does, the numbers
/// that the list contains are those below the count.
pub fn each_below_is_contained()
    ensures { (numbers : List ℕ) (n x : ℕ) → AreEachBelow numbers n
        → Contains numbers x ↔ (x < n) }
{}

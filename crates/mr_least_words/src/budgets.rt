//! Budgets of up to ten digits.

ghost use Rattle.std.specs.Prelude.{◌≡◌, ℕ, ◌≤◌, Some, IfSome, decimal};
ghost use Rattle.std.specs.Str.{bytes_eq};
ghost use Rattle.mr_least_words.specs.Budgets.{budget_number};

use itoa::Buffer;

/// The greatest budget, which is also the budget where none is given.
pub const GREATEST_BUDGET: u32 = 4_294_967_295;

/// The number from 0 to 4,294,967,295 that `text` is: None exactly where it is not what is printed of
/// such a number. No sign, no leading zero and no space is taken.
pub fn read_budget(text: &str) -> Option<u32>
    ensures value { result ≡ budget_number text.now }
    ensures spelled { (n : ℕ) → n ≤ GREATEST_BUDGET → text.now ≡ decimal n → result ≡ Some n }
    ensures read { IfSome result (λ n. (n ≤ GREATEST_BUDGET) × (text.now ≡ decimal n)) }
{
    match text.parse::<u32>() {
        Ok(number) if is_printed(number, text) => Some(number),
        _ => None,
    }
}

/// Whether the text is what is printed of the number.
fn is_printed(number: u32, text: &str) -> bool
    ensures { result ≡ bytes_eq (decimal number) text.now }
{
    let mut digits = Buffer::new();
    digits.format(number) == text
}

//! Numbers as the matrix texts, the scripts, the plan texts and the command line of
//! `minread` write them: `0`, or a digit 1 to 9 followed by at most eight digits. They
//! are printed by `itoa`, in std's word `decimal`. And the lines of these texts and
//! the words of a line, cut at the first byte.
#![tactic(auto)]

mod lines;

ghost use Rattle.std.specs.Prelude.{◌≡◌, ℕ, ◌≤◌, length, true, decimal, Some, IfSome};
ghost use Rattle.std.specs.Char.{is_ascii_digit};
ghost use Rattle.std.specs.List.{list_all};
ghost use Rattle.std.specs.Str.Parse.{digits_value};
ghost use Rattle.mr_text.specs.Numbers.{is_number, number_of, greatest_number};

pub use lines::split_at_byte;

/// The number that `text` is, from 0 to 999,999,999: None exactly where it is not `0` and not a
/// digit 1 to 9 followed by at most eight digits. No sign, no leading zero and no space is taken.
#[tactic(auto, unfolding(crate::specs::Numbers::number_of))]
pub fn read_number(text: &[u8]) -> Option<u32>
    ensures value { result ≡ number_of text.now }
    ensures spelled { (n : ℕ) → n ≤ greatest_number → text.now ≡ decimal n → result ≡ Some n }
    ensures read { IfSome result (λ n. (n ≤ greatest_number) × (text.now ≡ decimal n)) }
{
    if is_number_text(text) {
        Some(digits_number(text))
    } else {
        None
    }
}

#[tactic(auto, unfolding(crate::specs::Numbers::is_number))]
fn is_number_text(text: &[u8]) -> bool
    ensures { result ≡ is_number text.now }
{
    text == b"0".as_slice()
        || (!text.is_empty() && text.len() <= 9 && text[0] != b'0' && are_digits(text))
}

fn are_digits(text: &[u8]) -> bool
    ensures { result ≡ list_all is_ascii_digit text.now }
{
    text.iter().all(|byte| byte.is_ascii_digit())
}

fn digits_number(digits: &[u8]) -> u32
    requires few { length digits.now ≤ 9 }
    requires all_digits { list_all is_ascii_digit digits.now ≡ true }
    ensures { result ≡ digits_value 10 digits.now }
{
    let mut number = 0;
    for digit in digits {
        number = number * 10 + u32::from(*digit - b'0');
    }
    number
}

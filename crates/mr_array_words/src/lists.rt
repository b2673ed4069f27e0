//! How many devices a LOST word lists.

ghost use Rattle.std.specs.Prelude.{◌≡◌, ◌==◌, length};
ghost use Rattle.mr_words.specs.Lost.{lost_numbers};

use mr_text::read_number;

/// Whether the LOST word lists so many devices.
pub(crate) fn lists(word: &str, count: usize) -> bool
    ensures { result ≡ (length (lost_numbers word.now) == count) }
{
    let mut left = count;
    for part in word.split(',') {
        if read_number(part.as_bytes()).is_some() {
            if left == 0 {
                return false;
            }
            left -= 1;
        }
    }
    left == 0
}

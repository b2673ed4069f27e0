//! The LOST word: `none`, or the numbers of the lost devices, strictly upwards and joined by single commas.

ghost use Rattle.std.specs.Prelude.{◌≡◌, ◌≤◌};
ghost use Rattle.mr_words.specs.Lost.{are_upwards, devices_of, is_lost_word, lost_numbers};

use mr_bits::Mask;
use mr_text::read_number;

/// Whether the word is a LOST word.
#[tactic(auto, unfolding(crate::specs::Lost::is_lost_word))]
pub fn is_lost(word: &str) -> bool
    ensures { result ≡ is_lost_word word.now }
{
    word == "none" || are_upwards(word)
}

// Whether the word is numbers strictly upwards, joined by single commas.
fn are_upwards(word: &str) -> bool
    ensures { result ≡ are_upwards word.now }
{
    let mut least = 0;
    for part in word.split(',') {
        match read_number(part.as_bytes()) {
            Some(number) if least <= number => least = number + 1,
            _ => return false,
        }
    }
    true
}

/// The set of the devices that a LOST word names, where there are so many devices, at most 128; or the first of
/// its numbers that is `devices` or more. Takes no memory.
pub fn lost_devices(word: &str, devices: u32) -> Result<Mask, u32>
    requires { devices ≤ 128 }
    ensures { result ≡ devices_of devices (lost_numbers word.now) }
{
    let mut lost = Mask::EMPTY;
    for part in word.split(',') {
        if let Some(number) = read_number(part.as_bytes()) {
            if number >= devices {
                return Err(number);
            }
            lost = lost.with(number as u8);
        }
    }
    Ok(lost)
}

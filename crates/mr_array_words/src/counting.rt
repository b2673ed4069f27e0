//! How many words are places, before they are parsed.

ghost use Rattle.std.specs.Prelude.{◌≡◌, ◌≤◌, IfSome, drop, length, map, string_bytes};
ghost use Rattle.mr_array_words.specs.Counting.{count_between, is_place, places_from, turn_after};
ghost use Rattle.mr_array_words.specs.declared.counting.Turn.TheVariants.{Any};

/// The most devices: no matrix has more.
pub const DEVICE_LIMIT: usize = 128;

/// What the next word may be.
#[derive(Clone, Copy, Debug, Drop, PartialEq, Eq)]
pub(crate) enum Turn {
    /// A place, an option or `--`.
    Any,
    /// The value of the option before it.
    Value,
    /// A place, as `--` was met.
    Place,
}

/// How many devices the words have behind the first, which is the command, where `before` places stand before them:
/// None where these are fewer than `least` or more than 128. Of words that are not in the grammar the answer means
/// nothing.
pub(crate) fn device_count(words: &[String], before: usize, least: usize) -> Option<usize>
    requires before { before ≤ DEVICE_LIMIT }
    requires least { least ≤ DEVICE_LIMIT }
    ensures count { result ≡ count_between before least (places_from Any (drop 1 (map string_bytes words.now))) }
    ensures few { IfSome result (λ count. count ≤ DEVICE_LIMIT) }
{
    let places = places_behind(words);
    if before + least <= places && places <= before + DEVICE_LIMIT {
        Some(places - before)
    } else {
        None
    }
}

/// How many of the words behind the first are places.
#[tactic(auto, unfolding(crate::specs::Counting::places_from))]
fn places_behind(words: &[String]) -> usize
    ensures { result ≡ places_from Any (drop 1 (map string_bytes words.now)) }
{
    match words {
        [_command, rest @ ..] => count_places(rest),
        [] => 0,
    }
}

/// How many of the words are places, where they are in the grammar.
fn count_places(words: &[String]) -> usize
    ensures count { result ≡ places_from Any (map string_bytes words.now) }
    ensures few { result ≤ length words.now }
{
    let mut turn = Turn::Any;
    let mut count = 0;
    for word in words {
        if is_place(turn, word.as_bytes()) {
            count += 1;
        }
        turn = turn_after(turn, word.as_bytes());
    }
    count
}

fn is_place(turn: Turn, word: &[u8]) -> bool
    ensures { result ≡ is_place turn word.now }
{
    match turn {
        Turn::Any => word.len() < 2 || word[0] != b'-',
        Turn::Value => false,
        Turn::Place => true,
    }
}

fn turn_after(turn: Turn, word: &[u8]) -> Turn
    ensures { result ≡ turn_after turn word.now }
{
    match turn {
        Turn::Any => turn_behind(word),
        Turn::Value => Turn::Any,
        Turn::Place => Turn::Place,
    }
}

/// What the next word may be behind a word that is not a value.
fn turn_behind(word: &[u8]) -> Turn
    ensures { result ≡ turn_after Any word.now }
{
    match word {
        [b'-', b'-'] => Turn::Place,
        [b'-', b'-', name @ ..] if !name.contains(&b'=') => Turn::Value,
        _ => Turn::Any,
    }
}

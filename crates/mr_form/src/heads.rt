ghost use Rattle.std.specs.Prelude.{◌≡◌, ◌<◌, ◌∷◌, length, codes, MatchOption};
ghost use Rattle.std.specs.Str.{bytes_eq};
ghost use Rattle.mr_form.specs.MatrixText.{head_of, version_of, size_of, heading, words};

use mr_text::{read_number, split_at_byte};

/// The two forms of a matrix text.
#[derive(Clone, Copy)]
pub enum Version {
    /// Each device has the price 1.
    One,
    /// The prices stand on line 2.
    Two,
}

/// What the first line of a matrix text names: its version, the devices, the symbols per device
/// and the columns.
#[derive(Clone, Copy)]
pub struct Heading {
    pub version: Version,
    pub n: u32,
    pub w: u32,
    pub k: u32,
}

/// What the line `matrix V n w k` names, or None where it is no such line.
pub fn read_head(line: &[u8]) -> Option<Heading>
    ensures { result ≡ head_of line.now }
{
    let (name, version, n, w, k) = five_words(line)?;
    if is_matrix(name) {
        heading_from(
            read_version(version),
            read_size(n),
            read_size(w),
            read_size(k),
        )
    } else {
        None
    }
}

/// The first four words of a line, by single spaces, and what is left behind them, or None where
/// there is no fifth.
fn five_words(line: &[u8]) -> Option<(&[u8], &[u8], &[u8], &[u8], &[u8])>
    ensures { MatchOption result (length (words line.now) < 5)
        (λ w. words line.now ≡ w.0.now ∷ w.1.now ∷ w.2.now ∷ w.3.now ∷ words w.4.now) }
{
    let (first, rest) = split_at_byte(line, b' ')?;
    let (second, rest) = split_at_byte(rest, b' ')?;
    let (third, rest) = split_at_byte(rest, b' ')?;
    let (fourth, rest) = split_at_byte(rest, b' ')?;
    Some((first, second, third, fourth, rest))
}

/// Whether this word begins the head of a matrix text.
fn is_matrix(name: &[u8]) -> bool
    ensures { result ≡ bytes_eq name.now (codes "matrix") }
{
    name == b"matrix".as_slice()
}

/// The version that a word names.
fn read_version(word: &[u8]) -> Option<Version>
    ensures { result ≡ version_of word.now }
{
    if word == b"1".as_slice() {
        Some(Version::One)
    } else if word == b"2".as_slice() {
        Some(Version::Two)
    } else {
        None
    }
}

/// The version and all three sizes, or None where one is wanting.
fn heading_from(
    version: Option<Version>,
    n: Option<u32>,
    w: Option<u32>,
    k: Option<u32>,
) -> Option<Heading>
    ensures { result ≡ heading version n w k }
{
    match (version, n, w, k) {
        (Some(version), Some(n), Some(w), Some(k)) => Some(Heading { version, n, w, k }),
        _ => None,
    }
}

/// The number of at least 1 that a word spells.
fn read_size(word: &[u8]) -> Option<u32>
    ensures { result ≡ size_of word.now }
{
    let size = read_number(word)?;
    if size >= 1 { Some(size) } else { None }
}

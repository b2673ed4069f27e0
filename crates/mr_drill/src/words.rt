//! The generator of a drill, a linear congruential one of 64 bits, and the digest of bytes.

ghost use Rattle.std.specs.Prelude.{◌≡◌, ◌+◌, ◌*◌, ◌≤◌, ◌%◌, ◌/◌, length};
ghost use Rattle.mr_drill.specs.declared.words.TheConstants.{WORD};
ghost use Rattle.mr_drill.specs.Words.{after_words, bytes_drawn, digest_of, next_word, word_in};

use std::marker::Model;

/// What each word is multiplied by (Knuth's multiplier for 64 bits, as in MMIX).
pub const MULTIPLIER: u64 = 6_364_136_223_846_793_005;

/// What is added then.
pub const INCREMENT: u64 = 1_442_695_040_888_963_407;

/// The bytes of a word.
const WORD: usize = 8;

/// The generator of words: each word is made of the one before.
#[derive(Drop)]
pub struct Generator {
    last: u64,
}

impl Model for Generator {
    ghost use Rattle.std.specs.Prelude.{ℕ, ◌^◌, ◌<◌};
    ghost use Rattle.std.specs.Borrow.{ftrue};

    ghost Value = { ℕ };

    ghost view = { λ g. g.last };

    ghost invariant = { λ g. g.last < 2 ^ 64 };

    ghost inverse = { λ x. record { last = x } };
}

impl Generator {
    /// The generator of the drill of this number: it holds the number as its last word.
    pub fn new(number: u32) -> Generator
        ensures { result ≡ number }
    {
        Generator {
            last: u64::from(number),
        }
    }

    /// The next word.
    pub fn word(&mut self) -> u64
        ensures word { result ≡ next_word self.old }
        ensures last { self.new ≡ result }
    {
        self.last = self.last.wrapping_mul(MULTIPLIER).wrapping_add(INCREMENT);
        self.last
    }

    /// Fills these bytes, whose number is a multiple of 8, with the next words, the lowest byte of each first.
    pub fn fill(&mut self, bytes: &mut [u8])
        requires { length bytes.old % 8 ≡ 0 }
        ensures drawn { bytes.new ≡ bytes_drawn self.old (length bytes.old / 8) }
        ensures last { self.new ≡ after_words self.old (length bytes.old / 8) }
    {
        for number in 0..bytes.len() / WORD {
            let at = number * WORD;
            bytes[at..at + WORD].copy_from_slice(&self.word().to_le_bytes());
        }
    }
}

/// The digest of bytes whose number is a multiple of 8: from 0 on, what there is so far is multiplied, and the
/// next word is added.
pub fn digest(bytes: &[u8]) -> u64
    requires { length bytes.now % 8 ≡ 0 }
    ensures { result ≡ digest_of bytes.now }
{
    let mut digest: u64 = 0;
    for number in 0..bytes.len() / WORD {
        digest = digest
            .wrapping_mul(MULTIPLIER)
            .wrapping_add(word_at(bytes, number));
    }
    digest
}

/// The word of this number, the lowest byte first.
fn word_at(bytes: &[u8], number: usize) -> u64
    requires { number * WORD + WORD ≤ length bytes.now }
    ensures { result ≡ word_in bytes.now number }
{
    let at = number * WORD;
    let mut word = [0; WORD];
    word.copy_from_slice(&bytes[at..at + WORD]);
    u64::from_le_bytes(word)
}

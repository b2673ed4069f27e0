//! A text that contracts see as its characters.

ghost use Rattle.std.specs.Prelude.{◌≡◌, IfOk, bytes_eq, chars, encode_utf8_all, string_bytes};

use mr_bits::NoMemory;
use std::alloc::Global;
use std::marker::Model;

/// A text. Contracts see it as the list of its characters, each by its code.
#[derive(Debug, Drop)]
pub struct Text {
    string: String,
}

impl Model for Text {
    ghost use Rattle.std.specs.Prelude.{ℕ, List, chars, string_bytes};

    ghost Value = { List ℕ };

    ghost view = { λ text. chars (string_bytes text.string) };
}

impl Text {
    /// The text that a `String` holds. Takes no memory.
    pub fn of(text: String) -> Text
        ensures { result ≡ chars (string_bytes text) }
    {
        Text { string: text }
    }

    /// The text as a `&str`: its bytes are the UTF-8 of the characters.
    pub fn as_str(&self) -> &str
        ensures characters { chars result.now ≡ self.now }
        ensures bytes { result.now ≡ encode_utf8_all self.now }
    {
        self.string.as_str()
    }

    /// A copy of a text.
    pub fn copy_of(alloc: Global, text: &str) -> Result<Text, NoMemory>
        ensures { IfOk result (λ copy. copy ≡ chars text.now) }
    {
        Ok(Text::of(String::from_str(alloc, text)?))
    }

    /// Whether this is the text `other`.
    pub fn is(&self, other: &str) -> bool
        ensures { result ≡ bytes_eq self.now (chars other.now) }
    {
        self.string.as_str() == other
    }
}

impl PartialEq for Text {
    ghost use Rattle.std.specs.Prelude.{bytes_eq};
    ghost use Rattle.std.specs.Cmp.{partial_equiv_from_equiv};
    ghost use Rattle.std.proofs.lemmas.Cmp.{nat_list_eq_equiv};

    ghost eq = { bytes_eq };

    ghost laws = { partial_equiv_from_equiv nat_list_eq_equiv };

    fn eq(&self, other: &Text) -> bool {
        self.is(other.as_str())
    }
}

impl Eq for Text {
    ghost use Rattle.std.proofs.lemmas.Cmp.{nat_list_eq_equiv};

    ghost laws = { nat_list_eq_equiv };
}

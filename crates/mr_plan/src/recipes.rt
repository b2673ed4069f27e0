use mr_bits::Mask;
use std::marker::Model;

/// How a lost symbol is rebuilt: it is the XOR of its sources.
#[derive(Clone, Copy, Default, PartialEq, Eq, Debug)]
pub struct Recipe {
    symbol: u8,
    sources: Mask,
}

impl Model for Recipe {
    ghost use Rattle.mr_model.specs.Plans.{Recipe as RecipeOf};

    ghost Value = { RecipeOf };

    ghost view = { λ r. record { symbol = r.symbol; equation = r.sources } };

    ghost inverse = { λ r. record { symbol = r.symbol; sources = r.equation } };
}

impl Recipe {
    ghost use Rattle.std.specs.Prelude.{◌≡◌, ℕ};
    ghost use Rattle.mr_model.specs.Plans.{Recipe as RecipeOf};

    /// The recipe of `symbol` from `sources`.
    pub fn new(symbol: u8, sources: Mask) -> Recipe
        ensures { result ≡ record { symbol = symbol; equation = sources } }
    {
        Recipe { symbol, sources }
    }

    /// The symbol that is rebuilt.
    pub fn symbol(&self) -> u8
        ensures { result ≡ self.now.symbol }
    {
        self.symbol
    }

    /// The symbols whose XOR it is.
    pub fn sources(&self) -> Mask
        ensures { result ≡ self.now.equation }
    {
        self.sources
    }
}

ghost use Rattle.std.specs.Prelude.{◌≡◌, ◌↔◌, All, IsSome, IfSome};
ghost use Rattle.s10_core.specs.Letters.{IsCapital, AreCapitals, letters_of};

use crate::letter_pair::LetterPair;
use std::marker::Model;

/// A country code of two letters from A to Z, for example GB: the country whose post issued the
/// identifier (UPU S10).
///
/// Any two letters are accepted, assigned or not: this project's choice, see docs/IDENTIFIERS.md.
#[derive(Clone, Copy, Debug, PartialEq, Eq)]
pub struct Country {
    letters: LetterPair,
}

impl Model for Country {
    ghost use Rattle.std.specs.Prelude.{ℕ};

    ghost Value = { ℕ × ℕ };

    ghost view = { λ country. country.letters };

    ghost inverse = { λ pair. record { letters = pair } };
}

impl Country {
    /// Returns the country of these two ASCII characters, or `None` if one of them is not a capital
    /// letter.
    pub fn new(letters: [u8; 2]) -> Option<Country>
        ensures capitals { IsSome result ↔ All IsCapital letters }
        ensures letters { IfSome result (λ country. letters_of country ≡ letters) }
    {
        let letters = LetterPair::new(letters)?;
        Some(Country { letters })
    }

    /// Returns the two letters in ASCII, in order.
    pub fn bytes(&self) -> [u8; 2]
        ensures letters { result ≡ letters_of self.now }
        ensures capitals { AreCapitals self.now }
    {
        self.letters.bytes()
    }
}

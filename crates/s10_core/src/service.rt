ghost use Rattle.std.specs.Prelude.{◌≡◌, ◌↔◌, All, IsSome, IfSome};
ghost use Rattle.s10_core.specs.Letters.{IsCapital, AreCapitals, letters_of, group_of};

use crate::group::Group;
use crate::letter_pair::LetterPair;
use std::marker::Model;

/// A service indicator of two letters from A to Z, for example RA: the kind of item (UPU S10).
///
/// Any two letters are accepted, assigned or not: this project's choice, see docs/IDENTIFIERS.md.
#[derive(Clone, Copy, Debug, PartialEq, Eq)]
pub struct Service {
    letters: LetterPair,
}

impl Model for Service {
    ghost use Rattle.std.specs.Prelude.{ℕ};

    ghost Value = { ℕ × ℕ };

    ghost view = { λ service. service.letters };

    ghost inverse = { λ pair. record { letters = pair } };
}

impl Service {
    /// Returns the service of these two ASCII characters, or `None` if one of them is not a capital
    /// letter.
    pub fn new(letters: [u8; 2]) -> Option<Service>
        ensures capitals { IsSome result ↔ All IsCapital letters }
        ensures letters { IfSome result (λ service. letters_of service ≡ letters) }
    {
        let letters = LetterPair::new(letters)?;
        Some(Service { letters })
    }

    /// Returns the two letters in ASCII, in order.
    pub fn bytes(&self) -> [u8; 2]
        ensures letters { result ≡ letters_of self.now }
        ensures capitals { AreCapitals self.now }
    {
        self.letters.bytes()
    }

    /// Returns the group that the first letter names.
    pub fn group(&self) -> Group
        ensures { result ≡ group_of self.now.0 }
    {
        let [first, _] = self.bytes();
        match first {
            b'C' => Group::Parcel,
            b'E' => Group::Ems,
            b'R' => Group::Registered,
            b'V' => Group::Insured,
            _ => Group::Other,
        }
    }
}

//! Reads the parts of an identifier from texts.
ghost use Rattle.std.specs.Prelude.{◌≡◌, ◌↔◌, IsSome, IfSome};
ghost use Rattle.s10_core.specs.Letters.{letters_of};
ghost use Rattle.s10_jobs.specs.Lines.{AreTwoCapitals};

use s10_core::{Country, Service};

/// Reads a service indicator: exactly two capital letters.
pub fn read_service(text: &[u8]) -> Option<Service>
    ensures capitals { IsSome result ↔ AreTwoCapitals text.now }
    ensures letters { IfSome result (λ service. letters_of service ≡ text.now) }
{
    let [first, second] = text else {
        return None;
    };
    Service::new([*first, *second])
}

/// Reads a country code: exactly two capital letters.
pub fn read_country(text: &[u8]) -> Option<Country>
    ensures capitals { IsSome result ↔ AreTwoCapitals text.now }
    ensures letters { IfSome result (λ country. letters_of country ≡ text.now) }
{
    let [first, second] = text else {
        return None;
    };
    Country::new([*first, *second])
}

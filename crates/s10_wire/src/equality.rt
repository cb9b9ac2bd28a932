ghost use Rattle.std.specs.Prelude.{◌≡◌, ◌↔◌, IsTrue};

use crate::outcome::Outcome;
use crate::request::Request;

/// Returns whether two requests are equal in every field.
pub fn same_request(a: &Request, b: &Request) -> bool
    ensures { IsTrue result ↔ (a.now ≡ b.now) }
{
    *a == *b
}

/// Returns whether two outcomes are equal in every field.
pub fn same_outcome(outcome: &Outcome, other: &Outcome) -> bool
    ensures { IsTrue result ↔ (outcome.now ≡ other.now) }
{
    *outcome == *other
}

//! The state of an issuance.
ghost use Rattle.std.specs.Prelude.{◌≡◌};
ghost use Rattle.s10_reports.specs.States.{state_of};

use s10_history::{Issuance, Issue};

/// Returns the state of an issuance, by the last issue of its identifier.
pub(crate) fn state(issuance: &Issuance, last: &Option<Issue>) -> &'static [u8]
    ensures { result.now ≡ state_of issuance.now last.now }
{
    match last {
        Some(last) if last.customer == issuance.customer && last.number == issuance.number => {
            if last.voided { b"voided" } else { b"issued" }
        }
        _ => b"reissued",
    }
}

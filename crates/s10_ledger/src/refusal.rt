//! Why a ledger could not be created or opened.

use crate::faults::opening_fault;
use s10_rows::OpenFault;
use sqlite::Error;

/// Why a ledger could not be created or opened.
#[derive(Clone, Copy, Debug, PartialEq, Eq)]
pub struct Refusal {
    /// The fault.
    pub fault: OpenFault,
    /// The error of the statement that failed, if one did.
    pub cause: Option<Error>,
}

impl From<OpenFault> for Refusal {
    ghost use Rattle.std.specs.Prelude.{◌≡◌, None};
    ghost use Rattle.s10_ledger.specs.declared.refusal.Refusal.{Refusal};

    ghost from_gives = { λ fault refusal. (refusal.fault ≡ fault) × (refusal.cause ≡ None) };

    fn from(fault: OpenFault) -> Refusal {
        Refusal { fault, cause: None }
    }
}

impl From<Error> for Refusal {
    ghost use Rattle.std.specs.Prelude.{◌≡◌, Some};
    ghost use Rattle.s10_ledger.specs.Faults.{IsFaultOf};

    ghost from_gives = { λ error refusal. (refusal.cause ≡ Some error)
        × IsFaultOf error refusal.fault };

    fn from(error: Error) -> Refusal {
        Refusal {
            fault: opening_fault(error),
            cause: Some(error),
        }
    }
}

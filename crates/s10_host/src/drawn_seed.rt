//! The seed of the hashes of a job's ledger.

ghost use Rattle.std.specs.Prelude.{◌≡◌, Ok, IsErr, IfOk, IfErr};

use s10_ledger::{HashSeed, OpenFault};
use std::io;

/// Returns the seed that was drawn.
///
/// # Errors
///
/// `Store` if none could be drawn. The reason is printed to standard error.
pub(crate) fn drawn_seed(
    rt: &HostRuntime,
    drawn: io::Result<HashSeed>,
) -> Result<HashSeed, OpenFault>
    ensures ok { IfOk result (λ seed. drawn ≡ Ok seed) }
    ensures err { IfErr result (λ fault. (fault ≡ OpenFault.Store) × IsErr drawn) }
{
    match drawn {
        Ok(seed) => Ok(seed),
        Err(cause) => {
            let _ = eprintln!(rt; "cannot draw a seed: {cause}");
            Err(OpenFault::Store)
        }
    }
}

//! Reads the row of `head`.

ghost use Rattle.std.specs.Prelude.{◌≡◌, ◌≢◌, ℤ, pos, IfSome, IfNone, IfOk, IfErr};
ghost use Rattle.s10_history.specs.Settings.{Terms, AreTerms};
ghost use Rattle.s10_rows.specs.Tables.{Tables, head_row};
ghost use Rattle.s10_replay.specs.CheckedTables.{IsHead, IsRefusal};
ghost use Rattle.s10_replay.specs.FaultNames.{IsHeadFault};

use crate::column::number_in;
use s10_history::Settings;
use s10_rows::{HeadRow, OpenFault};

// Returns the settings of the row, regardless of its schema number. None if they are not in their
// limits.
fn settings_of(head: &HeadRow) -> Option<Settings>
    ensures some { IfSome result (λ t. AreTerms t
        × (head.now ≡ record (head_row t) { schema = head.now.schema })) }
    ensures none { IfNone result ((schema : ℤ) (t : Terms) → AreTerms t
        → ¬ (head.now ≡ record (head_row t) { schema = schema })) }
{
    if head.one != 1 {
        return None;
    }
    let interval = number_in(head.interval)?;
    let cap = number_in(head.cap)?;
    Settings::new(interval, cap)
}

/// Returns the settings in the rows of `head`.
///
/// # Errors
///
/// - `NotALedger` if there is not exactly one row, or its settings are not in their limits.
/// - `Schema` with the schema number if that is not 1.
pub fn settings_in(heads: &[HeadRow]) -> Result<Settings, OpenFault>
    ensures ok { IfOk result (IsHead heads.now (pos 1)) }
    ensures err { (tables : Tables) → tables.heads ≡ heads.now → IfErr result (IsRefusal tables) }
    ensures head_fault { IfErr result IsHeadFault }
{
    let [head] = heads else {
        return Err(OpenFault::NotALedger);
    };
    let Some(settings) = settings_of(head) else {
        return Err(OpenFault::NotALedger);
    };
    if head.schema != 1 {
        return Err(OpenFault::Schema(head.schema));
    }
    Ok(settings)
}

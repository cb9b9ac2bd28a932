//! Reads rows of `serials`.

ghost use Rattle.std.specs.Prelude.{◌≡◌, Bool, Some, IfSome};
ghost use Rattle.s10_history.specs.declared.issuance.Issuance.{Issuance};
ghost use Rattle.s10_rows.specs.Tables.{serial_row};
ghost use Rattle.s10_rows.specs.Selected.{IsIssuance, issue_in_row};
ghost use Rattle.s10_replay.specs.ReadRows.{IsRowOfIssue};

use crate::column::{flag_in, number_in};
use s10_history::Issue;
use s10_rows::SerialRow;

// Returns the issue that the row records. None if a column is out of its bounds.
pub(crate) fn issue_in(row: &SerialRow) -> Option<Issue>
    ensures read { IfSome result (IsRowOfIssue row.now) }
    ensures kept { (voided : Bool) (i : Issuance) → IsIssuance i → row.now ≡ serial_row voided i
        → result ≡ Some (issue_in_row voided i) }
{
    let day = number_in(row.day)?;
    let voided = flag_in(row.voided)?;
    let customer = number_in(row.customer)?;
    let number = number_in(row.number)?;
    Some(Issue {
        day,
        voided,
        customer,
        number,
    })
}

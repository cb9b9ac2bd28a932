//! Reads numbers from columns.

ghost use Rattle.std.specs.Prelude.{◌≡◌, ℕ, Bool, ◌<◌, ◌^◌, pos, Some, IfSome, IfNone};
ghost use Rattle.s10_rows.specs.Tables.{flag};

// Returns the value of a column as a number of 32 bits. None if it does not fit.
pub(crate) fn number_in(column: i64) -> Option<u32>
    ensures some { IfSome result (λ n. column ≡ pos n) }
    ensures none { IfNone result ((n : ℕ) → n < 2 ^ 32 → ¬ (column ≡ pos n)) }
    ensures kept { (n : ℕ) → n < 2 ^ 32 → column ≡ pos n → result ≡ Some n }
{
    u32::try_from(column).ok()
}

// Returns the value of a column of 0 and 1. None for any other number.
pub(crate) fn flag_in(column: i64) -> Option<bool>
    ensures some { IfSome result (λ b. column ≡ pos (flag b)) }
    ensures kept { (b : Bool) → column ≡ pos (flag b) → result ≡ Some b }
{
    match column {
        0 => Some(false),
        1 => Some(true),
        _ => None,
    }
}

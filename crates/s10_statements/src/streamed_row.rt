use sqlite::{Error, Row};

/// A typed row that is read while its query runs.
pub trait StreamedRow: Drop {
    ghost use Rattle.std.specs.Prelude.{IfOk};
    ghost use Rattle.sqlite_value.specs.Order.{Row};

    /// The typed row is that of a row of the result.
    ghost is_shown_as: { Self → Row → Type 0 };

    /// Reads a typed row.
    ///
    /// # Errors
    ///
    /// The error of the column if the row has another number of columns, or a value of another
    /// type; `OutOfMemory` if out of memory.
    fn read(row: &Row) -> Result<Self, Error>
        ensures { IfOk result (λ typed. is_shown_as typed row.now) };
}

use sqlite::{Error, Row};

/// A typed row that can be read from a row of a result.
pub trait FromRow: Copy {
    ghost use Rattle.std.specs.Prelude.{◌≡◌, IfOk};
    ghost use Rattle.sqlite_value.specs.Order.{Row};

    /// The row as SQL shows it.
    ghost shown: { Self → Row };

    /// Reads a typed row.
    ///
    /// # Errors
    ///
    /// The error of the column if the row has another number of columns, or a value of another
    /// type.
    fn from_row(row: &Row) -> Result<Self, Error>
        ensures { IfOk result (λ typed. shown typed ≡ row.now) };
}

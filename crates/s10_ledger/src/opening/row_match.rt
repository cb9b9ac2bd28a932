//! Compares the rows of a table with those of a book while they are read.

ghost use Rattle.std.specs.Prelude.{◌≡◌, ◌↔◌, ◌<◌, [], List, length, All, Contains, IfOk, IfSome};
ghost use Rattle.std.specs.Prelude.{IsTrue};
ghost use Rattle.std.specs.declared.cmp.Ordering.TheVariants.{Less};
ghost use Rattle.s10_replay.specs.Ascending.{IsAscending};

use crate::opening::derived_row::DerivedRow;
use s10_index::IndexedBook;
use s10_rows::OpenFault;
use s10_statements::RowSink;

/// Whether the rows of a table that it took are those of a book. No row is kept but the last one.
#[derive(Drop)]
pub(crate) struct RowMatch<'a, R> {
    /// The book, or why its calls are refused: nothing is compared then.
    made: &'a Result<IndexedBook, OpenFault>,
    /// Whether each row so far is one of the book's, and above the one before it.
    is_match: bool,
    /// How many rows of the book were not taken yet.
    left: usize,
    /// The last row.
    last: Option<R>,
}

// Returns whether the row is above the last one, if there is one.
fn is_above_last<R: DerivedRow>(last: &Option<R>, row: &R) -> bool
    ensures { IsTrue result ↔ IfSome last.now (λ l. R.cmp l row.now ≡ Less) }
{
    match last {
        None => true,
        Some(last) => row.is_above(last),
    }
}

impl<'a, R: DerivedRow> RowMatch<'a, R> {
    ghost use Rattle.s10_ledger.specs.RowMatch.{IsMatchOf};

    /// Compares with the rows of this book. It took no row.
    pub(crate) fn new(made: &'a Result<IndexedBook, OpenFault>) -> RowMatch<'a, R>
        ensures made { result.made.now ≡ made.now }
        ensures matched { IfOk made.now (λ book. IsMatchOf R.cmp
            (R.rows_of book.index.entries.items) [] result) }
    {
        let left = match made {
            Ok(book) => R::count_in(book),
            Err(_) => 0,
        };
        RowMatch {
            made,
            is_match: true,
            left,
            last: None,
        }
    }

    // Returns whether the rows still match with this row after them.
    fn is_next(&self, book: &IndexedBook, row: &R) -> bool
        ensures { IsTrue result ↔ (IsTrue self.now.is_match × (0 < self.now.left)
            × IfSome self.now.last (λ l. R.cmp l row.now ≡ Less)
            × Contains (R.rows_of book.now.index.entries.items) row.now) }
    {
        self.is_match && self.left > 0 && is_above_last(&self.last, row) && row.is_in(book)
    }

    /// Returns whether the rows are those of the book: each is one of these, above the one before
    /// it, and none is missing.
    pub(crate) fn is_complete(&self) -> bool
        ensures { (made rows : List R) → IsMatchOf R.cmp made rows self.now → IsTrue result
            ↔ (IsAscending (λ a b. R.cmp a b ≡ Less) rows × All (Contains made) rows
            × (length rows ≡ length made)) }
    {
        self.is_match && self.left == 0
    }
}

impl<R: DerivedRow> RowSink<R> for RowMatch<'_, R> {
    ghost use Rattle.std.specs.Prelude.{refl};
    ghost use Rattle.s10_ledger.specs.RowMatch.{HasTakenRows};

    ghost has_taken = { HasTakenRows R.rows_of R.cmp };

    ghost none = { λ start. record { made = refl; matched = λ book is none. none } };

    fn take(&mut self, row: R) {
        let Ok(book) = self.made else {
            return;
        };
        if self.is_next(book, &row) {
            self.left -= 1;
            self.last = Some(row);
        } else {
            self.is_match = false;
        }
    }
}

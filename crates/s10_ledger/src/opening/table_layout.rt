ghost use Rattle.std.specs.Prelude.{IfSome, IfNone};
ghost use Rattle.s10_ledger.specs.TableLayout.{IsOfTableLayout};
ghost use Rattle.s10_ledger.specs.Refusals.{HasSomeTableLayout};

use s10_schema::{is_closed_schema, is_old_schema};
use sqlite_schema::schema::Schema;

/// Which of a ledger's tables a database has.
#[derive(Clone, Copy, Debug, PartialEq, Eq)]
pub(crate) enum TableLayout {
    /// All five. Other tables may follow.
    Whole,
    /// The four of an earlier build, and nothing else.
    Old,
}

// Returns which of a ledger's tables are declared. None if they are not, or if another table or
// index has a part in them.
pub(crate) fn table_layout_of(schema: &Schema) -> Option<TableLayout>
    ensures some { IfSome result (λ form. IsOfTableLayout form schema.now) }
    ensures none { IfNone result (¬ HasSomeTableLayout schema.now) }
{
    if is_closed_schema(schema) {
        return Some(TableLayout::Whole);
    }
    if is_old_schema(schema) {
        return Some(TableLayout::Old);
    }
    None
}

//! Compares the declared tables with those of a ledger of an earlier build.

ghost use Rattle.std.specs.Prelude.{◌≡◌, ◌↔◌, IsTrue};
ghost use Rattle.s10_schema.specs.Schema.{no_schema, four_tables, others_in, IsLedgerSchema};

use crate::ledger_schema::is_ledger_schema;
use sqlite_schema::schema::Schema;

/// Returns whether the schema is the first four tables of a ledger and nothing else.
pub fn is_old_schema(schema: &Schema) -> bool
    ensures known { IsTrue result ↔ (schema.now ≡ four_tables) }
{
    is_ledger_schema(schema)
        && schema.tables.len() == 4
        && schema.indexes.len() == 2
        && schema.views.is_empty()
}

//! Compares the declared tables with the five of a ledger.

ghost use Rattle.std.specs.Prelude.{◌≡◌, not, ◌&&◌, ◌==◌, ◌↔◌, true, ◌∷◌, drop, codes, IsTrue};
ghost use Rattle.sqlite_schema.specs.Names.{same_name};
ghost use Rattle.s10_schema.specs.Schema.{closed_table, IsClosedSchema};
ghost use Rattle.s10_schema.specs.Schema as spec;

use crate::ledger_schema::{
    has_key, has_no_check, has_no_unique, is_bare, is_called, is_integer, is_ledger_schema,
};
use sqlite_schema::names::same_name;
use sqlite_schema::schema::{Column, Index, Reference, Schema, Table};

fn are_closed_columns(columns: &[Column]) -> bool
    ensures { IsTrue result ↔ (columns.now ≡ closed_table.columns) }
{
    let [num, arrival] = columns else {
        return false;
    };
    is_integer(num, b"num") && is_integer(arrival, b"arrival")
}

fn is_closed(table: &Table) -> bool
    ensures { IsTrue result ↔ (table.now ≡ closed_table) }
{
    is_called(table, b"closed", 6)
        && are_closed_columns(table.columns.as_slice())
        && has_key(table, Some(0), &[0])
        && has_no_unique(table)
        && has_no_check(table)
        && is_bare(table)
}

// Returns whether none of the foreign keys refers to `closed`.
fn refer_apart(references: &[Reference]) -> bool
    ensures { result ≡ spec.refer_apart_from_closed references.now }
{
    references
        .iter()
        .all(|r| !same_name(b"closed", r.parent.as_slice()))
}

fn is_apart(table: &Table) -> bool
    ensures apart { result ≡ (not (table.now.tree == 6) && spec.refer_apart_from_closed
        table.now.references) }
{
    table.tree != 6 && refer_apart(table.references.as_slice())
}

// Returns whether no table is `closed` or refers to it.
fn are_apart(tables: &[Table]) -> bool
    ensures { result ≡ spec.are_apart_from_closed tables.now }
{
    tables.iter().all(|t| is_apart(t))
}

// Returns whether no index is on `closed`.
fn index_apart(indexes: &[Index]) -> bool
    ensures { result ≡ spec.index_apart_from_closed indexes.now }
{
    indexes.iter().all(|i| i.table != 6)
}

// Returns whether the fifth table is `closed`, and no table after it refers to it.
fn has_closed(tables: &[Table]) -> bool
    ensures known { IsTrue result ↔ ((drop 4 tables.now ≡ closed_table ∷ drop 5 tables.now)
        × (spec.are_apart_from_closed (drop 5 tables.now) ≡ true)) }
{
    let [_, _, _, _, closed, others @ ..] = tables else {
        return false;
    };
    is_closed(closed) && are_apart(others)
}

/// Returns whether the schema begins with the five tables of a ledger and the two indexes. No other
/// table may refer to one of them, and no other index may be on one.
pub fn is_closed_schema(schema: &Schema) -> bool
    ensures known { IsTrue result ↔ IsClosedSchema schema.now }
{
    is_ledger_schema(schema)
        && has_closed(schema.tables.as_slice())
        && index_apart(schema.indexes.as_slice())
}

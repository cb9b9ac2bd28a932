//! Compares the declared tables with the first four of a ledger.

ghost use Rattle.std.specs.Prelude.{◌≡◌, not, ◌&&◌, ◌↔◌, ℕ, pos, true, [], ◌∷◌, drop, IsTrue};
ghost use Rattle.std.specs.Prelude.{IfSome, IfNone};
ghost use Rattle.sqlite_value.specs.declared.keys.Collation.TheVariants.{Binary};
ghost use Rattle.sqlite_value.specs.declared.value.Value.TheVariants.{Int};
ghost use Rattle.sqlite_sql.specs.declared.ops.BinaryOp.TheVariants.{Compare};
ghost use Rattle.sqlite_sql.specs.declared.ops.CompareOp.TheVariants.{Eq};
ghost use Rattle.sqlite_schema.specs.Code.{term_in};
ghost use Rattle.sqlite_value.specs.Keys.{plain};
ghost use Rattle.s10_schema.specs.Schema.{column_of, integer, one_is_one, head_table, calls_table};
ghost use Rattle.s10_schema.specs.Schema.{ranges_table, serials_table, calls_index, serials_index};
ghost use Rattle.s10_schema.specs.Schema.{IsLedgerSchema, IsBare, node_at};
ghost use Rattle.s10_schema.specs.Schema as spec;

use sqlite_items::{Items, at};
use sqlite_schema::code::{Op, Terms};
use sqlite_schema::names::same_name;
use sqlite_schema::schema::{Column, Index, Kind, Reference, Schema, Stamps, Table};
use sqlite_sql::ops::{BinaryOp, CompareOp};
use sqlite_value::keys::{Collation, Order};
use sqlite_value::value::Value;

fn is_column(column: &Column, name: &[u8], kind: Kind) -> bool
    ensures known { IsTrue result ↔ (column.now ≡ column_of name.now kind) }
{
    column.name.as_slice() == name
        && column.kind == kind
        && column.is_strict
        && column.not_null
        && matches!(column.default, Value::Null)
        && column.collation == Collation::Binary
}

pub(crate) fn is_integer(column: &Column, name: &[u8]) -> bool
    ensures { IsTrue result ↔ (column.now ≡ integer name.now) }
{
    is_column(column, name, Kind::Integer)
}

fn is_unstamped(stamps: &Stamps) -> bool
    ensures { IsTrue result ↔ (stamps.now ≡ record { places = []; terms = []; formats = [] }) }
{
    stamps.places.is_empty() && stamps.terms.roots.is_empty() && stamps.formats.is_empty()
}

// Returns whether the table has no rules but its keys and its checks.
pub(crate) fn is_bare(table: &Table) -> bool
    ensures { IsTrue result ↔ IsBare table.now }
{
    table.references.is_empty()
        && table.computed.is_empty()
        && is_unstamped(&table.stamps)
        && !table.is_counted
}

// Returns the indices of the two nodes that the node compares for equality. None for any other
// node.
fn compared(op: &Op) -> Option<(usize, usize)>
    ensures some { IfSome result (λ p. op.now ≡ Op.Binary (Compare Eq Binary) p.0 p.1) }
    ensures none { IfNone result ((a b : ℕ) → ¬ (op.now ≡ Op.Binary (Compare Eq Binary) a b)) }
{
    match op {
        Op::Binary(BinaryOp::Compare(CompareOp::Eq, Collation::Binary), a, b) => Some((*a, *b)),
        _ => None,
    }
}

fn is_key(op: &Op) -> bool
    ensures { IsTrue result ↔ (op.now ≡ Op.Column 1 0) }
{
    matches!(op, Op::Column(1, 0))
}

fn is_one(op: &Op) -> bool
    ensures { IsTrue result ↔ (op.now ≡ Op.Literal (Int (pos 1))) }
{
    matches!(op, Op::Literal(Value::Int(1)))
}

fn is_key_at(nodes: &[Op], place: usize) -> bool
    ensures { IsTrue result ↔ (node_at nodes.now place ≡ Op.Column 1 0) }
{
    let Some(op) = at(nodes, place) else {
        return false;
    };
    is_key(op)
}

fn is_one_at(nodes: &[Op], place: usize) -> bool
    ensures { IsTrue result ↔ (node_at nodes.now place ≡ Op.Literal (Int (pos 1))) }
{
    let Some(op) = at(nodes, place) else {
        return false;
    };
    is_one(op)
}

// Returns whether the node at the index is the root of `one = 1`.
fn is_key_one(nodes: &[Op], root: usize) -> bool
    ensures { IsTrue result ↔ (term_in nodes.now root ≡ one_is_one) }
{
    let Some(op) = at(nodes, root) else {
        return false;
    };
    let Some((key, one)) = compared(op) else {
        return false;
    };
    is_key_at(nodes, key) && is_one_at(nodes, one)
}

// Returns whether the terms are `one = 1` alone.
fn are_key_one(terms: &Terms) -> bool
    ensures { IsTrue result ↔ (terms.now ≡ one_is_one ∷ []) }
{
    let [root] = terms.roots.as_slice() else {
        return false;
    };
    is_key_one(terms.nodes.as_slice(), *root)
}

pub(crate) fn has_no_check(table: &Table) -> bool
    ensures { IsTrue result ↔ (table.now.checks ≡ []) }
{
    table.checks.roots.is_empty()
}

fn are_places(places: &Items<usize>, expected: &[usize]) -> bool
    ensures { IsTrue result ↔ (places.now ≡ expected.now) }
{
    places.as_slice() == expected
}

pub(crate) fn is_called(table: &Table, name: &[u8], tree: u32) -> bool
    ensures { IsTrue result ↔ ((table.now.name ≡ name.now) × (table.now.tree ≡ tree)) }
{
    table.name.as_slice() == name && table.tree == tree
}

pub(crate) fn has_key(table: &Table, key: Option<usize>, primary: &[usize]) -> bool
    ensures { IsTrue result ↔ ((table.now.key ≡ key) × (table.now.primary ≡ primary.now)) }
{
    table.key == key && are_places(&table.primary, primary)
}

// Returns whether no columns but the rowid are declared unique.
pub(crate) fn has_no_unique(table: &Table) -> bool
    ensures { IsTrue result ↔ ((table.now.uniques ≡ []) × (table.now.orders ≡ [])) }
{
    table.uniques.is_empty() && table.orders.is_empty()
}

fn is_one_list(lists: &[Items<usize>], expected: &[usize]) -> bool
    ensures { IsTrue result ↔ (lists.now ≡ expected.now ∷ []) }
{
    let [list] = lists else {
        return false;
    };
    are_places(list, expected)
}

fn is_plain_alone(orders: &[Order]) -> bool
    ensures { IsTrue result ↔ (orders.now ≡ plain ∷ []) }
{
    let [order] = orders else {
        return false;
    };
    *order == Order::PLAIN
}

// Returns whether the columns at the given positions, and no others but the rowid, are declared
// unique.
fn is_unique_at(table: &Table, expected: &[usize]) -> bool
    ensures { IsTrue result ↔ ((table.now.uniques ≡ expected.now ∷ [])
        × (table.now.orders ≡ plain ∷ [])) }
{
    is_one_list(table.uniques.as_slice(), expected) && is_plain_alone(table.orders.as_slice())
}

fn are_head_columns(columns: &[Column]) -> bool
    ensures { IsTrue result ↔ (columns.now ≡ head_table.columns) }
{
    let [one, schema, interval, cap] = columns else {
        return false;
    };
    is_integer(one, b"one")
        && is_integer(schema, b"schema")
        && is_integer(interval, b"interval")
        && is_integer(cap, b"cap")
}

fn are_calls_columns(columns: &[Column]) -> bool
    ensures { IsTrue result ↔ (columns.now ≡ calls_table.columns) }
{
    let [arrival, customer, number, day, reply] = columns else {
        return false;
    };
    is_integer(arrival, b"arrival")
        && is_integer(customer, b"customer")
        && is_integer(number, b"number")
        && is_integer(day, b"day")
        && is_column(reply, b"reply", Kind::Blob)
}

fn are_span_columns(columns: &[Column]) -> bool
    ensures { IsTrue result ↔ (columns.now ≡ drop 2 ranges_table.columns) }
{
    let [pair, low, high, mark] = columns else {
        return false;
    };
    is_integer(pair, b"pair")
        && is_integer(low, b"low")
        && is_integer(high, b"high")
        && is_integer(mark, b"mark")
}

fn are_ranges_columns(columns: &[Column]) -> bool
    ensures { IsTrue result ↔ (columns.now ≡ ranges_table.columns) }
{
    let [num, holder, span @ ..] = columns else {
        return false;
    };
    is_integer(num, b"num") && is_integer(holder, b"holder") && are_span_columns(span)
}

fn are_issue_columns(columns: &[Column]) -> bool
    ensures { IsTrue result ↔ (columns.now ≡ drop 4 serials_table.columns) }
{
    let [customer, number, voided] = columns else {
        return false;
    };
    is_integer(customer, b"customer")
        && is_integer(number, b"number")
        && is_integer(voided, b"voided")
}

fn are_serials_columns(columns: &[Column]) -> bool
    ensures { IsTrue result ↔ (columns.now ≡ serials_table.columns) }
{
    let [pair, serial, arrival, day, issue @ ..] = columns else {
        return false;
    };
    is_integer(pair, b"pair")
        && is_integer(serial, b"serial")
        && is_integer(arrival, b"arrival")
        && is_integer(day, b"day")
        && are_issue_columns(issue)
}

fn is_head(table: &Table) -> bool
    ensures { IsTrue result ↔ (table.now ≡ head_table) }
{
    is_called(table, b"head", 0)
        && are_head_columns(table.columns.as_slice())
        && has_key(table, Some(0), &[0])
        && has_no_unique(table)
        && are_key_one(&table.checks)
        && is_bare(table)
}

fn is_calls(table: &Table) -> bool
    ensures { IsTrue result ↔ (table.now ≡ calls_table) }
{
    is_called(table, b"calls", 1)
        && are_calls_columns(table.columns.as_slice())
        && has_key(table, Some(0), &[0])
        && is_unique_at(table, &[2, 3])
        && has_no_check(table)
        && is_bare(table)
}

fn is_ranges(table: &Table) -> bool
    ensures { IsTrue result ↔ (table.now ≡ ranges_table) }
{
    is_called(table, b"ranges", 3)
        && are_ranges_columns(table.columns.as_slice())
        && has_key(table, Some(0), &[0])
        && has_no_unique(table)
        && has_no_check(table)
        && is_bare(table)
}

fn is_serials(table: &Table) -> bool
    ensures { IsTrue result ↔ (table.now ≡ serials_table) }
{
    is_called(table, b"serials", 4)
        && are_serials_columns(table.columns.as_slice())
        && has_key(table, None, &[1, 2])
        && is_unique_at(table, &[1, 2])
        && has_no_check(table)
        && is_bare(table)
}

fn is_index(index: &Index, name: &[u8], tree: u32, table: u32, places: &[usize]) -> bool
    ensures { IsTrue result ↔ (index.now ≡ record {
      name = name.now;
      tree = tree;
      table = table;
      columns = places.now;
      order = plain;
      is_unique = true;
    }) }
{
    index.name.as_slice() == name
        && index.tree == tree
        && index.table == table
        && are_places(&index.columns, places)
        && index.order == Order::PLAIN
        && index.is_unique
}

// Returns whether the tree is that of one of the first four tables.
fn is_own_tree(tree: u32) -> bool
    ensures { result ≡ spec.is_own_tree tree }
{
    tree == 0 || tree == 1 || tree == 3 || tree == 4
}

// Returns whether the name is that of one of the first four tables, without regard to case.
fn is_own_name(name: &[u8]) -> bool
    ensures { result ≡ spec.is_own_name name.now }
{
    same_name(b"head", name)
        || same_name(b"calls", name)
        || same_name(b"ranges", name)
        || same_name(b"serials", name)
}

// Returns whether none of the foreign keys refers to one of the first four tables.
fn refer_apart(references: &[Reference]) -> bool
    ensures { result ≡ spec.refer_apart references.now }
{
    references.iter().all(|r| !is_own_name(r.parent.as_slice()))
}

fn is_apart(table: &Table) -> bool
    ensures apart { result ≡ (not (spec.is_own_tree table.now.tree) && spec.refer_apart
        table.now.references) }
{
    !is_own_tree(table.tree) && refer_apart(table.references.as_slice())
}

// Returns whether no table is one of the first four or refers to one of them.
fn are_apart(tables: &[Table]) -> bool
    ensures { result ≡ spec.are_apart tables.now }
{
    tables.iter().all(|t| is_apart(t))
}

// Returns whether no index is on one of the first four tables.
fn index_apart(indexes: &[Index]) -> bool
    ensures { result ≡ spec.index_apart indexes.now }
{
    indexes.iter().all(|i| !is_own_tree(i.table))
}

fn are_tables(tables: &[Table]) -> bool
    ensures known { IsTrue result
        ↔ ((tables.now ≡ head_table ∷ calls_table ∷ ranges_table ∷ serials_table
        ∷ drop 4 tables.now) × (spec.are_apart (drop 4 tables.now) ≡ true)) }
{
    let [head, calls, ranges, serials, others @ ..] = tables else {
        return false;
    };
    is_head(head)
        && is_calls(calls)
        && is_ranges(ranges)
        && is_serials(serials)
        && are_apart(others)
}

fn are_indexes(indexes: &[Index]) -> bool
    ensures known { IsTrue result
        ↔ ((indexes.now ≡ calls_index ∷ serials_index ∷ drop 2 indexes.now)
        × (spec.index_apart (drop 2 indexes.now) ≡ true)) }
{
    let [calls, serials, others @ ..] = indexes else {
        return false;
    };
    is_index(calls, b"sqlite_autoindex_calls_1", 2, 1, &[2, 3])
        && is_index(serials, b"sqlite_autoindex_serials_1", 5, 4, &[1, 2])
        && index_apart(others)
}

/// Returns whether the schema begins with the first four tables of a ledger and their two indexes.
/// No other table may refer to one of these, and no other index may be on one.
///
/// It does not look for `closed`: see `is_closed_schema` and `is_old_schema`.
pub fn is_ledger_schema(schema: &Schema) -> bool
    ensures { IsTrue result ↔ IsLedgerSchema schema.now }
{
    are_tables(schema.tables.as_slice()) && are_indexes(schema.indexes.as_slice())
}

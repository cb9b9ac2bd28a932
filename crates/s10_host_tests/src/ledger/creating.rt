//! Creation of a ledger, in an empty database only.

use crate::ledger::books::{Read, first_wrong_step_of, found_in};
use crate::ledger::calls::{closed, ledger, settings};
use crate::ledger::rows::{Shown, first_unshown};
use s10_history::Settings;
use s10_ledger::{HashSeed, NoObserver, OpenFault, Refusal, Refused, SqlBook};
use s10_test_help::expect::same;
use s10_test_help::steps::NINE_CALLS;
use sqlite::{Connection, MemStore};
use std::process::Abort;

const HEAD: Shown = (
    "SELECT one, schema, interval, cap FROM head",
    4,
    &[1, 1, 30, 100],
);

/// The one row of the head, and no row of the other tables.
const NEW: &'static [Shown] = &[
    HEAD,
    ("SELECT arrival FROM calls", 1, &[]),
    ("SELECT num FROM ranges", 1, &[]),
    ("SELECT serial FROM serials", 1, &[]),
    ("SELECT num FROM closed", 1, &[]),
];

/// The one row of the head, and the rows of the nine calls.
const NINE_KEPT: &'static [Shown] = &[
    HEAD,
    (
        "SELECT arrival FROM calls ORDER BY arrival",
        1,
        &[1, 2, 3, 4, 5, 6, 7, 8, 9],
    ),
    ("SELECT num FROM ranges", 1, &[1]),
    ("SELECT serial FROM serials ORDER BY serial", 1, &[0, 1, 2]),
    ("SELECT num FROM closed", 1, &[]),
];

/// No call and no range.
const NONE: &'static [Read] = &[Read::Entry(1, false), Read::Range(1, false)];

#[test]
fn a_new_ledger_has_its_settings_and_no_call(rt: HostRuntime) {
    let settings = settings(&rt, 100);
    let mut book = ledger(&rt, settings);
    let is_new = found_in(&mut book, &[], NONE) == (None, None, 0, 0, settings);
    let is_idle = book.connection().is_autocommit();
    let mut conn = closed(book);
    let unshown = first_unshown(rt.alloc(), &mut conn, NEW);
    let found = (is_new, is_idle, unshown);
    assert!(rt; same(&rt, &"new, idle, its rows", &found, &(true, true, Ok(None))));
}

/// Returns why a creation is refused, and the connection. Aborts if a ledger is created.
fn refusal<R: Abort + AllocGlobal>(
    rt: &R,
    conn: Connection<MemStore>,
    settings: Settings,
) -> (Refusal, Connection<MemStore>) {
    if !conn.is_autocommit() {
        panic!(rt; "in a transaction")
    }
    match SqlBook::create(
        rt.alloc(),
        HashSeed::fixed(),
        conn,
        settings,
        &mut NoObserver,
    ) {
        Ok(_) => panic!(rt; "made"),
        Err(
            Refused {
                refusal,
                connection,
            },
        ) => (refusal, connection),
    }
}

/// Returns the connection of a ledger of nine calls.
pub(crate) fn nine_kept<R: Abort + Eprint + AllocGlobal>(rt: &R) -> Connection<MemStore> {
    let (unlike, conn) = first_wrong_step_of(rt, 100, NINE_CALLS);
    assert!(rt; same(rt, &"nine calls", &unlike, &None));
    conn
}

#[test]
fn a_ledger_is_not_created_over_a_ledger(rt: HostRuntime) {
    let (refusal, mut conn) = refusal(&rt, nine_kept(&rt), settings(&rt, 50));
    let unshown = first_unshown(rt.alloc(), &mut conn, NINE_KEPT);
    let wanted = (Refusal::from(OpenFault::NotEmpty), Ok(None));
    assert!(rt; same(&rt, &"the refusal, its rows", &(refusal, unshown), &wanted));
}

/// Returns a database in which this statement was executed.
fn database_of<R: Abort + AllocGlobal>(rt: &R, text: &str) -> Connection<MemStore> {
    let Ok(mut conn) = Connection::open_in_memory(rt.alloc()) else {
        panic!(rt; "no connection")
    };
    if conn.execute(text, &[]).is_err() {
        panic!(rt; "{text}")
    }
    conn
}

/// A statement that creates a table, and the fault of a creation beside it.
const TABLES: &[(&str, OpenFault)] = &[
    (
        "CREATE TABLE head (one INTEGER) STRICT",
        OpenFault::NotEmpty,
    ),
    (
        "CREATE TABLE Calls (one INTEGER) STRICT",
        OpenFault::NotEmpty,
    ),
    (
        "CREATE TABLE ranges (one INTEGER) STRICT",
        OpenFault::NotEmpty,
    ),
    (
        "CREATE TABLE serials (one INTEGER) STRICT",
        OpenFault::NotEmpty,
    ),
    (
        "CREATE TABLE closed (one INTEGER) STRICT",
        OpenFault::NotEmpty,
    ),
    ("CREATE TABLE other (one INTEGER) STRICT", OpenFault::Store),
];

/// Returns why a creation is refused in a database in which this statement was executed, and the
/// number of tables and of views left.
fn refused_beside<R: Abort + AllocGlobal>(rt: &R, text: &str) -> (Refusal, usize, usize) {
    let (refusal, conn) = refusal(rt, database_of(rt, text), settings(rt, 100));
    let schema = conn.schema();
    (refusal, schema.tables.len(), schema.views.len())
}

#[test]
fn a_ledger_is_not_created_beside_other_tables(rt: HostRuntime) {
    for (text, fault) in TABLES {
        let wanted = (Refusal::from(*fault), 1, 0);
        assert!(rt; same(&rt, text, &refused_beside(&rt, text), &wanted));
    }
}

#[test]
fn a_ledger_is_not_created_beside_a_view(rt: HostRuntime) {
    let found = refused_beside(&rt, "CREATE VIEW one AS SELECT 1");
    assert!(rt;
        same(
            &rt,
            &"a view",
            &found,
            &(Refusal::from(OpenFault::Store), 0, 1)
        )
    );
}

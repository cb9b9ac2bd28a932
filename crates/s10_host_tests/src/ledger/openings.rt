//! Databases that open as ledgers, and those that do not.

use crate::ledger::tables::{
    CALLS_TABLE, CLOSED_TABLE, Change, Finding, HEAD, HEAD_TABLE, NINE_CALLS, NINE_FOUND,
    NO_LEDGER, RANGES_TABLE, SERIALS_TABLE, TABLES, are_found, changed, database, opening,
};
use s10_ledger::OpenFault;
use s10_test_help::expect::same;
use std::alloc::Global;
use std::process::Abort;

/// What is found in a ledger without calls.
const WHOLE: Finding = Ok((30, 100, 0, 0));

const OTHER_HEAD: &str = "INSERT INTO head (one, schema, interval, cap) VALUES (2, 1, 30, 100)";

/// How one table differs from that of a ledger, and the statements for the tables and the head.
const OTHERS: &[(&str, &[&str])] = &[
    (
        "a column of another type",
        &[
            HEAD_TABLE,
            "CREATE TABLE calls (arrival INTEGER NOT NULL PRIMARY KEY, customer INTEGER NOT NULL, number INTEGER NOT NULL, day TEXT NOT NULL, reply BLOB NOT NULL, UNIQUE (customer, number)) STRICT",
            RANGES_TABLE,
            SERIALS_TABLE,
            CLOSED_TABLE,
            HEAD,
        ],
    ),
    (
        "a column more",
        &[
            HEAD_TABLE,
            "CREATE TABLE calls (arrival INTEGER NOT NULL PRIMARY KEY, customer INTEGER NOT NULL, number INTEGER NOT NULL, day INTEGER NOT NULL, reply BLOB NOT NULL, note TEXT, UNIQUE (customer, number)) STRICT",
            RANGES_TABLE,
            SERIALS_TABLE,
            CLOSED_TABLE,
            HEAD,
        ],
    ),
    (
        "keys that may come twice",
        &[
            HEAD_TABLE,
            "CREATE TABLE calls (arrival INTEGER NOT NULL PRIMARY KEY, customer INTEGER NOT NULL, number INTEGER NOT NULL, day INTEGER NOT NULL, reply BLOB NOT NULL) STRICT",
            RANGES_TABLE,
            SERIALS_TABLE,
            CLOSED_TABLE,
            HEAD,
        ],
    ),
    (
        "a day that may be NULL",
        &[
            HEAD_TABLE,
            "CREATE TABLE calls (arrival INTEGER NOT NULL PRIMARY KEY, customer INTEGER NOT NULL, number INTEGER NOT NULL, day INTEGER, reply BLOB NOT NULL, UNIQUE (customer, number)) STRICT",
            RANGES_TABLE,
            SERIALS_TABLE,
            CLOSED_TABLE,
            HEAD,
        ],
    ),
    (
        "a head of more rows",
        &[
            "CREATE TABLE head (one INTEGER NOT NULL PRIMARY KEY, schema INTEGER NOT NULL, interval INTEGER NOT NULL, cap INTEGER NOT NULL) STRICT",
            CALLS_TABLE,
            RANGES_TABLE,
            SERIALS_TABLE,
            CLOSED_TABLE,
            HEAD,
        ],
    ),
    (
        "a head of another row",
        &[
            "CREATE TABLE head (one INTEGER NOT NULL PRIMARY KEY CHECK (one = 2), schema INTEGER NOT NULL, interval INTEGER NOT NULL, cap INTEGER NOT NULL) STRICT",
            CALLS_TABLE,
            RANGES_TABLE,
            SERIALS_TABLE,
            CLOSED_TABLE,
            OTHER_HEAD,
        ],
    ),
    (
        "a column with a default",
        &[
            HEAD_TABLE,
            CALLS_TABLE,
            "CREATE TABLE ranges (num INTEGER NOT NULL PRIMARY KEY, holder INTEGER NOT NULL, pair INTEGER NOT NULL, low INTEGER NOT NULL DEFAULT 0, high INTEGER NOT NULL, mark INTEGER NOT NULL) STRICT",
            SERIALS_TABLE,
            CLOSED_TABLE,
            HEAD,
        ],
    ),
    (
        "a table of another name",
        &[
            HEAD_TABLE,
            CALLS_TABLE,
            RANGES_TABLE,
            "CREATE TABLE other (pair INTEGER NOT NULL) STRICT",
            CLOSED_TABLE,
            HEAD,
        ],
    ),
    (
        "a table that is not there",
        &[
            HEAD_TABLE,
            CALLS_TABLE,
            RANGES_TABLE,
            "",
            CLOSED_TABLE,
            HEAD,
        ],
    ),
    (
        "a closed range whose withdrawal may be NULL",
        &[
            HEAD_TABLE,
            CALLS_TABLE,
            RANGES_TABLE,
            SERIALS_TABLE,
            "CREATE TABLE closed (num INTEGER NOT NULL PRIMARY KEY, arrival INTEGER) STRICT",
            HEAD,
        ],
    ),
    (
        "a closed range that may occur twice",
        &[
            HEAD_TABLE,
            CALLS_TABLE,
            RANGES_TABLE,
            SERIALS_TABLE,
            "CREATE TABLE closed (num INTEGER NOT NULL, arrival INTEGER NOT NULL) STRICT",
            HEAD,
        ],
    ),
];

#[test]
fn only_the_exact_schema_is_a_ledger(rt: HostRuntime) {
    are_found(&rt, &TABLES, &[(HEAD, WHOLE)]);
    for (name, texts) in OTHERS {
        assert!(rt; same(&rt, name, &opening(rt.alloc(), texts, ""), &Some(NO_LEDGER)));
    }
}

/// A statement that is executed after those for the tables of a ledger, and what is found.
const CASES: &[Change] = &[
    (HEAD, WHOLE),
    ("", NO_LEDGER),
    (
        "INSERT INTO head (one, schema, interval, cap) VALUES (1, 2, 30, 100)",
        Err(OpenFault::Schema(2)),
    ),
    (
        "INSERT INTO head (one, schema, interval, cap) VALUES (1, 1, 3651, 100)",
        NO_LEDGER,
    ),
    // A table of the office's own, its index, and a view.
    (
        "INSERT INTO head (one, schema, interval, cap) VALUES (1, 1, 30, 100); CREATE TABLE note (n INTEGER NOT NULL) STRICT; CREATE INDEX by_n ON note (n); CREATE VIEW late AS SELECT arrival FROM calls WHERE day > 20000",
        WHOLE,
    ),
    // A table of the office's own that refers to another of them, then tables that refer to a
    // ledger's.
    (
        "INSERT INTO head (one, schema, interval, cap) VALUES (1, 1, 30, 100); CREATE TABLE note (n INTEGER NOT NULL PRIMARY KEY) STRICT; CREATE TABLE page (n INTEGER NOT NULL REFERENCES note) STRICT",
        WHOLE,
    ),
    (
        "INSERT INTO head (one, schema, interval, cap) VALUES (1, 1, 30, 100); CREATE TABLE note (n INTEGER NOT NULL REFERENCES CALLS) STRICT",
        NO_LEDGER,
    ),
    (
        "INSERT INTO head (one, schema, interval, cap) VALUES (1, 1, 30, 100); CREATE TABLE note (n INTEGER NOT NULL REFERENCES Closed) STRICT",
        NO_LEDGER,
    ),
    (
        "INSERT INTO head (one, schema, interval, cap) VALUES (1, 1, 30, 100); CREATE INDEX by_day ON calls (day)",
        NO_LEDGER,
    ),
    (
        "INSERT INTO head (one, schema, interval, cap) VALUES (1, 1, 30, 100); CREATE INDEX by_arrival ON closed (arrival)",
        NO_LEDGER,
    ),
    // The table of closed ranges comes after one of the office's own.
    (
        "INSERT INTO head (one, schema, interval, cap) VALUES (1, 1, 30, 100); DROP TABLE closed; CREATE TABLE note (n INTEGER NOT NULL) STRICT; CREATE TABLE closed (num INTEGER NOT NULL PRIMARY KEY, arrival INTEGER NOT NULL) STRICT",
        NO_LEDGER,
    ),
    (
        "INSERT INTO head (one, schema, interval, cap) VALUES (1, 1, 30, 100); DROP TABLE serials",
        NO_LEDGER,
    ),
    (
        "INSERT INTO head (one, schema, interval, cap) VALUES (1, 1, 30, 100); DROP TABLE serials; CREATE TABLE serials (pair INTEGER NOT NULL, serial INTEGER NOT NULL, PRIMARY KEY (pair, serial)) STRICT",
        NO_LEDGER,
    ),
];

#[test]
fn other_databases_are_no_ledgers(rt: HostRuntime) {
    are_found(&rt, &TABLES, CASES);
    assert!(rt;
        same(
            &rt,
            &"no table",
            &opening(rt.alloc(), &[], ""),
            &Some(NO_LEDGER),
        )
    );
}

// Returns what is found in the nine calls after one change, and then after a second change.
fn found_twice(alloc: Global, first: &str, then: &str) -> Option<(Finding, Finding)> {
    let Ok(conn) = database(alloc, NINE_CALLS) else {
        return None;
    };
    let (at_first, conn) = changed(alloc, conn, first)?;
    let (again, _conn) = changed(alloc, conn, then)?;
    Some((at_first, again))
}

#[test]
fn nine_calls_are_found_by_each_opening(rt: HostRuntime) {
    let found = found_twice(rt.alloc(), "", "");
    assert!(rt; same(&rt, &"nine calls", &found, &Some((NINE_FOUND, NINE_FOUND))));
}

/// A damage, the call in which it is found, and the statement that repairs it.
const MENDED: &[(&str, u32, &str)] = &[
    (
        "UPDATE serials SET day = 20001 WHERE serial = 2",
        0,
        "UPDATE serials SET day = 20000 WHERE serial = 2",
    ),
    (
        "UPDATE ranges SET mark = 0",
        0,
        "UPDATE ranges SET mark = 2",
    ),
    (
        "UPDATE calls SET day = 19999 WHERE arrival = 6",
        6,
        "UPDATE calls SET day = 20000 WHERE arrival = 6",
    ),
    (
        "UPDATE calls SET arrival = 10 WHERE arrival = 2",
        2,
        "UPDATE calls SET arrival = 2 WHERE arrival = 10",
    ),
];

#[test]
fn damage_is_reported_and_changes_no_row(rt: HostRuntime) {
    for (damage, call, mend) in MENDED {
        let wanted = Some((Err(OpenFault::Damaged(*call)), NINE_FOUND));
        assert!(rt; same(&rt, damage, &found_twice(rt.alloc(), damage, mend), &wanted));
    }
}

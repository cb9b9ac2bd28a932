//! The rows that calls leave in the tables.

use crate::ledger::books::tables_after;
use crate::ledger::calls::LedgerSummary;
use crate::ledger::tables::{found, numbers, run_batches};
use s10_ledger::OpenFault;
use s10_test_help::answered::Answered::{Closed, Granted, NoSuchRange, NotThePost, Withdrawn};
use s10_test_help::asked::Asked::{Grant, Withdraw};
use s10_test_help::expect::same;
use s10_test_help::steps::{FIRST_DRAW, NINE_CALLS, OPENING, SIX_CALLS, Step};
use sqlite::{Connection, Error, MemStore};
use std::alloc::Global;
use std::process::Abort;

/// A query, the number of columns of its rows, and all numbers that it shows, row after row.
pub(crate) type Shown = (&'static str, usize, &'static [i64]);

/// Returns the index of the first query that shows other rows than these, if any.
///
/// # Errors
///
/// `Error` if a query fails.
pub(crate) fn first_unshown(
    alloc: Global,
    conn: &mut Connection<MemStore>,
    shown: &[Shown],
) -> Result<Option<usize>, Error> {
    for (place, (query, width, rows)) in shown.iter().enumerate() {
        if numbers(alloc, conn, query, *width)?.as_slice() != *rows {
            return Ok(Some(place));
        }
    }
    Ok(None)
}

/// What is left of a database: the result of an opening, and whether a second opening has the same
/// result. Then the number of tables, whether one is that of closed ranges, and the index of the
/// first query that shows other rows, if any.
pub(crate) type Left = (
    Result<LedgerSummary, OpenFault>,
    bool,
    (usize, bool),
    Result<Option<usize>, Error>,
);

/// All five tables of a ledger.
pub(crate) const COMPLETE: (usize, bool) = (5, true);

/// The four tables without that of closed ranges.
pub(crate) const INCOMPLETE: (usize, bool) = (4, false);

/// Opens a database and returns what is found, or `None` if it is in a transaction.
pub(crate) fn left(alloc: Global, conn: Connection<MemStore>, shown: &[Shown]) -> Option<Left> {
    let (answer, mut conn) = found(alloc, conn)?;
    let unshown = first_unshown(alloc, &mut conn, shown);
    let schema = conn.schema();
    let tables = (schema.tables.len(), schema.table_named(b"closed").is_some());
    let (again, _conn) = found(alloc, conn)?;
    Some((answer, again == answer, tables, unshown))
}

/// The same for a database after these changes.
///
/// # Errors
///
/// `Error` if there is no database, or a change fails.
pub(crate) fn tables_left(
    alloc: Global,
    conn: Result<Connection<MemStore>, Error>,
    changes: &[&str],
    shown: &[Shown],
) -> Result<Option<Left>, Error> {
    let mut conn = conn?;
    run_batches(&mut conn, changes)?;
    Ok(left(alloc, conn, shown))
}

/// Asserts that both books answer the steps, and that the tables then have these rows.
fn leave<R: Abort + Eprint + AllocGlobal>(rt: &R, name: &str, steps: &[Step], shown: &[Shown]) {
    let mut conn = tables_after(rt, name, steps);
    let unshown = first_unshown(rt.alloc(), &mut conn, shown);
    assert!(rt; same(rt, &name, &unshown, &Ok(None)));
}

const RA_GB: i64 = 1380009794;

const RANGES: &'static str = "SELECT num, holder, pair, low, high, mark FROM ranges ORDER BY num";

const SERIALS: &'static str =
    "SELECT pair, serial, arrival, day, customer, number, voided FROM serials ORDER BY pair, serial";

/// The query for the rows of closed ranges.
pub(crate) const CLOSED: &'static str = "SELECT num, arrival FROM closed ORDER BY num";

const SIX_ROWS: &'static [Shown] = &[
    (RANGES, 6, &[1, 7, RA_GB, 0, 2, 0]),
    (
        SERIALS,
        7,
        &[
            RA_GB, 0, 2, 20000, 7, 1, 0, //
            RA_GB, 1, 3, 20000, 7, 2, 1, //
            RA_GB, 2, 6, 20000, 7, 5, 0,
        ],
    ),
];

const NINE_ROWS: &'static [Shown] = &[
    (RANGES, 6, &[1, 7, RA_GB, 0, 2, 2]),
    (
        SERIALS,
        7,
        &[
            RA_GB, 0, 8, 20030, 7, 7, 0, //
            RA_GB, 1, 9, 20030, 7, 8, 0, //
            RA_GB, 2, 6, 20000, 7, 5, 0,
        ],
    ),
];

#[test]
fn each_serial_has_its_last_issue_and_the_range_its_next_serial(rt: HostRuntime) {
    leave(&rt, "six calls", SIX_CALLS, SIX_ROWS);
    leave(&rt, "nine calls", NINE_CALLS, NINE_ROWS);
}

const ONE_WITHDRAWN: &'static [Step] = &[
    OPENING,
    FIRST_DRAW,
    (0, 2, Withdraw(1), 20000, Withdrawn),
];

const ONE_WITHDRAWN_ROWS: &'static [Shown] = &[
    (RANGES, 6, &[1, 7, RA_GB, 0, 2, 1]),
    (SERIALS, 7, &[RA_GB, 0, 2, 20000, 7, 1, 0]),
    (CLOSED, 2, &[1, 3]),
];

const REFUSED: &'static [Step] = &[
    OPENING,
    (7, 1, Withdraw(1), 20000, NotThePost),
    (0, 2, Withdraw(2), 20000, NoSuchRange),
];

/// No range is closed.
pub(crate) const NONE_CLOSED: &'static [Shown] = &[(CLOSED, 2, &[])];

#[test]
fn a_closed_range_has_the_arrival_of_its_withdrawal(rt: HostRuntime) {
    leave(&rt, "withdrawn", ONE_WITHDRAWN, ONE_WITHDRAWN_ROWS);
    leave(&rt, "refused", REFUSED, NONE_CLOSED);
    leave(&rt, "nine calls", NINE_CALLS, NONE_CLOSED);
}

const BOTH_WITHDRAWN: &'static [Step] = &[
    OPENING,
    (0, 2, Grant(7, 4, 6), 20000, Granted(2)),
    (0, 3, Withdraw(2), 20000, Withdrawn),
    (0, 4, Withdraw(2), 20000, Closed),
    (0, 5, Withdraw(1), 20000, Withdrawn),
];

const BOTH_CLOSED: &'static [Shown] = &[(CLOSED, 2, &[1, 5, 2, 3])];

#[test]
fn closed_ranges_are_in_order_of_their_numbers(rt: HostRuntime) {
    leave(&rt, "both ranges", BOTH_WITHDRAWN, BOTH_CLOSED);
}

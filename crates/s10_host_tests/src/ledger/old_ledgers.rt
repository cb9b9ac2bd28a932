//! Ledgers of an earlier build, which had no table of closed ranges, with and without other tables.

use crate::ledger::books::first_wrong_step_in;
use crate::ledger::calls::{closed, whole};
use crate::ledger::creating::nine_kept;
use crate::ledger::rows::{
    CLOSED, COMPLETE, INCOMPLETE, Left, NONE_CLOSED, Shown, left, tables_left,
};
use crate::ledger::tables::{OLD_LEDGER, database};
use s10_ledger::{HashSeed, NoObserver, OpenFault, Refused, SqlBook};
use s10_test_help::answered::Answered::{Drawn, NoRange, Withdrawn};
use s10_test_help::asked::Asked::{Draw, Withdraw};
use s10_test_help::expect::same;
use s10_test_help::steps::{NINE_CALLS, Step};
use sqlite::{Connection, Error, MemStore};
use std::alloc::Global;
use std::process::Abort;

const DROP: &'static str = "DROP TABLE closed";

/// A table of the office's own, with one row.
const NOTE: &'static str =
    "CREATE TABLE note (n INTEGER NOT NULL) STRICT; INSERT INTO note (n) VALUES (5);";

/// Opens an old ledger after these changes, and returns what is left of it.
fn left_of_old(alloc: Global, changes: &[&str], shown: &[Shown]) -> Result<Option<Left>, Error> {
    tables_left(alloc, database(alloc, &OLD_LEDGER), changes, shown)
}

/// Opens a ledger of nine calls of this build after these changes, and returns what is left of it.
fn left_of_kept<R: Abort + Eprint + AllocGlobal>(
    rt: &R,
    changes: &[&str],
    shown: &[Shown],
) -> Result<Option<Left>, Error> {
    tables_left(rt.alloc(), Ok(nine_kept(rt)), changes, shown)
}

#[test]
fn a_ledger_without_closed_ranges_gets_their_table(rt: HostRuntime) {
    let of_this_build = left_of_kept(&rt, &[DROP], NONE_CLOSED);
    let of_an_earlier_one = left_of_old(rt.alloc(), &[], NONE_CLOSED);
    let wanted = Ok(Some((Ok(whole(9, 20030)), true, COMPLETE, Ok(None))));
    assert!(rt; same(&rt, &"of this build", &of_this_build, &wanted));
    assert!(rt; same(&rt, &"of an earlier one", &of_an_earlier_one, &wanted));
}

/// A damage, and the fault of an opening after it.
const DAMAGES: &[(&str, OpenFault)] = &[
    (
        "UPDATE serials SET day = 20001 WHERE serial = 2",
        OpenFault::Damaged(0),
    ),
    ("UPDATE ranges SET mark = 0", OpenFault::Damaged(0)),
    (
        "UPDATE calls SET day = 19999 WHERE arrival = 6",
        OpenFault::Damaged(6),
    ),
    ("UPDATE head SET schema = 2", OpenFault::Schema(2)),
    ("DELETE FROM head", OpenFault::NotALedger),
];

#[test]
fn a_damaged_ledger_gets_no_table_of_closed_ranges(rt: HostRuntime) {
    for (damage, fault) in DAMAGES {
        let found = left_of_kept(&rt, &[DROP, damage], &[]);
        let wanted = (Err(*fault), true, INCOMPLETE, Ok(None));
        assert!(rt; same(&rt, damage, &found, &Ok(Some(wanted))));
    }
}

/// Opens the ledger in a connection and executes these steps. Returns the connection, or `None` if
/// it does not open.
fn served<R: Abort + Eprint + AllocGlobal>(
    rt: &R,
    conn: Connection<MemStore>,
    steps: &[Step],
) -> Option<Connection<MemStore>> {
    if !conn.is_autocommit() {
        return None;
    }
    match SqlBook::open(rt.alloc(), HashSeed::fixed(), conn, &mut NoObserver) {
        Ok(mut book) => {
            let unlike = first_wrong_step_in(&mut book, steps);
            let conn = closed(book);
            assert!(rt; same(rt, &"served on", &unlike, &None));
            Some(conn)
        }
        Err(
            Refused {
                refusal: _,
                connection: _,
            },
        ) => None,
    }
}

/// After the nine calls: a Draw, a withdrawal and a Draw, then repeats of the first two.
const LATER_CALLS: &'static [Step] = &[
    (7, 9, Draw, 20030, Drawn(20030, 2)),
    (0, 2, Withdraw(1), 20031, Withdrawn),
    (7, 10, Draw, 20031, NoRange),
    (7, 9, Draw, 20031, Drawn(20030, 2)),
    (0, 2, Withdraw(1), 20031, Withdrawn),
];

const ONE_CLOSED: &'static [Shown] = &[(CLOSED, 2, &[1, 11])];

/// Returns what is left of an old ledger that repeats the nine calls and executes later ones.
fn left_of_served<R: Abort + Eprint + AllocGlobal>(rt: &R) -> Option<Left> {
    let conn = database(rt.alloc(), &OLD_LEDGER).ok()?;
    let conn = served(rt, conn, NINE_CALLS)?;
    let conn = served(rt, conn, LATER_CALLS)?;
    left(rt.alloc(), conn, ONE_CLOSED)
}

#[test]
fn a_ledger_of_an_earlier_build_is_completed_and_served(rt: HostRuntime) {
    let wanted = (Ok(whole(12, 20031)), true, COMPLETE, Ok(None));
    assert!(rt; same(&rt, &"served on", &left_of_served(&rt), &Some(wanted)));
}

/// The office's table has its row.
const NOTE_ALONE: &'static [Shown] = &[("SELECT n FROM note", 1, &[5])];

/// Returns what is left of a ledger of nine calls beside a table of the office, after later calls.
fn left_beside_note<R: Abort + Eprint + AllocGlobal>(rt: &R) -> Option<Left> {
    let mut conn = nine_kept(rt);
    conn.execute_batch(NOTE).ok()?;
    let conn = served(rt, conn, LATER_CALLS)?;
    left(rt.alloc(), conn, NOTE_ALONE)
}

#[test]
fn a_ledger_is_served_beside_a_table_of_the_office(rt: HostRuntime) {
    let wanted = (Ok(whole(12, 20031)), true, (6, true), Ok(None));
    assert!(rt;
        same(
            &rt,
            &"beside a table",
            &left_beside_note(&rt),
            &Some(wanted),
        )
    );
}

const NOTE_AND_CALLS: &'static [Shown] = &[
    ("SELECT n FROM note", 1, &[5]),
    ("SELECT count(*) FROM calls", 1, &[9]),
];

/// A statement that adds something to an old ledger's database, the rows that are left, and the
/// tables.
const BESIDE: &[(&str, &'static [Shown], (usize, bool))] = &[
    (NOTE, NOTE_AND_CALLS, (5, false)),
    (
        "CREATE VIEW late AS SELECT arrival FROM calls WHERE day > 20000",
        &[],
        INCOMPLETE,
    ),
    ("CREATE INDEX by_day ON calls (day)", &[], INCOMPLETE),
];

#[test]
fn an_old_ledger_beside_a_table_of_the_office_is_refused_and_unchanged(rt: HostRuntime) {
    for (beside, shown, tables) in BESIDE {
        let found = left_of_old(rt.alloc(), &[beside], shown);
        let wanted = (Err(OpenFault::NotALedger), true, *tables, Ok(None));
        assert!(rt; same(&rt, beside, &found, &Ok(Some(wanted))));
    }
}

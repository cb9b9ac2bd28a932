//! A ledger with a closed range, created by statements, and what an opening finds if its table of
//! closed ranges is damaged.

use crate::ledger::books::tables_after;
use crate::ledger::calls::whole;
use crate::ledger::rows::{COMPLETE, INCOMPLETE, Left, tables_left};
use crate::ledger::tables::{HEAD, NINE_CALLS, TABLES, database, run_batches};
use s10_ledger::OpenFault;
use s10_test_help::answered::Answered::{Granted, Withdrawn};
use s10_test_help::asked::Asked::{Grant, Withdraw};
use s10_test_help::expect::same;
use s10_test_help::steps::{OPENING, Step};
use sqlite::{Connection, Error, MemStore};
use std::alloc::Global;

/// The post grants RA GB 0 to 2 to customer 7. Customer 7 draws serial 0, and the post withdraws
/// the range.
const THREE_REPLIES: &str = "INSERT INTO calls (arrival, customer, number, day, reply) VALUES
(1, 0, 1, 20000, x'533101810000000000000001000000075241474200000000000000020000000001'),
(2, 7, 1, 20000, x'533101820000000700000001524147420000004e2052413030303030303030354742'),
(3, 0, 2, 20000, x'5331028600000000000000020000000100');";

const ONE_RANGE: &str =
    "INSERT INTO ranges (num, holder, pair, low, high, mark) VALUES (1, 7, 1380009794, 0, 2, 1);";

const ONE_SERIAL: &str =
    "INSERT INTO serials (pair, serial, arrival, day, customer, number, voided) VALUES
(1380009794, 0, 2, 20000, 7, 1, 0);";

const ONE_CLOSED: &str = "INSERT INTO closed (num, arrival) VALUES (1, 3);";

const ROWS: &'static [&'static str] = &[HEAD, THREE_REPLIES, ONE_RANGE, ONE_SERIAL, ONE_CLOSED];

fn withdrawn_ledger(alloc: Global) -> Result<Connection<MemStore>, Error> {
    let mut conn = database(alloc, &TABLES)?;
    run_batches(&mut conn, ROWS)?;
    Ok(conn)
}

#[test]
fn a_ledger_with_a_closed_range_opens(rt: HostRuntime) {
    let found = tables_left(rt.alloc(), withdrawn_ledger(rt.alloc()), &[], &[]);
    let wanted = (Ok(whole(3, 20000)), true, COMPLETE, Ok(None));
    assert!(rt; same(&rt, &"withdrawn", &found, &Ok(Some(wanted))));
}

/// Returns the expected finding: a derived row is wrong, and these tables are left.
fn damaged(tables: (usize, bool)) -> Result<Option<Left>, Error> {
    Ok(Some((Err(OpenFault::Damaged(0)), true, tables, Ok(None))))
}

/// A damage, and the tables that are left after it.
const DAMAGES: &[(&str, (usize, bool))] = &[
    ("DROP TABLE closed", INCOMPLETE),
    ("DELETE FROM closed", COMPLETE),
    ("UPDATE closed SET arrival = 2", COMPLETE),
    ("UPDATE closed SET arrival = 4", COMPLETE),
    ("UPDATE closed SET num = 2", COMPLETE),
    ("UPDATE closed SET num = 0", COMPLETE),
    ("INSERT INTO closed (num, arrival) VALUES (2, 3)", COMPLETE),
    ("INSERT INTO closed (num, arrival) VALUES (0, 3)", COMPLETE),
    (
        "INSERT INTO closed (num, arrival) VALUES (4294967297, 3)",
        COMPLETE,
    ),
];

#[test]
fn each_closed_range_is_compared(rt: HostRuntime) {
    for (damage, tables) in DAMAGES {
        let conn = withdrawn_ledger(rt.alloc());
        let found = tables_left(rt.alloc(), conn, &[damage], &[]);
        assert!(rt; same(&rt, damage, &found, &damaged(*tables)));
    }
    let damage = "INSERT INTO closed (num, arrival) VALUES (1, 9)";
    let found = tables_left(rt.alloc(), database(rt.alloc(), NINE_CALLS), &[damage], &[]);
    assert!(rt; same(&rt, &damage, &found, &damaged(COMPLETE)));
}

/// The second range of a ledger is closed before the first.
const BOTH_CLOSED: &'static [Step] = &[
    OPENING,
    (0, 2, Grant(7, 4, 6), 20000, Granted(2)),
    (0, 3, Withdraw(2), 20000, Withdrawn),
    (0, 4, Withdraw(1), 20000, Withdrawn),
];

#[test]
fn ranges_are_closed_in_any_order(rt: HostRuntime) {
    let conn = tables_after(&rt, "both ranges", BOTH_CLOSED);
    let found = tables_left(rt.alloc(), Ok(conn), &[], &[]);
    let wanted = (Ok(whole(4, 20000)), true, COMPLETE, Ok(None));
    assert!(rt; same(&rt, &"both ranges", &found, &Ok(Some(wanted))));
    let conn = tables_after(&rt, "both ranges", BOTH_CLOSED);
    let damage = "UPDATE closed SET arrival = 7 - arrival";
    let found = tables_left(rt.alloc(), Ok(conn), &[damage], &[]);
    assert!(rt; same(&rt, &damage, &found, &damaged(COMPLETE)));
}

//! Databases created by statements, and what an opening finds in them.

use crate::ledger::calls::{LedgerSummary, closed};
use s10_book::Book;
use s10_ledger::{HashSeed, NoObserver, OpenFault, Refused, SqlBook};
use s10_test_help::expect::same;
use sqlite::{Alter, Connection, Error, MemStore};
use std::alloc::Global;
use std::process::Abort;

/// The statement for the table of the settings.
pub(crate) const HEAD_TABLE: &str =
    "CREATE TABLE head (one INTEGER NOT NULL PRIMARY KEY CHECK (one = 1), schema INTEGER NOT NULL, interval INTEGER NOT NULL, cap INTEGER NOT NULL) STRICT;";

/// The statement for the table of calls.
pub(crate) const CALLS_TABLE: &str =
    "CREATE TABLE calls (arrival INTEGER NOT NULL PRIMARY KEY, customer INTEGER NOT NULL, number INTEGER NOT NULL, day INTEGER NOT NULL, reply BLOB NOT NULL, UNIQUE (customer, number)) STRICT;";

/// The statement for the table of ranges.
pub(crate) const RANGES_TABLE: &str =
    "CREATE TABLE ranges (num INTEGER NOT NULL PRIMARY KEY, holder INTEGER NOT NULL, pair INTEGER NOT NULL, low INTEGER NOT NULL, high INTEGER NOT NULL, mark INTEGER NOT NULL) STRICT;";

/// The statement for the table of serials.
pub(crate) const SERIALS_TABLE: &str =
    "CREATE TABLE serials (pair INTEGER NOT NULL, serial INTEGER NOT NULL, arrival INTEGER NOT NULL, day INTEGER NOT NULL, customer INTEGER NOT NULL, number INTEGER NOT NULL, voided INTEGER NOT NULL, PRIMARY KEY (pair, serial)) STRICT;";

/// The statement for the table of closed ranges.
pub(crate) const CLOSED_TABLE: &str =
    "CREATE TABLE closed (num INTEGER NOT NULL PRIMARY KEY, arrival INTEGER NOT NULL) STRICT;";

/// The statement for the row of the settings: interval 30 days, limit 100 calls.
pub(crate) const HEAD: &str =
    "INSERT INTO head (one, schema, interval, cap) VALUES (1, 1, 30, 100);";

/// The replies to nine calls. The post grants RA GB 0 to 2 to customer 7. Customer 7 draws serials
/// 0 and 1, voids 1 twice, draws serial 2, and is refused a Draw since none is free. 30 days later
/// it draws 0 and 1 again.
const NINE_REPLIES: &str = "INSERT INTO calls (arrival, customer, number, day, reply) VALUES
(1, 0, 1, 20000, x'533101810000000000000001000000075241474200000000000000020000000001'),
(2, 7, 1, 20000, x'533101820000000700000001524147420000004e2052413030303030303030354742'),
(3, 7, 2, 20000, x'533101820000000700000002524147420000004e2052413030303030303031344742'),
(4, 7, 3, 20000, x'5331018300000007000000035241303030303030303134474200'),
(5, 7, 4, 20000, x'5331018300000007000000045241303030303030303134474208'),
(6, 7, 5, 20000, x'533101820000000700000005524147420000004e2052413030303030303032384742'),
(7, 7, 6, 20000, x'5331018200000007000000065241474205'),
(8, 7, 7, 20030, x'533101820000000700000007524147420000004e3e52413030303030303030354742'),
(9, 7, 8, 20030, x'533101820000000700000008524147420000004e3e52413030303030303031344742');";

/// Range 1 of customer 7, RA GB 0 to 2, which gives serial 2 next.
const ONE_RANGE: &str =
    "INSERT INTO ranges (num, holder, pair, low, high, mark) VALUES (1, 7, 1380009794, 0, 2, 2);";

/// The last issues of its serials.
pub(crate) const THREE_SERIALS: &str =
    "INSERT INTO serials (pair, serial, arrival, day, customer, number, voided) VALUES
(1380009794, 0, 8, 20030, 7, 7, 0),
(1380009794, 1, 9, 20030, 7, 8, 0),
(1380009794, 2, 6, 20000, 7, 5, 0);";

/// The same rows, written in another order.
pub(crate) const TURNED_SERIALS: &str =
    "INSERT INTO serials (pair, serial, arrival, day, customer, number, voided) VALUES (1380009794, 2, 6, 20000, 7, 5, 0), (1380009794, 0, 8, 20030, 7, 7, 0), (1380009794, 1, 9, 20030, 7, 8, 0);";

/// The statements for the five tables, in order.
pub(crate) const TABLES: [&str; 5] = [
    HEAD_TABLE,
    CALLS_TABLE,
    RANGES_TABLE,
    SERIALS_TABLE,
    CLOSED_TABLE,
];

/// The statements for the tables and for the rows of the nine calls.
pub(crate) const NINE_CALLS: &'static [&'static str] = &[
    HEAD_TABLE,
    CALLS_TABLE,
    RANGES_TABLE,
    SERIALS_TABLE,
    CLOSED_TABLE,
    HEAD,
    NINE_REPLIES,
    ONE_RANGE,
    THREE_SERIALS,
];

/// The same without the rows of serials.
pub(crate) const NINE_WITHOUT_SERIALS: &'static [&'static str] = &[
    HEAD_TABLE,
    CALLS_TABLE,
    RANGES_TABLE,
    SERIALS_TABLE,
    CLOSED_TABLE,
    HEAD,
    NINE_REPLIES,
    ONE_RANGE,
];

/// The same as an earlier build wrote them, without the table of closed ranges.
pub(crate) const OLD_LEDGER: [&str; 8] = [
    HEAD_TABLE,
    CALLS_TABLE,
    RANGES_TABLE,
    SERIALS_TABLE,
    HEAD,
    NINE_REPLIES,
    ONE_RANGE,
    THREE_SERIALS,
];

/// What an opening finds: interval in days, limit, number of calls, and day of the last one; or why
/// there is no ledger.
pub(crate) type Finding = Result<(u32, u32, u32, u32), OpenFault>;

/// What is found in the ledger of the nine calls.
pub(crate) const NINE_FOUND: Finding = Ok((30, 100, 9, 20030));

/// The database is no ledger.
pub(crate) const NO_LEDGER: Finding = Err(OpenFault::NotALedger);

/// A change of a database, and what is found after it.
pub(crate) type Change = (&'static str, Finding);

// Executes the statements of each text, in order.
pub(crate) fn run_batches<S: Alter>(conn: &mut Connection<S>, texts: &[&str]) -> Result<(), Error> {
    for text in texts {
        conn.execute_batch(text)?;
    }
    Ok(())
}

// Returns a database in memory after these statements.
pub(crate) fn database(alloc: Global, texts: &[&str]) -> Result<Connection<MemStore>, Error> {
    let mut conn = Connection::open_in_memory(alloc)?;
    run_batches(&mut conn, texts)?;
    Ok(conn)
}

// Opens a ledger. Returns the result and the connection, or `None` if it is in a transaction.
pub(crate) fn found<S: Alter + Drop>(
    alloc: Global,
    conn: Connection<S>,
) -> Option<(Result<LedgerSummary, OpenFault>, Connection<S>)> {
    if !conn.is_autocommit() {
        return None;
    }
    match SqlBook::open(alloc, HashSeed::fixed(), conn, &mut NoObserver) {
        Ok(book) => {
            let opened = LedgerSummary {
                settings: book.settings(),
                len: book.len(),
                day: book.day(),
            };
            Some((Ok(opened), closed(book)))
        }
        Err(
            Refused {
                refusal,
                connection,
            },
        ) => Some((Err(refusal.fault), connection)),
    }
}

// Returns the result of an opening in numbers.
fn in_numbers(answer: &Result<LedgerSummary, OpenFault>) -> Finding {
    match answer {
        Ok(opened) => Ok((
            opened.settings.interval(),
            opened.settings.limit(),
            opened.len,
            opened.day,
        )),
        Err(fault) => Err(*fault),
    }
}

// Changes a database and opens it. Returns what is found and the connection, or `None` if the
// change fails.
pub(crate) fn changed<S: Alter + Drop>(
    alloc: Global,
    mut conn: Connection<S>,
    change: &str,
) -> Option<(Finding, Connection<S>)> {
    if conn.execute_batch(change).is_err() {
        return None;
    }
    let (answer, conn) = found(alloc, conn)?;
    Some((in_numbers(&answer), conn))
}

// Returns what is found in a database created by these statements after a change, or `None` if one
// of them fails.
pub(crate) fn opening(alloc: Global, texts: &[&str], change: &str) -> Option<Finding> {
    let Ok(conn) = database(alloc, texts) else {
        return None;
    };
    let (finding, _conn) = changed(alloc, conn, change)?;
    Some(finding)
}

/// Asserts for each change what is found after it in a database created by these statements.
pub(crate) fn are_found<R: Abort + Eprint + AllocGlobal>(
    rt: &R,
    texts: &[&str],
    changes: &[Change],
) {
    for (change, finding) in changes {
        assert!(rt;
            same(
                rt,
                change,
                &opening(rt.alloc(), texts, change),
                &Some(*finding),
            )
        );
    }
}

// Returns the numbers that a query shows, row after row.
pub(crate) fn numbers(
    alloc: Global,
    conn: &mut Connection<MemStore>,
    sql: &str,
    width: usize,
) -> Result<Vec<i64>, Error> {
    let mut found = Vec::new(alloc);
    for row in &conn.query_all(sql, &[])? {
        for at in 0..width {
            found.push(row.get(at)?)?;
        }
    }
    Ok(found)
}

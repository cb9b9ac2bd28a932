//! The worked ledger of nine calls in tables: its replies, its reports, and its audits.

use crate::ledger::calls::{closed, ledger};
use s10_book::{Book, GroupCommit, PlainBook};
use s10_ends::{Answer, Delivery, Server};
use s10_history::Settings;
use s10_host::run_audit;
use s10_jobs::{JobStatus, write_answer};
use s10_ledger::{HashSeed, NoObserver};
use s10_lines::WriteFault;
use s10_link::Packet;
use s10_reports::{
    IssueFilter, IssuesReport, RangeFilter, ReportFormat, write_issues, write_ranges,
};
use s10_test_help::expect::holds;
use s10_test_help::refusing::Refusing;
use sqlite::{Alter, Connection, MemStore};
use std::alloc::Global;
use std::io::Write;
use std::process::Abort;

/// The replies to nine calls. The post grants RA GB 0 to 2 to customer 7. Customer 7 draws serials
/// 0 and 1, voids 1 twice, draws serial 2, and is refused a Draw since none is free. 30 days later
/// it draws 0 and 1 again.
const REPLIES: &str = "\
533101810000000000000001000000075241474200000000000000020000000001
533101820000000700000001524147420000004e2052413030303030303030354742
533101820000000700000002524147420000004e2052413030303030303031344742
53310183000000070000000352413030303030303031344742\
00
53310183000000070000000452413030303030303031344742\
08
533101820000000700000005524147420000004e2052413030303030303032384742
5331018200000007000000065241474205
533101820000000700000007524147420000004e3e52413030303030303030354742
533101820000000700000008524147420000004e3e52413030303030303031344742
";

/// The report of the ranges, followed by the report of the issues.
const REPORTS: &str = "range customer service country first last used voided free
1 7 RA GB 00000000 00000002 3 0 1
arrival day customer number identifier state
2 20000 7 1 RA000000005GB reissued
3 20000 7 2 RA000000014GB reissued
6 20000 7 5 RA000000028GB issued
8 20030 7 7 RA000000005GB issued
9 20030 7 8 RA000000014GB issued
";

/// The day and the datagram of each of the nine calls.
const CALLS: &[(u32, &[u8])] = &[
    (
        20_000,
        b"S1\x01\x01\0\0\0\0\0\0\0\x01\0\0\0\x07RAGB\0\0\0\0\0\0\0\x02",
    ),
    (20_000, b"S1\x01\x02\0\0\0\x07\0\0\0\x01RAGB"),
    (20_000, b"S1\x01\x02\0\0\0\x07\0\0\0\x02RAGB"),
    (20_000, b"S1\x01\x03\0\0\0\x07\0\0\0\x03RA000000014GB"),
    (20_000, b"S1\x01\x03\0\0\0\x07\0\0\0\x04RA000000014GB"),
    (20_000, b"S1\x01\x02\0\0\0\x07\0\0\0\x05RAGB"),
    (20_000, b"S1\x01\x02\0\0\0\x07\0\0\0\x06RAGB"),
    (20_030, b"S1\x01\x02\0\0\0\x07\0\0\0\x07RAGB"),
    (20_030, b"S1\x01\x02\0\0\0\x07\0\0\0\x08RAGB"),
];

fn settings() -> Settings {
    Settings::new(30, 100).unwrap()
}

/// Returns the deliveries of the nine calls, or `None` if memory is refused.
fn deliveries(alloc: Global) -> Option<Vec<Delivery>> {
    let mut deliveries = Vec::new(alloc);
    for (day, datagram) in CALLS {
        let packet = Packet::new(datagram);
        deliveries.push(Delivery { packet, day: *day }).ok()?;
    }
    Some(deliveries)
}

/// Returns whether answers are written as the nine replies.
fn are_replies(alloc: Global, answers: &[Answer]) -> bool {
    let mut out = Vec::new(alloc);
    for answer in answers {
        if write_answer(answer, &mut out) != Ok(()) {
            return false;
        }
    }
    out.as_slice() == REPLIES.as_bytes()
}

/// Returns whether a server answers these deliveries with the nine replies.
fn gives_replies<B: Book>(alloc: Global, server: &mut Server<B>, calls: &[Delivery]) -> bool {
    match server.run(alloc, calls) {
        Ok(answers) => are_replies(alloc, &answers),
        Err(_) => false,
    }
}

/// Returns whether a server answers the nine calls with the nine replies.
fn is_worked<B: Book>(alloc: Global, server: &mut Server<B>) -> bool {
    match deliveries(alloc) {
        Some(calls) => gives_replies(alloc, server, &calls),
        None => false,
    }
}

/// Returns the same for a server over this book, and the book with its calls committed.
fn serve_nine_calls<B: GroupCommit>(alloc: Global, book: B) -> (bool, B) {
    let mut server = Server::new(book);
    let is_same = is_worked(alloc, &mut server);
    let _ = server.commit();
    (is_same, server.into_book())
}

/// Returns the same, and drops the book.
fn gives_nine_replies<B: GroupCommit + Drop>(alloc: Global, book: B) -> bool {
    let (is_same, _left) = serve_nine_calls(alloc, book);
    is_same
}

/// Admits every range.
pub(crate) const ALL_RANGES: RangeFilter = RangeFilter {
    customer: None,
    range: None,
    id: None,
};

/// Every issuance, as lines.
const ALL_ISSUES: IssuesReport = IssuesReport {
    filter: IssueFilter {
        customer: None,
        range: None,
        id: None,
        from_day: None,
        to_day: None,
    },
    format: ReportFormat::Lines,
};

/// Returns whether the two reports of a book, one after the other, are as worked by hand.
fn are_as_worked<B: Book>(alloc: Global, book: &mut B) -> bool {
    let mut out = Vec::new(alloc);
    write_ranges(book, &ALL_RANGES, ReportFormat::Lines, 20_030, &mut out) == Ok(())
        && write_issues(book, &ALL_ISSUES, &mut out) == Ok(())
        && out.as_slice() == REPORTS.as_bytes()
}

/// Returns the book after the nine calls. Sets `said` to whether it gave the nine replies, and
/// whether its reports are then as worked by hand.
fn reported<B: GroupCommit>(alloc: Global, book: B, said: &mut (bool, bool)) -> B {
    let (is_same, mut book) = serve_nine_calls(alloc, book);
    *said = (is_same, are_as_worked(alloc, &mut book));
    book
}

/// Returns the tables of a new ledger after the nine calls. Also returns whether it gave the nine
/// replies, and whether its reports are as worked by hand.
fn worked<R: Abort + AllocGlobal>(rt: &R) -> (Connection<MemStore>, (bool, bool)) {
    let mut said = (false, false);
    let book = reported(rt.alloc(), ledger(rt, settings()), &mut said);
    (closed(book), said)
}

#[test]
fn both_books_give_the_same_replies(rt: HostRuntime) {
    let book = PlainBook::new(rt.alloc(), settings());
    assert!(rt; gives_nine_replies(rt.alloc(), book));
    let (_tables, said) = worked(&rt);
    assert!(rt; said.0);
}

#[test]
fn reports_of_tables_are_as_worked_by_hand(rt: HostRuntime) {
    let (_tables, said) = worked(&rt);
    assert!(rt; said.1);
}

/// Returns the tables of the nine calls.
fn worked_ledger<R: Abort + AllocGlobal>(rt: &R) -> Option<Connection<MemStore>> {
    let (tables, _) = worked(rt);
    Some(tables)
}

/// Returns the tables after one change, or `None` if there are none or the change fails.
fn changed<S: Alter + Drop>(ledger: Option<Connection<S>>, change: &str) -> Option<Connection<S>> {
    let mut connection = ledger?;
    connection.execute(change, &[]).ok()?;
    Some(connection)
}

/// Returns the result of an audit, or `None` if there are no tables.
fn audited<R: Abort + AllocGlobal, S: Alter + Drop, W: Write>(
    rt: &R,
    ledger: Option<Connection<S>>,
    out: &mut W,
) -> Option<Result<JobStatus, WriteFault>> {
    let connection = ledger?;
    assert!(rt; connection.is_autocommit());
    let (done, _left) = run_audit(
        rt.alloc(),
        HashSeed::fixed(),
        connection,
        &mut NoObserver,
        out,
    );
    Some(done)
}

/// Returns whether an audit of the tables ends with this status and prints this line.
fn is_audited<R: Abort + AllocGlobal, S: Alter + Drop>(
    rt: &R,
    ledger: Option<Connection<S>>,
    status: JobStatus,
    line: &str,
) -> bool {
    let mut out = Vec::new(rt.alloc());
    audited(rt, ledger, &mut out) == Some(Ok(status)) && out.as_slice() == line.as_bytes()
}

#[test]
fn an_unchanged_ledger_is_sound(rt: HostRuntime) {
    let worked = worked_ledger(&rt);
    assert!(rt; is_audited(&rt, worked, JobStatus::Done, "ledger ok 9\n"));
    let empty = Some(closed(ledger(&rt, settings())));
    assert!(rt; is_audited(&rt, empty, JobStatus::Done, "ledger ok 0\n"));
    let worked = worked_ledger(&rt);
    assert!(rt; audited(&rt, worked, &mut Refusing) == Some(Err(WriteFault)));
}

#[test]
fn ledger_without_the_table_of_closed_ranges_is_of_an_earlier_build(rt: HostRuntime) {
    let earlier = changed(worked_ledger(&rt), "DROP TABLE closed");
    assert!(rt; is_audited(&rt, earlier, JobStatus::Done, "ledger ok 9\n"));
}

#[test]
fn database_without_tables_is_no_ledger(rt: HostRuntime) {
    let bare = Connection::open_in_memory(rt.alloc()).ok();
    assert!(rt; is_audited(&rt, bare, JobStatus::Failed, "ledger not-a-ledger\n"));
}

/// A change of the tables, and the line of an audit after it.
const CHANGES: &[(&str, &str)] = &[
    ("UPDATE head SET schema = 2", "ledger schema 2\n"),
    ("UPDATE head SET interval = 0", "ledger not-a-ledger\n"),
    ("UPDATE head SET cap = 0", "ledger not-a-ledger\n"),
    ("DELETE FROM head", "ledger not-a-ledger\n"),
    ("DROP TABLE serials", "ledger not-a-ledger\n"),
    ("UPDATE head SET interval = 31", "ledger damaged 8\n"),
    ("UPDATE head SET cap = 8", "ledger damaged 9\n"),
    ("DELETE FROM calls WHERE arrival = 2", "ledger damaged 2\n"),
    (
        "UPDATE calls SET arrival = 10 WHERE arrival = 9",
        "ledger damaged 9\n",
    ),
    (
        "UPDATE calls SET customer = 8 WHERE arrival = 4",
        "ledger damaged 4\n",
    ),
    (
        "UPDATE calls SET day = 19999 WHERE arrival = 6",
        "ledger damaged 6\n",
    ),
    (
        "UPDATE calls SET day = 20029 WHERE arrival = 8",
        "ledger damaged 8\n",
    ),
    (
        "UPDATE calls SET day = 20029 WHERE arrival = 9",
        "ledger damaged 9\n",
    ),
    (
        "UPDATE calls SET reply = x'5331018300000007000000045241303030303030303134474200' WHERE arrival = 5",
        "ledger damaged 5\n",
    ),
    (
        "UPDATE calls SET reply = x'533101820000000700000002524147420000004e20524130303030303030313447' WHERE arrival = 3",
        "ledger damaged 3\n",
    ),
    ("UPDATE ranges SET high = 3", "ledger damaged 0\n"),
    ("UPDATE ranges SET mark = 0", "ledger damaged 0\n"),
    (
        "UPDATE serials SET day = 19999 WHERE serial = 0",
        "ledger damaged 0\n",
    ),
    (
        "UPDATE serials SET voided = 1 WHERE serial = 1",
        "ledger damaged 0\n",
    ),
    ("DELETE FROM serials WHERE serial = 2", "ledger damaged 0\n"),
    (
        "INSERT INTO serials VALUES (1380009794, 3, 9, 20030, 7, 8, 0)",
        "ledger damaged 0\n",
    ),
    ("INSERT INTO closed VALUES (1, 9)", "ledger damaged 0\n"),
];

/// Returns whether an audit after the change fails with this line.
fn is_found<R: Abort + AllocGlobal>(rt: &R, change: &str, line: &str) -> bool {
    let ledger = changed(worked_ledger(rt), change);
    is_audited(rt, ledger, JobStatus::Failed, line)
}

#[test]
fn one_change_of_the_tables_is_found(rt: HostRuntime) {
    for (change, line) in CHANGES {
        assert!(rt; holds(&rt, change, is_found(&rt, change, line)));
    }
}

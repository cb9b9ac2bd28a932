//! Reports, and the lines of those that end early.

use s10_book::{Book, PlainBook, TripBook};
use s10_ends::Server;
use s10_history::Settings;
use s10_jobs::{ClockDays, JobStatus, Report, ReportKind, write_report};
use s10_lines::WriteFault;
use s10_reports::{IssueFilter, IssuesReport, RangeFilter, ReportFormat};
use s10_test_help::expect::{holds, is_text};
use s10_test_help::hiccup::Hiccup;
use s10_test_help::refusing::Refusing;
use std::alloc::Global;
use std::io::Write;
use std::process::Abort;
use std::time::Clock;

const RANGES: &str = "range customer service country first last used voided free
1 7 RA GB 00000000 00000002 1 0 2
";

const RANGES_WITHDRAWN: &str = "range customer service country first last used voided free
1 7 RA GB 00000000 00000002 1 0 2 closed
";

const ISSUES: &str = "arrival day customer number identifier state
2 20000 7 1 RA000000005GB issued
";

const INFO: &str = "schema 1
interval 30
limit 100
calls 2
last-day 20000
ranges 1
closed 0
used 1
voided 0
free 2
";

const INFO_WITHDRAWN: &str = "schema 1
interval 30
limit 100
calls 3
last-day 20000
ranges 1
closed 1
used 1
voided 0
free 0
";

/// Returns the book of a grant of three serials and a draw.
fn one_issue(alloc: Global) -> PlainBook {
    let settings = Settings::new(30, 100).unwrap();
    let mut server = Server::new(PlainBook::new(alloc, settings));
    let grant = b"S1\x01\x01\0\0\0\0\0\0\0\x01\0\0\0\x07RAGB\0\0\0\0\0\0\0\x02";
    let draw = b"S1\x01\x02\0\0\0\x07\0\0\0\x01RAGB";
    let _ = server.handle(grant, 20_000);
    let _ = server.handle(draw, 20_000);
    server.into_book()
}

/// Returns whether a report of the book has this status and prints this text.
fn prints<B: Book + Drop>(
    alloc: Global,
    mut book: B,
    report: Report,
    status: JobStatus,
    text: &str,
) -> bool {
    let mut out = Vec::new(alloc);
    let written = write_report(&mut book, report, &mut out);
    is_text(out, text.as_bytes()) && written == Ok(status)
}

/// Asserts that a report of this book is done and prints this text.
fn is_done<R: Abort + Eprint + AllocGlobal>(rt: &R, book: PlainBook, report: Report, text: &str) {
    assert!(rt;
        holds(
            rt,
            &text,
            prints(rt.alloc(), book, report, JobStatus::Done, text),
        )
    );
}

/// What is asked for: ranges or issuances, all but for a filter, or the whole ledger.
#[derive(Clone, Copy, Debug)]
enum Asked {
    Ranges,
    RangesOf8,
    Records,
    Issues,
    Info,
}

fn ranges(customer: Option<u32>, format: ReportFormat) -> ReportKind {
    ReportKind::Ranges {
        filter: RangeFilter {
            customer,
            range: None,
            id: None,
        },
        format,
    }
}

fn every_issue() -> IssuesReport {
    IssuesReport {
        filter: IssueFilter {
            customer: None,
            range: None,
            id: None,
            from_day: None,
            to_day: None,
        },
        format: ReportFormat::Lines,
    }
}

fn kind_of(asked: Asked) -> ReportKind {
    match asked {
        Asked::Ranges => ranges(None, ReportFormat::Lines),
        Asked::RangesOf8 => ranges(Some(8), ReportFormat::Lines),
        Asked::Records => ranges(None, ReportFormat::Csv),
        Asked::Issues => ReportKind::Issues(every_issue()),
        Asked::Info => ReportKind::Info,
    }
}

/// Returns the report that is asked for, on a day.
fn report_on(asked: Asked, day: u32) -> Report {
    match kind_of(asked) {
        ReportKind::Ranges { filter, format } => Report::Ranges {
            filter,
            format,
            day,
        },
        ReportKind::Issues(issues) => Report::Issues(issues),
        ReportKind::Info => Report::Info { day },
    }
}

/// Returns the report that is asked for, on the day that is given or on the clock's.
fn report_by<R: Clock>(rt: &R, asked: Asked, day: Option<u32>) -> Option<Report> {
    Report::new(&mut ClockDays { clock: rt }, kind_of(asked), day)
}

const NO_RANGES: &str = "range customer service country first last used voided free\n";

const RECORDS: &str = "range,customer,service,country,first,last,used,voided,free,closed,day,date\r
1,7,RA,GB,00000000,00000002,1,0,2,no,20000,2024-10-04\r
";

/// A report on day 20000, and its text.
const REPORTS: &[(Asked, &str)] = &[
    (Asked::Ranges, RANGES),
    (Asked::RangesOf8, NO_RANGES),
    (Asked::Records, RECORDS),
    (Asked::Issues, ISSUES),
    (Asked::Info, INFO),
];

#[test]
fn reports_are_written_whole(rt: HostRuntime) {
    for (asked, text) in REPORTS {
        is_done(&rt, one_issue(rt.alloc()), report_on(*asked, 20_000), text);
    }
}

/// Returns the book of a grant, a draw and the withdrawal of the range.
fn one_withdrawn(alloc: Global) -> PlainBook {
    let mut server = Server::new(one_issue(alloc));
    let withdraw = b"S1\x02\x06\0\0\0\0\0\0\0\x02\0\0\0\x01";
    let _ = server.handle(withdraw, 20_000);
    server.into_book()
}

/// Reports of a withdrawn range, and their texts.
const WITHDRAWN: &[(Asked, &str)] = &[
    (Asked::Ranges, RANGES_WITHDRAWN),
    (Asked::Issues, ISSUES),
    (Asked::Info, INFO_WITHDRAWN),
];

#[test]
fn a_withdrawn_range_is_reported_as_closed(rt: HostRuntime) {
    for (asked, text) in WITHDRAWN {
        is_done(
            &rt,
            one_withdrawn(rt.alloc()),
            report_on(*asked, 20_000),
            text,
        );
    }
}

/// Returns whether a report is the report with the day that is given, and has that of the clock if
/// none is.
fn has_its_day<R: Clock>(rt: &R, asked: Asked) -> bool {
    report_by(rt, asked, Some(7)) == Some(report_on(asked, 7))
        && report_by(rt, asked, None).is_some()
}

/// Returns whether a report of issues has no day.
fn has_no_day<R: Clock>(rt: &R) -> bool {
    is_without_day(rt, Some(7)) && is_without_day(rt, None)
}

fn is_without_day<R: Clock>(rt: &R, day: Option<u32>) -> bool {
    report_by(rt, Asked::Issues, day) == Some(Report::Issues(every_issue()))
}

#[test]
fn a_report_has_the_day_that_is_given(rt: HostRuntime) {
    assert!(rt; has_its_day(&rt, Asked::Ranges));
    assert!(rt; has_its_day(&rt, Asked::Info));
    assert!(rt; has_no_day(&rt));
}

/// Reports of a book that fails, and their texts.
const FAULTED: &[(Asked, &str)] = &[
    (
        Asked::Ranges,
        "range customer service country first last used voided free\nfaulted store\n",
    ),
    (
        Asked::Issues,
        "arrival day customer number identifier state\nfaulted store\n",
    ),
    (Asked::Info, "faulted store\n"),
];

/// Returns whether a report of a book that fails at its first call prints this text.
fn prints_fault(alloc: Global, report: Report, text: &str) -> bool {
    let book = TripBook::new(one_issue(alloc), 0);
    prints(alloc, book, report, JobStatus::Failed, text)
}

#[test]
fn a_fault_of_the_book_ends_a_report(rt: HostRuntime) {
    for (asked, text) in FAULTED {
        let report = report_on(*asked, 20_000);
        assert!(rt; holds(&rt, text, prints_fault(rt.alloc(), report, text)));
    }
}

/// Writes a report of issues.
fn written<W: Write>(alloc: Global, out: &mut W) -> Result<JobStatus, WriteFault> {
    write_report(&mut one_issue(alloc), Report::Issues(every_issue()), out)
}

/// Returns whether a report ends with the line `output` if its first bytes are refused.
fn is_reported_as_ended(alloc: Global) -> bool {
    let mut out = Hiccup::new(alloc, 0);
    let told = written(alloc, &mut out);
    is_text(out.bytes, b"output\n") && told == Ok(JobStatus::Failed)
}

#[test]
fn a_writer_that_fails_ends_a_report(rt: HostRuntime) {
    assert!(rt; is_reported_as_ended(rt.alloc()));
    assert!(rt; written(rt.alloc(), &mut Refusing) == Err(WriteFault));
}
